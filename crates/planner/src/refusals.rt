// What the calls refuse, a function for each: the first of the conditions that concern its arguments, in document 01's order. (The
// searches refuse 1 to 5 where they count the list, and have 9 beside these.)
// kept: the arguments stand one by one and the plan is a number, as C passes them, until they are tested. What is tested is handed back by its type: the
// rows, for which n and z then are a pair (`PairFor`), or, for the point list, which has no rows, the plan. The struct of rows, n and z is `Lattice`,
// which is made where the 12 KiB of its products are.

ghost use Rattle.std.specs.Prelude.{◌≡◌, [], ◌∷◌, length, IfOk};
ghost use Rattle.rank1.specs.Named.{plan_number, refused};
ghost use Rattle.rank1.specs.Refusal.{first_of, bad_modulus, bad_places, table_conditions, inadmissible, ungatherable, check_refusal, map_refusal, spread_refusal, gather_refusal, point_refusal};
ghost use Rattle.planner.specs.Lists.{rows_in, Given, PairFor};

use crate::lattice::Lattice;
use crate::list::Rows;
use crate::points::line_count;
use crate::rule::admits;
use crate::sizes::PRODUCT_ROOM;
use rank1::{Plan, Refusal};
use refusal::{
    check_axes, check_list_pair, check_map_plan, check_modulus, check_pair, check_places,
};

// What the check refuses: conditions 1 to 7. Where none applies the rows are handed back, and n and z are a pair for them.
#[tactic(auto, unfolding(rank1::specs::Refusal::check_refusal))]
pub(crate) fn check_refusal<'a>(
    plan: u8,
    d: usize,
    rows: &'a [i16],
    n: u16,
    z: &[u16],
) -> Result<Rows<'a>, Refusal>
    ensures number { refused result ≡ check_refusal plan d rows.now n z.now }
    ensures given { IfOk result (Given plan d rows.now) }
    ensures pair { IfOk result (PairFor n z.now) }
{
    let named = Plan::try_from(plan)?;
    check_list_pair(plan, d, rows, n, z)?;
    Ok(Rows {
        plan: named,
        d,
        numbers: rows,
    })
}

// Condition 10: the pair is not admissible.
fn rule_refusal(rows: &Rows, n: u16, z: &[u16]) -> Result<(), Refusal>
    requires { PairFor n z.now rows.now }
    ensures { refused result ≡ inadmissible (plan_number rows.now.plan) (rows_in rows.now) n z.now }
{
    if admits(rows, n, z) {
        Ok(())
    } else {
        Err(Refusal::Inadmissible)
    }
}

// Conditions 1 to 7 of map, spread and gather, which refuse plan 0 too; where none applies the same is handed back.
#[tactic(auto, unfolding(rank1::specs::Refusal::check_refusal))]
fn table_refusal<'a>(
    plan: u8,
    d: usize,
    rows: &'a [i16],
    n: u16,
    z: &[u16],
) -> Result<Rows<'a>, Refusal>
    ensures number { refused result ≡ first_of (table_conditions plan d rows.now n z.now) }
    ensures given { IfOk result (Given plan d rows.now) }
    ensures pair { IfOk result (PairFor n z.now) }
{
    check_map_plan(plan)?;
    check_refusal(plan, d, rows, n, z)
}

// What the map refuses, with the places lent for it.
#[tactic(auto, using(crate::proofs::refusals::HandedLaws::map_parts))]
pub(crate) fn map_refusal<'a>(
    plan: u8,
    d: usize,
    rows: &'a [i16],
    n: u16,
    z: &[u16],
    places: usize,
) -> Result<Rows<'a>, Refusal>
    ensures number { refused result ≡ map_refusal plan d rows.now n z.now places }
    ensures given { IfOk result (Given plan d rows.now) }
    ensures pair { IfOk result (PairFor n z.now) }
{
    let rows = table_refusal(plan, d, rows, n, z)?;
    check_places(places, 2 * rows.count())?;
    rule_refusal(&rows, n, z)?;
    Ok(rows)
}

// What spreading refuses, with as many terms and sums lent.
#[tactic(auto, using(crate::proofs::refusals::HandedLaws::spread_parts))]
pub(crate) fn spread_refusal<'a>(
    plan: u8,
    d: usize,
    rows: &'a [i16],
    n: u16,
    z: &[u16],
    terms: usize,
    sums: usize,
) -> Result<Rows<'a>, Refusal>
    ensures number { refused result ≡ spread_refusal plan d rows.now n z.now terms sums }
    ensures given { IfOk result (Given plan d rows.now) }
    ensures pair { IfOk result (PairFor n z.now) }
{
    let rows = table_refusal(plan, d, rows, n, z)?;
    check_places(terms, rows.count())?;
    check_places(sums, usize::from(n))?;
    rule_refusal(&rows, n, z)?;
    Ok(rows)
}

// Condition 11: a sum is no multiple of c, or its quotient has not 32 bits.
fn sums_refusal(rows: &Rows, n: u16, z: &[u16], sums: &[i64]) -> Result<(), Refusal>
    requires valid_pair { PairFor n z.now rows.now }
    requires sums_len { length sums.now ≡ n }
    ensures { refused result ≡ ungatherable (plan_number rows.now.plan) (rows_in rows.now) n z.now sums.now }
{
    let mut products = [0u16; PRODUCT_ROOM];
    if Lattice::of(rows, n, z, &mut products).all_gather(sums) {
        Ok(())
    } else {
        Err(Refusal::Sums)
    }
}

// What gathering refuses, with as many terms lent: the same as spreading, and then 11.
#[tactic(auto, using(crate::proofs::refusals::HandedLaws::gather_as_spread))]
pub(crate) fn gather_refusal<'a>(
    plan: u8,
    d: usize,
    rows: &'a [i16],
    n: u16,
    z: &[u16],
    sums: &[i64],
    terms: usize,
) -> Result<Rows<'a>, Refusal>
    ensures number { refused result ≡ gather_refusal plan d rows.now n z.now sums.now terms }
    ensures given { IfOk result (Given plan d rows.now) }
    ensures pair { IfOk result (PairFor n z.now) }
{
    let rows = spread_refusal(plan, d, rows, n, z, terms, sums.len())?;
    sums_refusal(&rows, n, z, sums)?;
    Ok(rows)
}

// What the point list refuses, with the places lent for it; where it refuses nothing the plan is handed back by name.
#[tactic(auto, using(crate::proofs::refusals::HandedLaws::point_parts))]
pub(crate) fn point_refusal(
    plan: u8,
    d: usize,
    n: u16,
    z: &[u16],
    places: usize,
) -> Result<Plan, Refusal>
    ensures number { refused result ≡ point_refusal plan d n z.now places }
    ensures named { IfOk result (λ named. plan_number named ≡ plan) }
{
    let named = Plan::try_from(plan)?;
    check_axes(d)?;
    check_pair(d, n, z)?;
    check_places(places, usize::from(line_count(named, n)) * d)?;
    Ok(named)
}

// What a search refuses of the modulus n, or the ceiling n, and of the places lent for the vector: 6, and then 8.
pub(crate) fn range_refusal(d: usize, n: u16, places: usize) -> Result<(), Refusal>
    ensures { refused result ≡ first_of (bad_modulus n ∷ bad_places places d ∷ []) }
{
    check_modulus(n)?;
    check_places(places, d)
}
