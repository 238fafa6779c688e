// The planner's calls: check, residue map, spread, gather, point list and the two searches (document 01), and the gentler of two vectors
// (document 02, f). Every public call takes any arguments, refuses wrong ones by the numbers of document 01's table, and then leaves
// what it was lent as it was.
// kept: the public calls take (plan, d, rows, n, z) one by one and the plan as a number, since C passes them so, and any number may be passed.

#![tactic(auto)]

mod axes;
mod differences;
mod fill;
mod flips;
mod lattice;
mod levels;
mod list;
mod listing;
mod members;
mod mirrors;
mod moduli;
mod points;
mod products;
mod refusals;
mod rounds;
mod rows;
mod rule;
mod runs;
mod search;
mod sieve;
mod sizes;
mod sums;
mod table;
mod tables;
mod tent;
mod vectors;

ghost use Rattle.std.specs.Prelude.{◌≤◌};
ghost use Rattle.rank1.specs.Named.{refused};
ghost use Rattle.rank1.specs.Tests.{Decides};
ghost use Rattle.rank1.specs.Winner.{LeftWins};
ghost use Rattle.planner.specs.Answer.{CheckCall, ResidueMapCall, SpreadCall, GatherCall, PointListCall, VectorSearch, SmallestSearch, GentlerCall};
ghost use Rattle.planner.specs.Stage.{SearchBetween};

use crate::lattice::Lattice;
use crate::list::Rows;
use crate::points::Cutting;
use crate::sizes::PRODUCT_ROOM;
use rank1::{Plan, Refusal};

// Whether the pair n, z meets the rule of the plan for the rows.
pub fn check(plan: u8, d: usize, rows: &[i16], n: u16, z: &[u16]) -> Result<bool, Refusal>
    ensures { CheckCall plan d rows.now n z.now result }
{
    let rows = refusals::check_refusal(plan, d, rows, n, z)?;
    Ok(rule::admits(&rows, n, z))
}

// The map: for each row its residue and c.
pub fn residue_map(
    plan: u8,
    d: usize,
    rows: &[i16],
    n: u16,
    z: &[u16],
    out: &mut [u16],
) -> Result<(), Refusal>
    ensures { ResidueMapCall plan d rows.now n z.now out.old out.new (refused result) }
{
    let rows = refusals::map_refusal(plan, d, rows, n, z, out.len())?;
    let mut products = [0u16; PRODUCT_ROOM];
    Lattice::of(&rows, n, z, &mut products).write_map(out);
    Ok(())
}

// Spreading: the sum at each residue.
pub fn spread(
    plan: u8,
    d: usize,
    rows: &[i16],
    n: u16,
    z: &[u16],
    terms: &[i32],
    sums: &mut [i64],
) -> Result<(), Refusal>
    ensures { SpreadCall plan d rows.now n z.now terms.now sums.old sums.new (refused result) }
{
    let rows = refusals::spread_refusal(plan, d, rows, n, z, terms.len(), sums.len())?;
    let mut products = [0u16; PRODUCT_ROOM];
    Lattice::of(&rows, n, z, &mut products).write_sums(terms, sums);
    Ok(())
}

// Gathering: each row's term from the sum at its residue. All rows are tested before the first term is written.
pub fn gather(
    plan: u8,
    d: usize,
    rows: &[i16],
    n: u16,
    z: &[u16],
    sums: &[i64],
    terms: &mut [i32],
) -> Result<(), Refusal>
    ensures { GatherCall plan d rows.now n z.now sums.now terms.old terms.new (refused result) }
{
    let rows = refusals::gather_refusal(plan, d, rows, n, z, sums, terms.len())?;
    let mut products = [0u16; PRODUCT_ROOM];
    Lattice::of(&rows, n, z, &mut products).write_terms(sums, terms);
    Ok(())
}

// The point list: `line_count` lines of d numbers, one for each lens.
pub fn point_list(plan: u8, d: usize, n: u16, z: &[u16], out: &mut [u16]) -> Result<(), Refusal>
    ensures { PointListCall plan d n z.now out.old out.new (refused result) }
{
    let plan = refusals::point_refusal(plan, d, n, z, out.len())?;
    Cutting { plan, n, z }.write(out);
    Ok(())
}

// Both searches: the list is counted, or refused by 1 to 5; then 6 and 8 are left; and the moduli from low to high are run.
// kept: the arguments stand one by one until the list is counted; then they are `Rows`.
fn search_between(
    plan: u8,
    d: usize,
    rows: &[i16],
    low: u16,
    high: u16,
    z: &mut [u16],
) -> Result<u16, Refusal>
    requires { 1 ≤ high → 1 ≤ low }
    ensures { SearchBetween plan d rows.now low high z.old z.new result }
{
    let named = Plan::try_from(plan)?;
    let tally = lists::tally_list(plan, d, rows)?;
    refusals::range_refusal(d, high, z.len())?;
    let rows = Rows {
        plan: named,
        d,
        numbers: rows,
    };
    moduli::first_plan(&rows, tally, low, high, z)
}

// The gentlest admissible vector at n.
pub fn search_vector(
    plan: u8,
    d: usize,
    rows: &[i16],
    n: u16,
    z: &mut [u16],
) -> Result<u16, Refusal>
    ensures { VectorSearch plan d rows.now n z.old z.new result }
{
    search_between(plan, d, rows, n, n, z)
}

// The smallest plan: the smallest modulus up to the ceiling that has an admissible vector, and the gentlest one there.
pub fn search_smallest(
    plan: u8,
    d: usize,
    rows: &[i16],
    ceiling: u16,
    z: &mut [u16],
) -> Result<u16, Refusal>
    ensures { SmallestSearch plan d rows.now ceiling z.old z.new result }
{
    search_between(plan, d, rows, 1, ceiling, z)
}

// Whether the left one of two vectors wins: the shorter one does, at one length the gentler one, on a full tie the left one.
// kept: by steps, since the order of vectors of one length is that of `is_gentler`, which is said there alone.
pub fn left_wins(left: &[u16], right: &[u16]) -> bool
    ensures { Decides result (LeftWins left.now right.now) }
{
    if left.len() != right.len() {
        return left.len() < right.len();
    }
    !vectors::is_gentler(right, left)
}

// The gentler of two lent vectors: the winner is handed back as the lent numbers themselves.
pub fn gentler<'a>(left: &'a [u16], right: &'a [u16]) -> &'a [u16]
    ensures { GentlerCall left.entry right.entry result }
{
    if left_wins(left, right) {
        return left;
    }
    right
}
