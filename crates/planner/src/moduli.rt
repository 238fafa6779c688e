// The moduli upward: at each one the tables of the modulus are set and the search is run. Moduli below the tally's bound fail by
// counting, so the tables of the list are made only where a modulus is left.
// kept: low and high stand one by one: low is raised by the tally's bound and high is held against that, so a `RangeInclusive`, which is no Copy,
// would be taken apart and made anew.

ghost use Rattle.std.specs.Prelude.{◌≡◌, ◌≤◌, max, length};
ghost use Rattle.rank1.specs.Named.{plan_number};
ghost use Rattle.rank1.specs.Tally.{recount, least_modulus};
ghost use Rattle.rank1.specs.Refusal.{least_refusal};
ghost use Rattle.planner.specs.Sizes.{largest_modulus};
ghost use Rattle.planner.specs.Lists.{rows_in};
ghost use Rattle.planner.specs.Stage.{rule_of, Tabled, Ascended, PlanBetween, Searchable};

use crate::axes::set_swaps;
use crate::levels::set_levels;
use crate::list::Rows;
use crate::listing::{Task, set_differences};
use crate::rounds::gentlest_vector;
use crate::sizes::{AXES, LARGEST_MODULUS, LASTS, LEVEL_ROOM, PRODUCT_ROOM, ROOM, SOLUTION_ROOM};
use crate::tables::{ListTables, ModulusTables, Work};
use lists::least_modulus;
use rank1::{Plan, Refusal, Tally};

// Runs the moduli from low to high: the first that does not fail, with its gentlest vector in `best`. The tables of a modulus and the
// work are made here, once for all.
// kept: `best` is lent with d places, so the clauses here and in rounds.rt speak of the vector itself: an Option of modulus and vector would hand
// over an array of six, and each clause would speak of its first d.
fn first_modulus(task: &Task, low: u16, high: u16, best: &mut [u16]) -> Option<u16>
    requires tabled { Tabled task.now }
    requires le_low { (1 ≤ low) × (high ≤ largest_modulus) × (length best.old ≡ task.now.rows.d) }
    ensures { Ascended (rule_of task.now.rows) task.now.rows.d low high best.new result }
{
    let mut modulus = ModulusTables {
        solutions: [0; SOLUTION_ROOM],
        solved: [None; LASTS],
    };
    let mut work = Work {
        sums: [0; AXES * ROOM],
        products: [0; PRODUCT_ROOM],
        struck: [false; AXES * LARGEST_MODULUS + 1],
        owners: [None; LARGEST_MODULUS],
        taken: [false; LARGEST_MODULUS],
    };
    // kept: as a `find` the closure would need clauses of its own for the tables, the work and the vector that each turn writes.
    for n in low..=high {
        if gentlest_vector(task, n, &mut modulus, &mut work, best) {
            return Some(n);
        }
    }
    None
}

// The first plan among the moduli from low to high for a valid list, whose tables are made here. The vector is built in an array of
// its own, so that the lent places are written only where there is a plan.
fn search_list(rows: &Rows, low: u16, high: u16, z: &mut [u16]) -> Result<u16, Refusal>
    requires { Searchable rows.now low high z.old }
    ensures { PlanBetween (rule_of rows.now) rows.now.d low high z.old z.new result }
{
    let mut list = ListTables {
        levels: [0; (AXES + 1) * LEVEL_ROOM],
        sizes: [0; AXES + 1],
        swaps: [false; AXES * AXES],
        flips: [false; AXES],
        components: [0; AXES * ROOM],
        bounds: [0; AXES * LASTS + 1],
    };
    let mut x = [0u16; AXES];
    let listing = set_differences(rows, &mut list);
    set_levels(rows, listing.top, &mut list);
    set_swaps(rows, &mut list.swaps);
    let task = Task {
        rows: *rows,
        list: &list,
        listing,
    };
    let found = first_modulus(&task, low, high, &mut x[..rows.d]);
    let n = found.ok_or(Refusal::NoPlan)?;
    z.copy_from_slice(&x[..rows.d]);
    Ok(n)
}

// The first modulus from low on that counting lets through: none below the tally's bound is worth trying.
fn start_of(plan: Plan, tally: Tally, low: u16) -> u16
    requires { least_refusal (plan_number plan) tally ≡ 0 }
    ensures { result ≡ max low (least_modulus (plan_number plan) tally) }
{
    least_modulus(u8::from(plan), tally).map_or(low, |least| low.max(least))
}

// The first plan among the moduli from low to high for a valid list and its record.
pub(crate) fn first_plan(
    rows: &Rows,
    tally: Tally,
    low: u16,
    high: u16,
    z: &mut [u16],
) -> Result<u16, Refusal>
    requires { Searchable rows.now low high z.old × (tally ≡ recount (plan_number rows.now.plan) rows.now.d (rows_in rows.now)) }
    ensures { PlanBetween (rule_of rows.now) rows.now.d low high z.old z.new result }
{
    let start = start_of(rows.plan, tally, low);
    if high < start {
        return Err(Refusal::NoPlan);
    }
    search_list(rows, start, high, z)
}
