// A list counted row by row.
// kept: d and the rows stand apart, as in the two public calls that count them: each would make a struct of the two for one call.

ghost use Rattle.std.specs.Prelude.{◌≡◌, ◌≤◌, length};
ghost use Rattle.rank1.specs.Index.{index_list};
ghost use Rattle.rank1.specs.Named.{plan_number};
ghost use Rattle.rank1.specs.Sums.{mirrors_under};
ghost use Rattle.lists.specs.Rows.{most_mirrors, on_axes};
ghost use Rattle.lists.specs.Inner.{Addable, Countable, summed, more};

use crate::{mirror_count, nonzero_mask};
use rank1::{Plan, Tally};

// How many members a row adds to the size: its mirrors, and 1 for plans 0 and 1.
fn members_of(plan: Plan, row: &[i16]) -> u32
    ensures { (result ≡ length (mirrors_under (plan_number plan) (on_axes row.now))) × (result ≤ most_mirrors) }
{
    // kept: planner's takes_mirrors is above this crate; a method of Plan would be one public call more for two places.
    match plan {
        Plan::Integration | Plan::Fourier => 1,
        // kept: a row has at most 64 mirrors; `try_from` would have an `Err` that never comes.
        Plan::A | Plan::B | Plan::C => mirror_count(row) as u32,
    }
}

// The record with one row more.
pub(crate) fn plus(plan: Plan, tally: Tally, row: &[i16]) -> Tally
    requires { Addable tally row.now }
    ensures { result ≡ more (plan_number plan) (length row.now) tally row.now }
{
    Tally {
        m: tally.m + 1,
        size: tally.size + members_of(plan, row),
        zero: tally.zero | (nonzero_mask(row) == 0),
    }
}

// The record of the rows, row by row.
pub(crate) fn count(plan: Plan, d: usize, rows: &[i16]) -> Tally
    requires { Countable d rows.now }
    ensures { result ≡ summed (plan_number plan) d (index_list d rows.now) }
{
    let mut tally = Tally {
        m: 0,
        size: 0,
        zero: false,
    };
    for row in rows.chunks_exact(d) {
        tally = plus(plan, tally, row);
    }
    tally
}
