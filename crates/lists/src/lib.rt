// Calls about lists alone (document 02): the running tally, request b, and lists given by corners, request c. Every public call takes
// any arguments, and refuses wrong ones before it writes anything. What is counted of one row serves the planner too.
// kept: the plan is a number, and d and the rows stand apart in the public calls: any may be passed, and C passes them so. The private ones take
// d and the rows from them, each once: a struct of the two would be made for one call.

#![tactic(auto)]

mod bound;
mod corners;
mod counting;
mod lower;

ghost use Rattle.std.specs.Prelude.{◌≡◌, ◌^◌, ◌<◌, length};
ghost use Rattle.std.specs.Int.Count.{ones};
ghost use Rattle.rank1.specs.Index.{mirrors, nonzeros};
ghost use Rattle.lists.specs.Rows.{most_axes, on_axes, placed};
ghost use Rattle.lists.specs.Answer.{TallyCall, AddCall, LeastCall, CornerCall, LowerCall};

use rank1::{MOST_AXES, MOST_ROWS, Plan, Refusal, Tally};

// The numbers that a list has at most.
const ROW_ROOM: usize = MOST_ROWS * MOST_AXES;

// The largest number of corners.
const MOST_CORNERS: usize = 32;

// Copies a row behind the first `at` numbers of a run; where it does not fit there, the run stays as it is.
// kept: public, so it stays; the copy itself is the library's.
pub fn copy_row(row: &[i16], run: &mut [i16], at: usize)
    ensures { run.new ≡ placed at row.now run.old }
{
    if at <= run.len() && row.len() <= run.len() - at {
        run[at..at + row.len()].copy_from_slice(row);
    }
}

// The axes on which a row is not 0, as bits; of a row with more than six components the first six count.
pub fn nonzero_mask(row: &[i16]) -> u32
    ensures { (ones result ≡ nonzeros (on_axes row.now)) × (result < 2 ^ most_axes) }
{
    let counted = &row[..row.len().min(MOST_AXES)];
    let mut mask: u32 = 0;
    for (j, x) in counted.iter().enumerate() {
        if *x != 0 {
            mask |= 1 << j;
        }
    }
    mask
}

// How many mirrors a row has: 2 to the number of its non-zero components; of a row with more than six components the first six count.
pub fn mirror_count(row: &[i16]) -> usize
    ensures { result ≡ length (mirrors (on_axes row.now)) }
{
    1 << nonzero_mask(row).count_ones()
}

// The record of a whole list.
#[tactic(auto, unfolding(rank1::specs::Refusal::tally_refusal))]
pub fn tally_list(plan: u8, d: usize, rows: &[i16]) -> Result<Tally, Refusal>
    ensures { TallyCall plan d rows.now result }
{
    let named = Plan::try_from(plan)?;
    refusal::check_list(plan, d, rows)?;
    Ok(counting::count(named, d, rows))
}

// One row more: the record of the longer list. The record that is handed in is held to the list.
#[tactic(auto, unfolding(rank1::specs::Refusal::add_refusal))]
pub fn add_row(
    plan: u8,
    d: usize,
    rows: &[i16],
    tally: Tally,
    row: &[i16],
) -> Result<Tally, Refusal>
    ensures { AddCall plan d rows.now tally row.now result }
{
    let named = Plan::try_from(plan)?;
    refusal::check_longer(plan, d, rows, row)?;
    let counted = counting::count(named, d, rows);
    if tally != counted {
        return Err(Refusal::Length);
    }
    Ok(counting::plus(named, counted, row))
}

// The least modulus worth trying, from the record alone.
#[tactic(auto, unfolding(rank1::specs::Refusal::least_refusal))]
pub fn least_modulus(plan: u8, tally: Tally) -> Result<u16, Refusal>
    ensures { LeastCall plan tally result }
{
    let named = Plan::try_from(plan)?;
    bound::check_tally(tally)?;
    // kept: a bound is at most 64 × 512 + 1; `try_from` would have an `Err` that never comes.
    Ok(bound::least_of(named, tally) as u16)
}

// The list of the corners: fills the front of `out` with its rows. They are made in places of our own, since 13 stands before 8.
pub fn corner_list(d: usize, corners: &[i16], out: &mut [i16]) -> Result<usize, Refusal>
    ensures { CornerCall d corners.now out.old out.new result }
{
    refusal::check_corners(d, corners)?;
    let m = corners.len() / d;
    if m < 1 || MOST_CORNERS < m {
        return Err(Refusal::Corners);
    }
    // kept: places and a count, for the reason at `corners::fill`.
    let mut rows = [0i16; ROW_ROOM];
    let count = corners::fill(d, corners, &mut rows).ok_or(Refusal::Corners)?;
    refusal::check_places(out.len(), MOST_ROWS * d)?;
    out[..count * d].copy_from_slice(&rows[..count * d]);
    Ok(count)
}

// Whether a list is lower: with a row, every row without negative components that is nowhere larger is in too. The list itself may have
// negative components, as under plan 1; with one it is not lower.
#[tactic(auto, unfolding(rank1::specs::Refusal::lower_refusal))]
pub fn is_lower(d: usize, rows: &[i16]) -> Result<bool, Refusal>
    ensures { LowerCall d rows.now result }
{
    refusal::check_list(u8::from(Plan::Fourier), d, rows)?;
    Ok(lower::list_steps(d, rows))
}
