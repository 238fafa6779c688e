// The planner's calls for programs in C and Rust to link: each export is the call of crate `exports` of the same name, with its promise, and
// include/planner.h says what it is in C. A slice is passed as a pointer and its length.
// kept: refusals and plans are numbers, and what belongs together stands apart, since the C interface passes them so; each function has its twin in
// `exports`, since a crate is a library or a static library.
#![tactic(auto)]

ghost use Rattle.lists.specs.Answer.{CornerCall, LowerCall, TallyCall, AddCall, LeastCall};
ghost use Rattle.planner.specs.Answer.{CheckCall, ResidueMapCall, SpreadCall, GatherCall, PointListCall, VectorSearch, SmallestSearch};
ghost use Rattle.exports.specs.Numbers.{Told, as_it_is, yes_or_no, tally_of, places, numbers, WinnerTold};

use exports::PlannerTally;

// Whether the pair n, z meets the rule of the plan for the rows: `yes` then holds 1 or 0.
#[unsafe(no_mangle)]
pub extern "C" fn planner_check(
    plan: u8,
    d: usize,
    rows: &[i16],
    n: u16,
    z: &[u16],
    yes: &mut u8,
) -> u8
    ensures { Told yes_or_no (CheckCall plan d rows.now n z.now) yes.old yes.new result }
{
    exports::planner_check(plan, d, rows, n, z, yes)
}

// The map: for each row its residue and c.
#[unsafe(no_mangle)]
pub extern "C" fn planner_residue_map(
    plan: u8,
    d: usize,
    rows: &[i16],
    n: u16,
    z: &[u16],
    out: &mut [u16],
) -> u8
    ensures { ResidueMapCall plan d rows.now n z.now out.old out.new result }
{
    exports::planner_residue_map(plan, d, rows, n, z, out)
}

// Spreading: the sum at each residue.
#[unsafe(no_mangle)]
pub extern "C" fn planner_spread(
    plan: u8,
    d: usize,
    rows: &[i16],
    n: u16,
    z: &[u16],
    terms: &[i32],
    sums: &mut [i64],
) -> u8
    ensures { SpreadCall plan d rows.now n z.now terms.now sums.old sums.new result }
{
    exports::planner_spread(plan, d, rows, n, z, terms, sums)
}

// Gathering: each row's term from the sum at its residue.
#[unsafe(no_mangle)]
pub extern "C" fn planner_gather(
    plan: u8,
    d: usize,
    rows: &[i16],
    n: u16,
    z: &[u16],
    sums: &[i64],
    terms: &mut [i32],
) -> u8
    ensures { GatherCall plan d rows.now n z.now sums.now terms.old terms.new result }
{
    exports::planner_gather(plan, d, rows, n, z, sums, terms)
}

// The point list: `line_count` lines of d numbers, one for each lens.
#[unsafe(no_mangle)]
pub extern "C" fn planner_point_list(plan: u8, d: usize, n: u16, z: &[u16], out: &mut [u16]) -> u8
    ensures { PointListCall plan d n z.now out.old out.new result }
{
    exports::planner_point_list(plan, d, n, z, out)
}

// The gentlest admissible vector at n: it then stands in z, and n in `found`.
#[unsafe(no_mangle)]
pub extern "C" fn planner_search_vector(
    plan: u8,
    d: usize,
    rows: &[i16],
    n: u16,
    z: &mut [u16],
    found: &mut u16,
) -> u8
    ensures { Told as_it_is (VectorSearch plan d rows.now n z.old z.new) found.old found.new result }
{
    exports::planner_search_vector(plan, d, rows, n, z, found)
}

// The smallest plan up to the ceiling: its vector then stands in z, and its modulus in `found`.
#[unsafe(no_mangle)]
pub extern "C" fn planner_search_smallest(
    plan: u8,
    d: usize,
    rows: &[i16],
    ceiling: u16,
    z: &mut [u16],
    found: &mut u16,
) -> u8
    ensures { Told as_it_is (SmallestSearch plan d rows.now ceiling z.old z.new) found.old found.new result }
{
    exports::planner_search_smallest(plan, d, rows, ceiling, z, found)
}

// The gentler of two vectors: 0 where the left one wins, 1 where the right one does. A slice cannot be handed back to C.
#[unsafe(no_mangle)]
pub extern "C" fn planner_gentler(left: &[u16], right: &[u16]) -> u8
    ensures { WinnerTold left.now right.now result }
{
    exports::planner_gentler(left, right)
}

// The record of a whole list: its numbers then stand in `m`, `size` and `zero` (1 where the zero row is in, else 0).
#[unsafe(no_mangle)]
pub extern "C" fn planner_tally_list(
    plan: u8,
    d: usize,
    rows: &[i16],
    m: &mut u32,
    size: &mut u32,
    zero: &mut u8,
) -> u8
    ensures { Told numbers (TallyCall plan d rows.now) (places m.old size.old zero.old) (places m.new size.new zero.new) result }
{
    exports::planner_tally_list(plan, d, rows, m, size, zero)
}

// One row more: the numbers of the longer list's record then stand in `m`, `size` and `zero`.
#[unsafe(no_mangle)]
pub extern "C" fn planner_add_row(
    plan: u8,
    d: usize,
    rows: &[i16],
    tally: PlannerTally,
    row: &[i16],
    m: &mut u32,
    size: &mut u32,
    zero: &mut u8,
) -> u8
    ensures { Told numbers (AddCall plan d rows.now (tally_of tally) row.now) (places m.old size.old zero.old) (places m.new size.new zero.new) result }
{
    exports::planner_add_row(plan, d, rows, tally, row, m, size, zero)
}

// The least modulus worth trying: it then stands in `found`.
#[unsafe(no_mangle)]
pub extern "C" fn planner_least_modulus(plan: u8, tally: PlannerTally, found: &mut u16) -> u8
    ensures { Told as_it_is (LeastCall plan (tally_of tally)) found.old found.new result }
{
    exports::planner_least_modulus(plan, tally, found)
}

// The list of the corners: its rows then stand at the front of `out`, and their number in `count`.
#[unsafe(no_mangle)]
pub extern "C" fn planner_corner_list(
    d: usize,
    corners: &[i16],
    out: &mut [i16],
    count: &mut usize,
) -> u8
    ensures { Told as_it_is (CornerCall d corners.now out.old out.new) count.old count.new result }
{
    exports::planner_corner_list(d, corners, out, count)
}

// Whether the list is lower: `yes` then holds 1 or 0.
#[unsafe(no_mangle)]
pub extern "C" fn planner_is_lower(d: usize, rows: &[i16], yes: &mut u8) -> u8
    ensures { Told yes_or_no (LowerCall d rows.now) yes.old yes.new result }
{
    exports::planner_is_lower(d, rows, yes)
}
