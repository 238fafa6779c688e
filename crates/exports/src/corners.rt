// Lists given by corners for programs in C and Rust (document 02, c). How many rows there are, and yes or no, go to lent places, which
// keep their content where the call is refused.
// kept: refusals as numbers, d and the rows apart: the C interface passes them so.

ghost use Rattle.lists.specs.Answer.{CornerCall, LowerCall};
ghost use Rattle.exports.specs.Numbers.{Told, as_it_is, yes_or_no};

use crate::tell;

// The list of the corners: its rows then stand at the front of `out`, and their number in `count`.
pub fn planner_corner_list(d: usize, corners: &[i16], out: &mut [i16], count: &mut usize) -> u8
    ensures { Told as_it_is (CornerCall d corners.now out.old out.new) count.old count.new result }
{
    tell(lists::corner_list(d, corners, out), count)
}

// Whether the list is lower: `yes` then holds 1 or 0.
pub fn planner_is_lower(d: usize, rows: &[i16], yes: &mut u8) -> u8
    ensures { Told yes_or_no (LowerCall d rows.now) yes.old yes.new result }
{
    tell(lists::is_lower(d, rows).map(u8::from), yes)
}
