// The planner's calls in the form that C and Rust link (include/planner.h has them for C; crate exports_c, whose exports call these, gives
// them their symbols). Every call but planner_gentler, which refuses nothing, returns the number of the refusal, 0 for none. What a call
// finds beside that, yes or no or the modulus, goes to a lent place, which keeps its content where the call is refused. The calls about
// lists alone stand in tally.rt and corners.rt.
// kept: refusals and plans are numbers here, and what belongs together stands apart, since the C interface passes them so; and each call stands
// here for Rattle and in exports_c with its symbol, since a crate is a library or a static library.

#![tactic(auto)]

mod corners;
mod tally;

ghost use Rattle.std.specs.Prelude.{◌≡◌};
ghost use Rattle.rank1.specs.Named.{refused};
ghost use Rattle.planner.specs.Answer.{CheckCall, ResidueMapCall, SpreadCall, GatherCall, PointListCall, VectorSearch, SmallestSearch};
ghost use Rattle.exports.specs.Numbers.{place_or, Told, as_it_is, yes_or_no, WinnerTold};

pub use corners::{planner_corner_list, planner_is_lower};
use rank1::{Refusal, number_of};
pub use tally::{PlannerTally, planner_add_row, planner_least_modulus, planner_tally_list};

// Tells what a call answers: the number of its refusal, 0 for none; what it found goes to the lent place.
pub(crate) fn tell<T: Copy>(answer: Result<T, Refusal>, place: &mut T) -> u8
    ensures number { result ≡ refused answer }
    ensures place { place.new ≡ place_or (λ x. x) place.old answer }
{
    let Ok(found) = answer else {
        return number_of(&answer);
    };
    *place = found;
    0
}

// Whether the pair n, z meets the rule of the plan for the rows: `yes` then holds 1 or 0.
pub fn planner_check(plan: u8, d: usize, rows: &[i16], n: u16, z: &[u16], yes: &mut u8) -> u8
    ensures { Told yes_or_no (CheckCall plan d rows.now n z.now) yes.old yes.new result }
{
    tell(planner::check(plan, d, rows, n, z).map(u8::from), yes)
}

// The map: for each row its residue and c.
pub fn planner_residue_map(
    plan: u8,
    d: usize,
    rows: &[i16],
    n: u16,
    z: &[u16],
    out: &mut [u16],
) -> u8
    ensures { ResidueMapCall plan d rows.now n z.now out.old out.new result }
{
    number_of(&planner::residue_map(plan, d, rows, n, z, out))
}

// Spreading: the sum at each residue.
pub fn planner_spread(
    plan: u8,
    d: usize,
    rows: &[i16],
    n: u16,
    z: &[u16],
    terms: &[i32],
    sums: &mut [i64],
) -> u8
    ensures { SpreadCall plan d rows.now n z.now terms.now sums.old sums.new result }
{
    number_of(&planner::spread(plan, d, rows, n, z, terms, sums))
}

// Gathering: each row's term from the sum at its residue.
pub fn planner_gather(
    plan: u8,
    d: usize,
    rows: &[i16],
    n: u16,
    z: &[u16],
    sums: &[i64],
    terms: &mut [i32],
) -> u8
    ensures { GatherCall plan d rows.now n z.now sums.now terms.old terms.new result }
{
    number_of(&planner::gather(plan, d, rows, n, z, sums, terms))
}

// The point list: `line_count` lines of d numbers, one for each lens.
pub fn planner_point_list(plan: u8, d: usize, n: u16, z: &[u16], out: &mut [u16]) -> u8
    ensures { PointListCall plan d n z.now out.old out.new result }
{
    number_of(&planner::point_list(plan, d, n, z, out))
}

// The gentlest admissible vector at n: it then stands in z, and n in `found`.
pub fn planner_search_vector(
    plan: u8,
    d: usize,
    rows: &[i16],
    n: u16,
    z: &mut [u16],
    found: &mut u16,
) -> u8
    ensures { Told as_it_is (VectorSearch plan d rows.now n z.old z.new) found.old found.new result }
{
    tell(planner::search_vector(plan, d, rows, n, z), found)
}

// The smallest plan up to the ceiling: its vector then stands in z, and its modulus in `found`.
pub fn planner_search_smallest(
    plan: u8,
    d: usize,
    rows: &[i16],
    ceiling: u16,
    z: &mut [u16],
    found: &mut u16,
) -> u8
    ensures { Told as_it_is (SmallestSearch plan d rows.now ceiling z.old z.new) found.old found.new result }
{
    tell(planner::search_smallest(plan, d, rows, ceiling, z), found)
}

// The gentler of two vectors: 0 where the left one wins, 1 where the right one does. A slice cannot be handed back to C.
pub fn planner_gentler(left: &[u16], right: &[u16]) -> u8
    ensures { WinnerTold left.now right.now result }
{
    u8::from(!planner::left_wins(left, right))
}
