// The running tally for programs in C and Rust (document 02, b). The record goes in by value; what is found goes to lent places, one
// for each of its numbers, which keep their content where the call is refused.
// kept: a place for each number, refusals and plans as numbers, and d and the rows apart: the C interface passes them so.

ghost use Rattle.std.specs.Prelude.{◌≡◌};
ghost use Rattle.rank1.specs.Named.{refused};
ghost use Rattle.lists.specs.Answer.{TallyCall, AddCall, LeastCall};
ghost use Rattle.exports.specs.Numbers.{tally_of, places, numbers, place_or, Told, as_it_is};

use crate::tell;
use rank1::{Refusal, Tally};

// The record as it is handed in: `zero` is 0 for no, and any other number for yes.
// kept: apart from Tally: from C zero is any byte, which a bool may not be.
#[repr(C)]
#[derive(Clone, Copy)]
pub struct PlannerTally {
    pub m: u32,
    pub size: u32,
    pub zero: u8,
}

// The record that the numbers stand for.
impl From<PlannerTally> for Tally {
    ghost from_gives = { λ given tally. tally ≡ tally_of given };

    fn from(given: PlannerTally) -> Tally {
        Tally {
            m: given.m,
            size: given.size,
            zero: given.zero != 0,
        }
    }
}

// Tells what counting answers: the number of its refusal, 0 for none; the numbers of the record go to the places. C lends a place for each.
fn tell_tally(answer: Result<Tally, Refusal>, m: &mut u32, size: &mut u32, zero: &mut u8) -> u8
    ensures number { result ≡ refused answer }
    ensures places { places m.new size.new zero.new ≡ place_or numbers (places m.old size.old zero.old) answer }
{
    tell(answer.map(|tally| tally.m), m);
    tell(answer.map(|tally| tally.size), size);
    tell(answer.map(|tally| u8::from(tally.zero)), zero)
}

// The record of a whole list: its numbers then stand in `m`, `size` and `zero` (1 where the zero row is in, else 0).
pub fn planner_tally_list(
    plan: u8,
    d: usize,
    rows: &[i16],
    m: &mut u32,
    size: &mut u32,
    zero: &mut u8,
) -> u8
    ensures { Told numbers (TallyCall plan d rows.now) (places m.old size.old zero.old) (places m.new size.new zero.new) result }
{
    tell_tally(lists::tally_list(plan, d, rows), m, size, zero)
}

// One row more: the numbers of the longer list's record then stand in `m`, `size` and `zero`.
pub fn planner_add_row(
    plan: u8,
    d: usize,
    rows: &[i16],
    tally: PlannerTally,
    row: &[i16],
    m: &mut u32,
    size: &mut u32,
    zero: &mut u8,
) -> u8
    ensures { Told numbers (AddCall plan d rows.now (tally_of tally) row.now) (places m.old size.old zero.old) (places m.new size.new zero.new) result }
{
    tell_tally(
        lists::add_row(plan, d, rows, Tally::from(tally), row),
        m,
        size,
        zero,
    )
}

// The least modulus worth trying: it then stands in `found`.
pub fn planner_least_modulus(plan: u8, tally: PlannerTally, found: &mut u16) -> u8
    ensures { Told as_it_is (LeastCall plan (tally_of tally)) found.old found.new result }
{
    tell(lists::least_modulus(plan, Tally::from(tally)), found)
}
