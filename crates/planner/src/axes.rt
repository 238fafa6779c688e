// The pairs of axes that can change places: the list stays itself where two of its axes do.

ghost use Rattle.std.specs.Prelude.{◌≡◌, true, false, ℕ, ◌<◌, length, get_or};
ghost use mathlib.Core.List.{Memᴰ};
ghost use Rattle.rank1.specs.Axes.{swap, Interchangeable};
ghost use Rattle.planner.specs.Lists.{rows_in};
ghost use Rattle.planner.specs.Exchange.{Swaps};

use crate::list::Rows;
use crate::sizes::AXES;

// Two axes that change places.
#[derive(Clone, Copy)]
struct Exchange {
    i: usize,
    j: usize,
}

impl Exchange {
    // Whether a row, with its components at the two axes exchanged, is one of the rows.
    fn makes_listed(self, rows: &Rows, row: &[i16]) -> bool
        requires row_len { length row.now ≡ rows.now.d }
        requires i_lt_d { (self.i < rows.now.d) × (self.j < rows.now.d) }
        ensures { result ≡ true → Memᴰ (swap self.i self.j row.now) (rows_in rows.now) }
    {
        let mut places = [0i16; AXES];
        let swapped = &mut places[..row.len()];
        swapped.copy_from_slice(row);
        swapped.swap(self.i, self.j);
        refusal::stands(swapped, rows.numbers)
    }

    // Whether the list stays itself.
    fn keeps(self, rows: &Rows) -> bool
        requires { (self.i < rows.now.d) × (self.j < rows.now.d) }
        ensures { result ≡ true → Interchangeable self.i self.j (rows_in rows.now) }
    {
        rows.each().all(|row| self.makes_listed(rows, row))
    }
}

// Marks the axes before j with which axis j can change places.
fn set_swaps_of(rows: &Rows, j: usize, swaps: &mut [bool; AXES * AXES])
    requires { (j < rows.now.d) × Swaps rows.now.d (rows_in rows.now) swaps.old }
    ensures { Swaps rows.now.d (rows_in rows.now) swaps.new }
{
    // kept: i is an axis that is asked about, and the mark of the pair has its place by both axes; no slice is passed over.
    for i in 0..j {
        swaps[i * AXES + j] = Exchange { i, j }.keeps(rows);
    }
}

// Marks the pairs of axes that can change places.
pub(crate) fn set_swaps(rows: &Rows, swaps: &mut [bool; AXES * AXES])
    requires { (i : ℕ) → get_or swaps.old i false ≡ false }
    ensures { Swaps rows.now.d (rows_in rows.now) swaps.new }
{
    for j in 1..rows.d {
        set_swaps_of(rows, j, swaps);
    }
}
