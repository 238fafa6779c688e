// The levels of a list: for each axis the rows that are 0 from it on. Their residues hang on the components before that axis alone, so
// the search tests the rule on a level before it goes deeper.

ghost use Rattle.std.specs.Prelude.{◌≡◌, ◌≤◌, length, get_or};
ghost use Rattle.planner.specs.Sizes.{axes, level_room};
ghost use Rattle.planner.specs.Inner.{Covered};
ghost use Rattle.planner.specs.Levels.{zero_from, level_run, Kept, Levels};

use crate::list::Rows;
use crate::sizes::LEVEL_ROOM;
use crate::tables::ListTables;

// Whether a row is 0 from axis j on.
// kept: one name for the library's chain, so that it is proved once that it is the definition's test.
fn ends_by(row: &[i16], j: usize) -> bool
    ensures { result ≡ zero_from j row.now }
{
    row.iter().skip(j).all(|x| *x == 0)
}

// Copies a row to as many places.
// kept: number by number: of a `copy_from_slice` here the compiler makes a call of `memmove`, which the archive for C would need from outside
// beside `memcpy` and `memset`.
fn copy(row: &[i16], places: &mut [i16])
    requires { length row.now ≡ length places.old }
    ensures { places.new ≡ row.now }
{
    for j in 0..places.len() {
        places[j] = row[j];
    }
}

// Writes the rows that are 0 from axis j on to the front of out, in their order, and returns how many numbers they are.
fn keep_ending(rows: &Rows, j: usize, out: &mut [i16]) -> usize
    requires { length rows.now.numbers.now ≤ length out.old }
    ensures { Kept rows.now.d j rows.now.numbers.now out.old out.new result }
{
    let mut at = 0;
    for row in rows.each().filter(|row| ends_by(row, j)) {
        copy(row, &mut out[at..at + row.len()]);
        // kept: at is where the next row goes and, behind the last, how many numbers they are: an `enumerate` behind the `filter` would tell the first and
        // leave the second to be counted.
        at += row.len();
    }
    at
}

// The levels of a list, no component larger than top.
pub(crate) fn set_levels(rows: &Rows, top: usize, list: &mut ListTables)
    requires covered { Covered top rows.now.numbers.now }
    requires level_places { Covered top list.old.levels }
    ensures made { Levels rows.now.d top rows.now.numbers.now list.new.levels list.new.sizes }
    ensures only { list.new ≡ record list.old { levels = list.new.levels; sizes = list.new.sizes } }
{
    // kept: j is an axis, whose rows and whose size stand in two arrays; a proof knows no element that is written through `chunks_exact_mut`.
    for j in 0..rows.d + 1 {
        let a = j * LEVEL_ROOM;
        let e = a + LEVEL_ROOM;
        list.sizes[j] = keep_ending(rows, j, &mut list.levels[a..e]);
    }
}

// The rows of a level.
pub(crate) fn level_at(j: usize, list: &ListTables) -> &[i16]
    requires { (j ≤ axes) × (get_or list.now.sizes j 0 ≤ level_room) }
    ensures { result.now ≡ level_run list.now.levels list.now.sizes j }
{
    let a = j * LEVEL_ROOM;
    let e = a + list.sizes[j];
    &list.levels[a..e]
}
