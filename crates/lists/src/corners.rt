// The rows from zero up to some corner, in dictionary order (document 02, c). From a row the next one is found by raising the last
// component that can be raised and making those behind it 0, so no more rows are made than the list has, and none past the 512th.

ghost use Rattle.std.specs.Prelude.{◌≡◌, ◌<◌, length};
ghost use Rattle.rank1.specs.Index.{index_list};
ghost use Rattle.rank1.specs.Corners.{from_zero, under, under_some};
ghost use Rattle.lists.specs.Inner.{ValidCorners, Raisable, Stepped, Filled};

use crate::ROW_ROOM;
use rank1::{MOST_AXES, MOST_ROWS};

// Whether x is from 0 up to y.
fn from_zero(x: i16, y: i16) -> bool
    ensures { result ≡ from_zero x y }
{
    0 <= x && x <= y
}

// Whether the row is up to the corner, component by component.
fn under(row: &[i16], corner: &[i16]) -> bool
    ensures { result ≡ under row.now corner.now }
{
    row.len() == corner.len() && row.iter().zip(corner).all(|(x, y)| from_zero(*x, *y))
}

// Whether the row is up to one of the corners.
fn under_some(row: &[i16], corners: &[i16]) -> bool
    requires { 0 < length row.now }
    ensures { result ≡ under_some (index_list (length row.now) corners.now) row.now }
{
    corners
        .chunks_exact(row.len())
        .any(|corner| under(row, corner))
}

// The next row up to some of the corners: the last component that can be raised is, and those behind it become 0. Says whether there
// is one. kept: a bool, since the row is raised where it stands; an Option would hand the same row over beside it.
fn next(corners: &[i16], row: &mut [i16]) -> bool
    requires { Raisable corners.now row.old }
    ensures { Stepped (index_list (length row.old) corners.now) row.old row.new result }
{
    // kept: each turn writes one component and then tests the whole row, which no iterator over the components leaves free.
    for j in (0..row.len()).rev() {
        row[j] += 1;
        if under_some(row, corners) {
            return true;
        }
        row[j] = 0;
    }
    false
}

// Writes the rows up to some of the corners, in order, and answers how many they are; or that there are more than 512.
// kept: a row is told its place, `i * d`: a proof knows no element that is written through `chunks_exact_mut`. The places are lent and the count is
// the answer: a `Vec` asks for the heap, and the kit's arrayvec would be one more library that the gate takes as built
// (docs/DECISIONS.md, "No heap").
pub(crate) fn fill(d: usize, corners: &[i16], rows: &mut [i16; ROW_ROOM]) -> Option<usize>
    requires { ValidCorners d corners.now }
    ensures { Filled d (index_list d corners.now) rows.new result }
{
    let mut row = [0i16; MOST_AXES];
    for i in 0..MOST_ROWS {
        rows[i * d..(i + 1) * d].copy_from_slice(&row[..d]);
        if !next(corners, &mut row[..d]) {
            return Some(i + 1);
        }
    }
    None
}
