// Whether a list is lower (document 02, c): it is just where no component is negative and, with a row, each row that has one component
// one lower is in too.
// kept: the row and its list go through three functions, j through two, and each asks that the row has at most six axes, for the six places that it
// is copied to: a struct of them would be made anew for each row, and opened at once.

ghost use Rattle.std.specs.Prelude.{◌≡◌, ◌≤◌, ◌<◌, pos, get_or, length, set};
ghost use Rattle.rank1.specs.Tests.{any, same_row, Decides};
ghost use Rattle.rank1.specs.Index.{index_list};
ghost use Rattle.lists.specs.Rows.{most_axes};
ghost use Rattle.lists.specs.Inner.{down, steps, RowSteps, ListSteps};

use rank1::MOST_AXES;

// Whether the row with component j one lower (down to 0) is one of the list.
fn lowered_stands(row: &[i16], rows: &[i16], j: usize) -> bool
    requires { (j < length row.now) × (length row.now ≤ most_axes) }
    ensures { result ≡ any (same_row (set row.now j (down (get_or row.now j (pos 0))))) (index_list (length row.now) rows.now) }
{
    let mut places = [0i16; MOST_AXES];
    let lowered = &mut places[..row.len()];
    lowered.copy_from_slice(row);
    lowered[j] = row[j].saturating_sub(1).max(0);
    refusal::stands(lowered, rows)
}

// Whether component j of the row allows the list to be lower.
fn component_steps(row: &[i16], rows: &[i16], j: usize) -> bool
    requires { (j < length row.now) × (length row.now ≤ most_axes) }
    ensures { result ≡ steps (index_list (length row.now) rows.now) row.now j (get_or row.now j (pos 0)) }
{
    let x = row[j];
    x == 0 || (0 < x && lowered_stands(row, rows, j))
}

// Whether all its components do. kept: an index: tried over `enumerate`, with the test of `component_steps` in the closure, the proof did not close where
// the answer is no.
fn row_steps(row: &[i16], rows: &[i16]) -> bool
    requires { length row.now ≤ most_axes }
    ensures { Decides result (RowSteps (index_list (length row.now) rows.now) row.now) }
{
    (0..row.len()).all(|j| component_steps(row, rows, j))
}

// Whether all rows of the list do.
pub(crate) fn list_steps(d: usize, rows: &[i16]) -> bool
    requires { (1 ≤ d) × (d ≤ most_axes) }
    ensures { Decides result (ListSteps (index_list d rows.now)) }
{
    rows.chunks_exact(d).all(|row| row_steps(row, rows))
}
