// Rows as they stand in runs of numbers: one of them, and where one ends.

ghost use Rattle.std.specs.Prelude.{◌≡◌, MatchOption, ◌+◌, ◌*◌, ◌≤◌, length};
ghost use Rattle.rank1.specs.Axes.{ZeroFrom};
ghost use Rattle.planner.specs.Inner.{row_at};
ghost use Rattle.planner.specs.Table.{LastAxis};

// Row i of a run of rows of d numbers.
// kept: members and differences have such rows, each with more beside them; a struct of the rows alone would be opened in each of their clauses.
pub(crate) fn row_at(rows: &[i16], i: usize, d: usize) -> &[i16]
    requires { (i + 1) * d ≤ length rows.now }
    ensures { (result.now ≡ row_at d rows.now i) × (length result.now ≡ d) }
{
    let from = i * d;
    &rows[from..from + d]
}

// The last axis at which a row is not 0; None where it is 0.
// kept: one name for the library's chain, of which two modules ask the promise.
pub(crate) fn end_of(h: &[i16]) -> Option<usize>
    ensures { MatchOption result (ZeroFrom 0 h.now) (LastAxis h.now) }
{
    h.iter().rposition(|x| *x != 0)
}
