// The table of the differences of a list. First all pairs of all members are gone through. Where there is not room for all members or
// all differences, the table is made anew, axis by axis: first the differences that end at the first axis, then those that end at the
// next, until it is full, since a difference that ends early rules out more vectors than one that ends late. The rows of a pair whose
// difference ends at an axis are the same behind it, so it is enough there to change the signs up to that axis.
// kept: that the table has the d of the rows is a clause, since the rows are lent beside it and no field of its own names them; and that it is empty holds
// only until the first difference comes.

ghost use Rattle.std.specs.Prelude.{◌≡◌, ◌<◌};
ghost use Rattle.planner.specs.Table.{FoundOf};

use crate::list::Rows;
use crate::members::Members;
use crate::table::Differences;

impl Differences {
    // All differences, in the order of the list; nothing where there is not room for all members.
    fn fill_at_once(&mut self, rows: &Rows)
        requires { (self.old.d ≡ rows.now.d) × (self.old.count ≡ 0) }
        ensures { FoundOf rows.now self.new }
    {
        let members = Members::gather(rows, rows.d);
        self.whole = members.whole;
        if members.whole {
            self.pair_all(rows, None, &members);
        }
    }

    // Adds the differences that end at an axis.
    fn fill_axis(&mut self, rows: &Rows, axis: usize)
        requires { (axis < rows.now.d) × FoundOf rows.now self.old }
        ensures { FoundOf rows.now self.new }
    {
        let members = Members::gather(rows, axis + 1);
        self.pair_all(rows, Some(axis), &members);
    }

    // The differences axis by axis; not said to be all.
    fn fill_by_axes(&mut self, rows: &Rows)
        requires { (self.old.d ≡ rows.now.d) × (self.old.count ≡ 0) }
        ensures { FoundOf rows.now self.new }
    {
        self.whole = false;
        for axis in 0..rows.d {
            self.fill_axis(rows, axis);
        }
    }

    // The table of the differences of a valid list: all of them where there is room, which `whole` says, else those that end early.
    pub(crate) fn fill(&mut self, rows: &Rows)
        requires { (self.old.d ≡ rows.now.d) × (self.old.count ≡ 0) }
        ensures { FoundOf rows.now self.new }
    {
        self.fill_at_once(rows);
        if !self.whole {
            self.slots.fill(None);
            self.count = 0;
            self.fill_by_axes(rows);
        }
    }
}
