// The members that pairs of rows are made of: for plans A, B and C all mirrors of each row, for the other two the row alone. A row's
// mirrors are made by doubling: axis by axis, where the row is not 0, what stands there of them is copied behind it with the other
// sign. Signs are changed on the first `span` axes: on fewer than all, or where there is no room for all mirrors, those that are made
// stay: what they tell is true, but not all that there is to tell.
// kept: the axis, the number from which a row's members stand and their owner go one by one: the axis is another at each call, and a struct of the
// other two would be opened in each clause. And that a row, or d, is at most six is a clause (in mirrors.rt and runs.rt too): rows come as slices of
// the list, of the members and of the table, so that a type of short rows would be made at each.

ghost use Rattle.std.specs.Prelude.{[], ◌+◌, ◌-◌, ◌≤◌, ◌<◌, length, get_or};
ghost use Rattle.rank1.specs.Axes.{flip};
ghost use Rattle.rank1.specs.Index.{rows_of};
ghost use Rattle.rank1.specs.Named.{plan_number};
ghost use Rattle.planner.specs.Sizes.{axes, most_members};
ghost use Rattle.planner.specs.Lists.{rows_in};

use crate::flips::flip_row;
use crate::list::Rows;
use crate::mirrors::takes_mirrors;
use crate::rows::row_at;
use crate::sizes::{AXES, MOST_MEMBERS};
use rank1::Plan;

// The members that are made: `count` rows, one behind the other, beside each the number of the row of the list that it belongs to, its
// owner; and whether these are all members. There are no more than there is room for.
// kept: the rows and their owners stand in runs of their own: pairs are made of these rows as of the list's, which are one run of numbers; and a count
// says how many there are: a `Vec` asks for the heap, and the kit's arrayvec would be one more library that the gate takes as built
// (docs/DECISIONS.md, "No heap").
// kept: `whole` is no sign of whether there are members: those that have room are paired either way, so an Option does not say it.
#[derive(Drop)]
pub(crate) struct Members {
    pub(crate) rows: [i16; MOST_MEMBERS * AXES],
    pub(crate) owners: [u16; MOST_MEMBERS],
    pub(crate) count: usize,
    pub(crate) whole: bool,
    ghost few: { count ≤ most_members },
}

impl Members {
    ghost use Rattle.planner.specs.Members.{SmallRow, Pushed, Gathering, MembersStay, Doubles, Doubled, Mirroring, RowMembers};

    // Adds a row behind the others, with its owner beside it.
    fn push(&mut self, row: &[i16], owner: u16)
        requires { (length row.now ≤ axes) × (self.old.count < most_members) }
        ensures { Pushed (length row.now) row.now owner self.old self.new }
    {
        let at = self.count * row.len();
        self.rows[at..at + row.len()].copy_from_slice(row);
        self.owners[self.count] = owner;
        // kept: this is the struct's own count of its members, and no loop's counter.
        self.count += 1;
    }

    // Adds member i with the other sign at the axis.
    fn push_flipped(&mut self, d: usize, i: usize, axis: usize, owner: u16)
        requires within { (d ≤ axes) × (axis < d) × (i < self.old.count) × (self.old.count < most_members) }
        requires small_row { SmallRow (get_or (rows_of d self.old.count self.old.rows) i []) }
        ensures { Pushed d (flip axis (get_or (rows_of d self.old.count self.old.rows) i [])) owner self.old self.new }
    {
        let mut places = [0i16; AXES];
        let mirror = &mut places[..d];
        flip_row(row_at(&self.rows, i, d), axis, mirror);
        self.push(mirror, owner);
    }

    // The members from number `from` on once more behind them, with the other sign at the axis.
    fn double(&mut self, d: usize, from: usize, axis: usize, owner: u16)
        requires { Doubles d from axis self.old }
        ensures { Doubled d from (self.old.count - from) axis owner self.old self.new }
    {
        // kept: the member that is read and the one that is written stand in one table, so that none can be lent while it grows.
        for i in from..self.count {
            self.push_flipped(d, i, axis, owner);
        }
    }

    // The mirrors of a row at one axis more, where there is room for them.
    fn add_axis(&mut self, row: &[i16], axis: usize, from: usize, owner: u16)
        requires { (axis < length row.now) × Mirroring (length row.now) axis from owner row.now self.old }
        ensures mirroring { Mirroring (length row.now) (axis + 1) from owner row.now self.new }
        ensures members_stay { MembersStay (length row.now) from self.old self.new }
    {
        if row[axis] == 0 {
            return;
        }
        if MOST_MEMBERS < self.count + (self.count - from) {
            self.whole = false;
            return;
        }
        self.double(row.len(), from, axis, owner);
    }

    // The mirrors of a row, which stands as the last member, by the signs of the first `span` axes.
    fn add_signs(&mut self, row: &[i16], span: usize, from: usize, owner: u16)
        requires { (span ≤ length row.now) × Mirroring (length row.now) 0 from owner row.now self.old }
        ensures mirroring { Mirroring (length row.now) (length row.now) from owner row.now self.new }
        ensures members_stay { MembersStay (length row.now) from self.old self.new }
    {
        for axis in 0..span {
            self.add_axis(row, axis, from, owner);
        }
        if span < row.len() {
            self.whole = false;
        }
    }

    // The members of a row, behind those that are there; the number of the row is their owner.
    fn add_mirrors(&mut self, plan: Plan, row: &[i16], span: usize, owner: u16)
        requires { (length row.now ≤ axes) × SmallRow row.now × (span ≤ length row.now) }
        ensures { MembersStay (length row.now) self.old.count self.old self.new × RowMembers (plan_number plan) (length row.now) self.old.count owner row.now self.new }
    {
        let from = self.count;
        if from == MOST_MEMBERS {
            self.whole = false;
            return;
        }
        self.push(row, owner);
        if takes_mirrors(plan) {
            self.add_signs(row, span, from, owner);
        }
    }

    // The members of a valid list, by the signs of the first `span` axes.
    pub(crate) fn gather(rows: &Rows, span: usize) -> Members
        requires { span ≤ rows.now.d }
        ensures { Gathering (plan_number rows.now.plan) rows.now.d (rows_in rows.now) result }
    {
        let mut members = Members {
            rows: [0; MOST_MEMBERS * AXES],
            owners: [0; MOST_MEMBERS],
            count: 0,
            whole: true,
        };
        for (i, row) in rows.each().enumerate() {
            // kept: a list has at most 512 rows; `try_from` would have an `Err` that never comes.
            members.add_mirrors(rows.plan, row, span, i as u16);
        }
        members
    }
}
