// Signs of rows: a row with another sign, a row that is turned so that it ends above 0, and the axes whose sign change the rule does not
// see: under plan A all of them, else those under which a table that has all differences stays itself.
// kept: that the components of a row are small is a clause: rows come as slices of the members, of the table and of places that are written anew, so that
// a type of small components would be made at each. And that j is an axis of the table is a clause: j comes from one loop, in `set_flips`, and a type for
// it would be made for that call.

ghost use Rattle.std.specs.Prelude.{◌≡◌, true, ◌≤◌, ◌<◌, length};
ghost use Rattle.rank1.specs.Axes.{flip};
ghost use Rattle.rank1.specs.Differences.{negative, Has, Closed};
ghost use Rattle.rank1.specs.Named.{plan_number};
ghost use Rattle.planner.specs.Sizes.{largest_size};
ghost use Rattle.planner.specs.Inner.{Covered};
ghost use Rattle.planner.specs.Table.{rows_found, Storable, Upright, SeesNoSign, MarksRight};

use crate::rows::end_of;
use crate::sizes::AXES;
use crate::table::Differences;
use rank1::Plan;

// Changes the sign of every component.
// kept: the library has no such method of a slice.
fn negate(h: &mut [i16])
    requires { Covered largest_size h.old }
    ensures { h.new ≡ negative h.old }
{
    for x in h.iter_mut() {
        *x = -*x;
    }
}

// Sets h to a row with the other sign at axis j.
pub(crate) fn flip_row(row: &[i16], j: usize, h: &mut [i16])
    requires { (length row.now ≡ length h.old) × Covered largest_size row.now × (j < length h.old) }
    ensures { h.new ≡ flip j row.now }
{
    h.copy_from_slice(row);
    h[j] = -h[j];
}

// Turns a row to its negative where its last component that is not 0 is below 0: so the table keeps its rows.
pub(crate) fn set_upright(h: &mut [i16])
    requires { Covered largest_size h.old }
    ensures { Upright h.old h.new }
{
    if let Some(j) = end_of(h) {
        if h[j] < 0 {
            negate(h);
        }
    }
}

impl Differences {
    // Whether a row with the other sign at axis j, or its negative, stands in the table.
    fn flipped_stands(&self, j: usize, row: &[i16]) -> bool
        requires { Storable self.now.d row.now × (j < self.now.d) }
        ensures { result ≡ true → Has (rows_found self.now) (flip j row.now) }
    {
        let mut places = [0i16; AXES];
        let h = &mut places[..self.d];
        flip_row(row, j, h);
        set_upright(h);
        self.stands(h)
    }

    // Whether the table stays itself when the sign of axis j changes.
    fn closed_under(&self, j: usize) -> bool
        requires { j < self.now.d }
        ensures { result ≡ true → Closed j (rows_found self.now) }
    {
        self.each().all(|row| self.flipped_stands(j, row))
    }

    // Whether the rule of a plan is known not to see the sign of component j.
    fn sees_no_sign(&self, plan: Plan, j: usize) -> bool
        requires { j < self.now.d }
        ensures { result ≡ true → SeesNoSign (plan_number plan) j self.now }
    {
        if plan == Plan::A {
            return true;
        }
        if !self.whole {
            return false;
        }
        self.closed_under(j)
    }

    // Marks the axes whose sign change keeps the rule of every list whose differences the table has.
    pub(crate) fn set_flips(&self, plan: Plan, flips: &mut [bool])
        requires { self.now.d ≤ length flips.old }
        ensures { MarksRight (plan_number plan) self.now flips.new }
    {
        for (j, flip) in flips[..self.d].iter_mut().enumerate() {
            *flip = self.sees_no_sign(plan, j);
        }
    }
}
