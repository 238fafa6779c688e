// The differences of a list, made once: its members, the table of their differences, the axes whose sign can change, and the
// differences in runs as the sieve reads them.

ghost use Rattle.std.specs.Prelude.{◌≡◌};
ghost use Rattle.planner.specs.Inner.{Covered};
ghost use Rattle.planner.specs.Stage.{Differenced};

use crate::list::Rows;
use crate::products::largest;
use crate::runs::arrange;
use crate::sizes::{AXES, ROOM, SLOTS};
use crate::table::Differences;
use crate::tables::ListTables;

// What the search of a list asks beside its tables: the largest size of a component of a row or of a difference, the largest last
// component of a difference, and whether no difference was turned away.
// kept: `whole` is no sign of whether there is a top or a tail, which are told either way, so an Option does not say it.
#[derive(Clone, Copy)]
pub(crate) struct Listing {
    pub(crate) top: usize,
    pub(crate) tail: usize,
    pub(crate) whole: bool,
}

// What the search of a list is about at every modulus: the list, its tables, and what was told when its differences were set.
// kept: what is known of its tables (`Tabled`) is a clause: it names the differences that were found, of which more than one list can be named, and
// the fact of a ghost field may have one proof at most.
#[derive(Clone, Copy)]
pub(crate) struct Task<'a> {
    pub(crate) rows: Rows<'a>,
    pub(crate) list: &'a ListTables,
    pub(crate) listing: Listing,
}

// Sets the differences of a valid list and the marks of the axes whose sign can change.
pub(crate) fn set_differences(rows: &Rows, list: &mut ListTables) -> Listing
    requires { Covered 0 list.old.components }
    ensures made { Differenced rows.now result list.new.flips list.new.components list.new.bounds }
    ensures only { list.new ≡ record list.old { flips = list.new.flips; components = list.new.components; bounds = list.new.bounds; bounded = list.new.bounded } }
{
    let mut found = Differences {
        d: rows.d,
        rows: [0; ROOM * AXES],
        slots: [None; SLOTS],
        count: 0,
        whole: true,
    };
    found.fill(rows);
    found.set_flips(rows.plan, &mut list.flips);
    let tail = arrange(&found, &mut list.components, &mut list.bounds);
    Listing {
        top: largest(rows.numbers).max(largest(&found.rows)),
        tail,
        whole: found.whole,
    }
}
