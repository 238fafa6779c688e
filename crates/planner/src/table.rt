// The table of differences, each once: a row is found by an open-addressing hash. That no row stands twice is a matter of speed
// alone, so no contract says it; what is said is which rows the table has.

ghost use Rattle.std.specs.Prelude.{◌≡◌, Some, None, true, ℕ, ◌*◌, ◌≤◌, ◌<◌, get_or, take};
ghost use Rattle.std.specs.Slice.Iter.{chunks_exact_rest, chunks_exact_size};
ghost use mathlib.Core.List.{Memᴰ};
ghost use Rattle.planner.specs.Sizes.{axes, room, largest_size, slot_count};
ghost use Rattle.planner.specs.Inner.{Covered};

use crate::products::place_of;
use crate::rows::row_at;
use crate::sizes::{AXES, ROOM, SLOTS};
use std::slice::ChunksExact;

// The differences that were found: `count` rows of d numbers each, one behind the other, and whether none was turned away or passed
// over. A slot has the number of a row, or none. There is room for all rows, no slot has the number of a row that is not there, and the
// components have places in the product tables.
// kept: a hash of our own, and a count beside the rows: the library's maps, sets and `Vec` ask for the heap, and the kit's arrayvec would be one more
// library that the gate takes as built (docs/DECISIONS.md, "No heap").
// kept: that a row can stand in the table (`Storable`) is a clause: h is written anew for each pair or flip in its caller's places, so a struct
// around it would be made for one call.
// kept: `whole` is no sign of whether there are differences: those that have room are searched with either way, so an Option does not say it.
#[derive(Drop)]
pub(crate) struct Differences {
    pub(crate) d: usize,
    pub(crate) rows: [i16; ROOM * AXES],
    pub(crate) slots: [Option<u16>; SLOTS],
    pub(crate) count: usize,
    pub(crate) whole: bool,
    ghost some_axes: { 1 ≤ d },
    ghost few_axes: { d ≤ axes },
    ghost few: { count ≤ room },
    ghost known: { (p i : ℕ) → get_or slots p None ≡ Some i → i < count },
    ghost small: { Covered largest_size rows },
}

// The slot at which the search for a row starts.
fn hash(h: &[i16]) -> usize
    requires { Covered largest_size h.now }
    ensures { result < slot_count }
{
    let mut x: usize = 0;
    for y in h {
        x = (x * 1031 + place_of(*y)) % SLOTS;
    }
    x
}

impl Differences {
    ghost use Rattle.planner.specs.Table.{rows_found, Storable, Probed, Added};

    // The rows that were found, one by one.
    pub(crate) fn each(&self) -> ChunksExact<'_, i16>
        ensures rest { chunks_exact_rest result ≡ take (self.now.count * self.now.d) self.now.rows }
        ensures size { chunks_exact_size result ≡ self.now.d }
    {
        self.rows[..self.count * self.d].chunks_exact(self.d)
    }

    // Whether the slot p is empty or has the row h.
    fn takes(&self, p: usize, h: &[i16]) -> bool
        requires storable { Storable self.now.d h.now }
        requires within { p < slot_count }
        ensures { result ≡ true → Probed h.now self.now (Some p) }
    {
        match self.slots[p] {
            None => true,
            Some(i) => row_at(&self.rows, usize::from(i), self.d) == h,
        }
    }

    // The first slot from the hash on that is empty or has the row h, if there is one.
    fn probe(&self, h: &[i16]) -> Option<usize>
        requires { Storable self.now.d h.now }
        ensures { Probed h.now self.now result }
    {
        let from = hash(h);
        (from..SLOTS).chain(0..from).find(|p| self.takes(*p, h))
    }

    // Adds a row unless it stands there; where there is no room for it, the table is not whole.
    pub(crate) fn add(&mut self, h: &[i16])
        requires { Storable self.old.d h.now }
        ensures { Added h.now self.old self.new }
    {
        let Some(p) = self.probe(h) else {
            self.whole = false;
            return;
        };
        if self.slots[p].is_some() {
            return;
        }
        if self.count == ROOM {
            self.whole = false;
            return;
        }
        let at = self.count * self.d;
        self.rows[at..at + self.d].copy_from_slice(h);
        // kept: there is room for fewer rows than u16 has numbers, so that `try_from` would have an `Err` that never comes; and the count is
        // the struct's own, and no loop's counter.
        self.slots[p] = Some(self.count as u16);
        self.count += 1;
    }

    // Whether a row stands in the table.
    pub(crate) fn stands(&self, h: &[i16]) -> bool
        requires { Storable self.now.d h.now }
        ensures { result ≡ true → Memᴰ h.now (rows_found self.now) }
    {
        self.probe(h).is_some_and(|p| self.slots[p].is_some())
    }
}
