// The list that a call is about, once its plan has a name and none of the conditions 2 to 5 refuses it.

ghost use Rattle.std.specs.Prelude.{◌≡◌};
ghost use Rattle.std.specs.Slice.Iter.{chunks_exact_rest, chunks_exact_size};
ghost use Rattle.rank1.specs.Index.{row_count};
ghost use Rattle.rank1.specs.Named.{plan_number};
ghost use Rattle.rank1.specs.Valid.{ValidList};
ghost use Rattle.planner.specs.ValidOnce.{ValidList-prop};

use rank1::Plan;
use std::slice::ChunksExact;

// The rows of a valid list, of d components each, one behind the other, and the plan that is to keep them apart.
#[derive(Clone, Copy)]
pub(crate) struct Rows<'a> {
    pub(crate) plan: Plan,
    pub(crate) d: usize,
    pub(crate) numbers: &'a [i16],
    ghost valid: { ValidList (plan_number plan) d numbers.now } by { ValidList-prop (plan_number plan) d numbers.now },
}

impl<'a> Rows<'a> {
    // How many rows there are.
    pub(crate) fn count(&self) -> usize
        ensures { result ≡ row_count self.now.d self.now.numbers.now }
    {
        self.numbers.len() / self.d
    }

    // The rows, one by one.
    pub(crate) fn each(&self) -> ChunksExact<'a, i16>
        ensures rest { chunks_exact_rest result ≡ self.now.numbers.now }
        ensures size { chunks_exact_size result ≡ self.now.d }
    {
        self.numbers.chunks_exact(self.d)
    }
}
