// A rank-1 lattice as the calls on a list read it, with the rows of the list, and the residue of a row at it.

ghost use Rattle.std.specs.Prelude.{◌≡◌, ◌<◌};
ghost use Rattle.planner.specs.Inner.{Ready};
ghost use Rattle.planner.specs.ValidOnce.{Ready-prop};

use crate::list::Rows;
use crate::products::{place_of, prepare_rows};
use crate::sizes::{PLACES, PRODUCT_ROOM};

// The rows, the modulus, the vector, and the products of its components. The vector may be shorter than the rows: they then are 0 from
// its length on. What the residues of the rows ask of all these holds of every lattice.
#[derive(Clone, Copy)]
pub(crate) struct Lattice<'r, 'a> {
    pub(crate) rows: Rows<'r>,
    pub(crate) n: u16,
    pub(crate) z: &'a [u16],
    pub(crate) products: &'a [u16; PRODUCT_ROOM],
    ghost ready: { Ready rows.d rows.numbers.now n z.now products.now } by { Ready-prop rows.d rows.numbers.now n z.now products.now },
}

impl<'r, 'a> Lattice<'r, 'a> {
    ghost use Rattle.planner.specs.Lists.{PairFor, ReadyRow, residue_by};

    // The lattice of a valid pair n, z, with the products of z for the rows in the places lent for them.
    // kept: here n, z and the places, which a caller has one by one, become a `Lattice`.
    pub(crate) fn of(
        rows: &Rows<'r>,
        n: u16,
        z: &'a [u16],
        products: &'a mut [u16; PRODUCT_ROOM],
    ) -> Lattice<'r, 'a>
        requires { PairFor n z.now rows.now }
        ensures { (result.rows ≡ rows.now) × (result.n ≡ n) × (result.z.now ≡ z.now) }
    {
        prepare_rows(rows, n, z, products);
        Lattice {
            rows: *rows,
            n,
            z,
            products,
        }
    }

    // The residue of a row.
    // kept: what the residues of a row and its mirrors ask of it (`ReadyRow`) is a clause: rows come one by one from `Rows::each` as slices, and a
    // struct of lattice and row would be made and opened at each.
    pub(crate) fn residue(&self, row: &[i16]) -> u16
        requires { ReadyRow self.now row.now }
        ensures { (result ≡ residue_by self.now row.now) × (result < self.now.n) }
    {
        let mut sum: u32 = 0;
        // kept: j is the axis of a component and of its products; `row.iter().zip(self.products.chunks_exact(PLACES)).take(self.z.len())` would be
        // two iterators and two adapters in place of it.
        for j in 0..self.z.len() {
            sum += u32::from(self.products[j * PLACES + place_of(row[j])]);
        }
        // kept: the remainder is below n; `try_from` would have an `Err` that never comes.
        (sum % u32::from(self.n)) as u16
    }
}
