// Product tables: for each axis the residues of the products of z's component with every component that a row or a difference can have. So the
// residue of a row is a sum of entries and one division, with no product and no sign in it.
// kept: `set_axis`, `prepare` and `prepare_rows` make the table that a `Lattice` then lends, so n, z and the places stand one by one.
// kept: n is a plain number and its bound a clause: n is read in every sum here, and a struct would be opened at each.

ghost use Rattle.std.specs.Prelude.{◌≡◌, ℕ, ◌+◌, ◌-◌, ◌*◌, ◌%◌, ◌≤◌, ◌<◌, nat_abs, length, get_or};
ghost use Rattle.rank1.specs.Valid.{ValidModulus};
ghost use Rattle.planner.specs.Sizes.{axes, largest_modulus, largest_size, places};
ghost use Rattle.planner.specs.Inner.{place, Products, AxisSet, Covered, Ready};
ghost use Rattle.planner.specs.Lists.{PairFor};

use crate::list::Rows;
use crate::sizes::{MIDDLE, PLACES, PRODUCT_ROOM};

// Where the product of x stands among the places of its axis.
pub(crate) fn place_of(x: i16) -> usize
    requires { nat_abs x ≤ largest_size }
    ensures { (result ≡ place x) × (result < places) }
{
    // kept: the constant is small and the sum not negative; `try_from` would have an `Err` that never comes.
    (x + MIDDLE as i16) as usize
}

// The largest size of a component; no components have 0.
// kept: one name for the library's chain: two callers need its promise, proved here once.
pub(crate) fn largest(rows: &[i16]) -> usize
    requires { Covered largest_size rows.now }
    ensures { Covered result rows.now }
{
    rows.iter()
        .map(|x| usize::from(x.unsigned_abs()))
        .max()
        .unwrap_or(0)
}

// The residue of the negative of a number with residue p.
pub(crate) fn negative(p: u16, n: u16) -> u16
    requires { p < n }
    ensures { (result ≡ (n - p) % n) × (result < n) }
{
    if p == 0 { 0 } else { n - p }
}

// The residue of a sum of two residues.
pub(crate) fn sum_of(p: u16, q: u16, n: u16) -> u16
    requires { (p < n) × (q < n) × (n ≤ largest_modulus) }
    ensures { (result ≡ (p + q) % n) × (result < n) }
{
    let s = p + q;
    if s < n { s } else { s - n }
}

// Sets the products of v on one axis, for the numbers of size at most top.
pub(crate) fn set_axis(products: &mut [u16; PRODUCT_ROOM], axis: usize, v: u16, n: u16, top: usize)
    requires { (axis < axes) × (v < n) × ValidModulus n × (top ≤ largest_size) }
    ensures { AxisSet n v axis top products.old products.new }
{
    let middle = axis * PLACES + MIDDLE;
    let mut p: u16 = 0;
    // kept: x is a size, and its two places go by it; no slice is passed over.
    for x in 0..=top {
        products[middle + x] = p;
        products[middle - x] = negative(p, n);
        p = sum_of(p, v, n);
    }
}

// Sets the products of all components of z.
fn prepare(z: &[u16], n: u16, top: usize, products: &mut [u16; PRODUCT_ROOM])
    requires z_len_bound { (length z.now ≤ axes) × ValidModulus n × (top ≤ largest_size) }
    requires by_index { (j : ℕ) → j < length z.now → get_or z.now j 0 < n }
    ensures { Products n z.now top products.new }
{
    for (j, v) in z.iter().enumerate() {
        set_axis(products, j, *v, n, top);
    }
}

// Sets the products of z for the rows; n and z are a valid pair for them.
pub(crate) fn prepare_rows(rows: &Rows, n: u16, z: &[u16], products: &mut [u16; PRODUCT_ROOM])
    requires { PairFor n z.now rows.now }
    ensures { Ready rows.now.d rows.now.numbers.now n z.now products.new }
{
    prepare(z, n, largest(rows.numbers), products);
}
