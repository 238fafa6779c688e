// The mirrors of a row: how many there are, and their residues in the order of the definition, made by doubling.

ghost use Rattle.std.specs.Prelude.{◌≡◌, ◌++◌, map, ℕ, ◌+◌, ◌%◌, ◌≤◌, ◌<◌, leb, length, get_or, take};
ghost use Rattle.rank1.specs.Index.{mirrors};
ghost use Rattle.rank1.specs.Named.{plan_number};
ghost use Rattle.rank1.specs.Sums.{mirrors_under};
ghost use Rattle.planner.specs.Sizes.{axes, most_mirrors, largest_modulus};
ghost use Rattle.planner.specs.Lists.{ReadyRow, residue_by};

use crate::lattice::Lattice;
use crate::products::{place_of, sum_of};
use crate::sizes::{MOST_MIRRORS, PLACES};
use rank1::Plan;

// How many mirrors a row has, as the residues of them ask (`lists` counts them). The doubling would know it too.
// kept: document 01 names this form, the ones of a mask.
fn mirror_count(row: &[i16]) -> usize
    requires { length row.now ≤ axes }
    ensures { (result ≡ length (mirrors row.now)) × (1 ≤ result) × (result ≤ most_mirrors) }
{
    lists::mirror_count(row)
}

// The first count residues once more behind them, each with step added.
fn reflect(out: &mut [u16; MOST_MIRRORS], count: usize, step: u16, n: u16)
    requires count_in_bounds { (count + count ≤ most_mirrors) × (step < n) × (n ≤ largest_modulus) }
    requires by_index { (t : ℕ) → t < count → get_or out.old t 0 < n }
    ensures { take (count + count) out.new ≡ take count out.old ++ map (λ r. (r + step) % n) (take count out.old) }
{
    // kept: an index: after a `zip` with `iter_mut` a proof knows nothing of what was written. And a count beside the array says how many places
    // are set: a `Vec` asks for the heap, and the kit's arrayvec would be one more library that the gate takes as built (docs/DECISIONS.md, "No heap").
    for t in 0..count {
        out[count + t] = sum_of(out[t], step, n);
    }
}

// Whether a plan takes the mirrors of a row besides the row: plans A, B and C do.
pub(crate) fn takes_mirrors(plan: Plan) -> bool
    ensures { result ≡ leb 2 (plan_number plan) }
{
    match plan {
        Plan::Integration | Plan::Fourier => false,
        Plan::A | Plan::B | Plan::C => true,
    }
}

impl<'r, 'a> Lattice<'r, 'a> {
    // The residues of a row's mirrors, written to the places lent for them: from the last axis to the first, each component that is
    // not 0 doubles what stands there.
    pub(crate) fn mirror_residues<'b>(
        &self,
        row: &[i16],
        out: &'b mut [u16; MOST_MIRRORS],
    ) -> &'b [u16]
        requires { ReadyRow self.now row.now }
        ensures { (result.now ≡ map (residue_by self.now) (mirrors row.now)) × (1 ≤ length result.now) × (length result.now ≤ most_mirrors) }
    {
        out[0] = self.residue(row);
        // kept: count doubles, which no iterator does, and j is the axis of a component and of its products.
        let mut count = 1;
        for j in (0..self.z.len()).rev() {
            let x = row[j];
            if x != 0 {
                let p = self.products[j * PLACES + place_of(-x)];
                reflect(out, count, sum_of(p, p, self.n), self.n);
                count += count;
            }
        }
        &out[..mirror_count(row)]
    }

    // The residues of the rows that S(k) stands for under the rows' plan: the mirrors under plans A, B and C, else the row alone.
    pub(crate) fn residues_under<'b>(
        &self,
        row: &[i16],
        out: &'b mut [u16; MOST_MIRRORS],
    ) -> &'b [u16]
        requires { ReadyRow self.now row.now }
        ensures { (result.now ≡ map (residue_by self.now) (mirrors_under (plan_number self.now.rows.plan) row.now)) × (1 ≤ length result.now) × (length result.now ≤ most_mirrors) }
    {
        if takes_mirrors(self.rows.plan) {
            return self.mirror_residues(row, out);
        }
        out[0] = self.residue(row);
        &out[..1]
    }
}
