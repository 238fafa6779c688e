// The check of a plan's rule on a list whose arguments are known to be valid. One function serves all plans and any depth of a
// search: the lattice's vector may be shorter than the rows, which then are 0 from its length on.
// kept: nested loops over rows and mirrors, left by a label at the first clash, and no chain: document 01 names this form.

ghost use Rattle.std.specs.Prelude.{◌≡◌, ◌≢◌, ◌≤◌, ◌<◌, pos, map, length};
ghost use Rattle.rank1.specs.Tests.{Decides};
ghost use Rattle.rank1.specs.Index.{row_count, zero_row};
ghost use Rattle.rank1.specs.Named.{plan_number};
ghost use Rattle.rank1.specs.Rule.{Integrates, PlanA};
ghost use Rattle.rank1.specs.RuleTest.{admissible};
ghost use Rattle.planner.specs.Inner.{Owners, Recorded, residue_of, clash};
ghost use Rattle.planner.specs.Lists.{rows_in, PairFor, ReadyRow, Keeps, residue_by};

use crate::lattice::Lattice;
use crate::list::Rows;
use crate::sizes::{LARGEST_MODULUS, MOST_MIRRORS, PRODUCT_ROOM};
use lists::nonzero_mask;
use rank1::Plan;

// Whether the owner of a residue forbids it to a mirror of row i.
fn clashes(plan: Plan, i: usize, owner: Option<u16>) -> bool
    ensures { result ≡ clash (plan_number plan) i owner }
{
    let Some(owner) = owner else {
        return false;
    };
    match plan {
        Plan::B => true,
        _ => usize::from(owner) != i,
    }
}

impl<'r, 'a> Lattice<'r, 'a> {
    // Whether a row is the zero row or has a residue other than 0.
    fn row_integrates(&self, row: &[i16]) -> bool
        requires { ReadyRow self.now row.now }
        ensures { Decides result (row.now ≢ zero_row (length row.now) → residue_by self.now row.now ≢ 0) }
    {
        nonzero_mask(row) == 0 || self.residue(row) != 0
    }

    // Integration: no row other than the zero row has residue 0.
    fn integrates(&self) -> bool
        ensures { Decides result (Integrates (rows_in self.now.rows) self.now.n (map pos self.now.z.now)) }
    {
        self.rows.each().all(|row| self.row_integrates(row))
    }

    // Records the owner of each row's residue, which is the row's number. False at the first clash of two rows.
    fn record_owners(&self, owners: &mut [Option<u16>; LARGEST_MODULUS]) -> bool
        ensures { Recorded self.now.n self.now.z.now (rows_in self.now.rows) owners.new result }
    {
        owners[..usize::from(self.n)].fill(None);
        for (i, row) in self.rows.each().enumerate() {
            let r = usize::from(self.residue(row));
            if owners[r].is_some() {
                return false;
            }
            // kept: a list has at most 512 rows; `try_from` would have an `Err` that never comes.
            owners[r] = Some(i as u16);
        }
        true
    }

    // Plan A: no two members of M have one residue. The table marks the residues that are taken.
    fn all_mirrors_apart(&self, taken: &mut [bool; LARGEST_MODULUS]) -> bool
        requires { 2 ≤ plan_number self.now.rows.plan }
        ensures { Decides result (PlanA (rows_in self.now.rows) self.now.n (map pos self.now.z.now)) }
    {
        taken[..usize::from(self.n)].fill(false);
        let mut residues = [0u16; MOST_MIRRORS];
        let mut apart = true;
        'rows: for row in self.rows.each() {
            for r in self.mirror_residues(row, &mut residues) {
                let r = usize::from(*r);
                if taken[r] {
                    apart = false;
                    break 'rows;
                }
                taken[r] = true;
            }
        }
        apart
    }

    // Plans B and C, after the owners are recorded: no mirror but a row itself has the residue of a row; under plan C it may have
    // that of its own row.
    fn mirrors_apart(&self, owners: &[Option<u16>; LARGEST_MODULUS]) -> bool
        requires le_plan { 3 ≤ plan_number self.now.rows.plan }
        requires owners { Owners (residue_of self.now.n self.now.z.now (rows_in self.now.rows)) self.now.n (row_count self.now.rows.d self.now.rows.numbers.now) owners.now }
        ensures { Decides result (Keeps self.now) }
    {
        let mut residues = [0u16; MOST_MIRRORS];
        let mut apart = true;
        'rows: for (i, row) in self.rows.each().enumerate() {
            for r in &self.mirror_residues(row, &mut residues)[1..] {
                if clashes(self.rows.plan, i, owners[usize::from(*r)]) {
                    apart = false;
                    break 'rows;
                }
            }
        }
        apart
    }

    // The rule of the rows' plan, with a table for the owners of the residues and one for the residues that are taken.
    pub(crate) fn keeps_rule(
        &self,
        owners: &mut [Option<u16>; LARGEST_MODULUS],
        taken: &mut [bool; LARGEST_MODULUS],
    ) -> bool
        ensures { Decides result (Keeps self.now) }
    {
        match self.rows.plan {
            Plan::Integration => self.integrates(),
            Plan::Fourier => self.record_owners(owners),
            Plan::A => self.all_mirrors_apart(taken),
            Plan::B | Plan::C => {
                if !self.record_owners(owners) {
                    return false;
                }
                self.mirrors_apart(owners)
            }
        }
    }

    // The same with tables of its own. Integration and plan A have no table of owners: to set one up takes longer than all else for a few
    // rows.
    fn decides_rule(&self) -> bool
        ensures { Decides result (Keeps self.now) }
    {
        match self.rows.plan {
            Plan::Integration => self.integrates(),
            Plan::A => self.all_mirrors_apart(&mut [false; LARGEST_MODULUS]),
            Plan::Fourier | Plan::B | Plan::C => {
                self.keeps_rule(&mut [None; LARGEST_MODULUS], &mut [false; LARGEST_MODULUS])
            }
        }
    }
}

// The plan's rule of the rows and a valid pair, with tables of its own.
// kept: n and z stand one by one, since their `Lattice` is made here.
pub(crate) fn admits(rows: &Rows, n: u16, z: &[u16]) -> bool
    requires { PairFor n z.now rows.now }
    ensures { result ≡ admissible (plan_number rows.now.plan) (rows_in rows.now) n (map pos z.now) }
{
    let mut products = [0u16; PRODUCT_ROOM];
    Lattice::of(rows, n, z, &mut products).decides_rule()
}
