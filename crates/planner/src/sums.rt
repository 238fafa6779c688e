// Map, spread and gather on a list and a pair that are known to be valid, with the products of z.
// kept: that there are n sums is a clause: they are lent as a slice, to be written by spread and to be read by gather, so that a struct of n and sums
// would have to be there in both kinds.

ghost use Rattle.std.specs.Prelude.{◌≡◌, true, false, map, ℕ, ◌+◌, ◌*◌, ◌≤◌, ◌<◌, pos, ◌+ℤ◌, ◌*ℤ◌, length, get_or, MatchOption, ◌==◌, count_by};
ghost use Rattle.std.specs.Int.Signed.{quot_z};
ghost use Rattle.rank1.specs.Tests.{every};
ghost use Rattle.rank1.specs.Index.{row_count};
ghost use Rattle.rank1.specs.Named.{plan_number};
ghost use Rattle.rank1.specs.Sums.{in32, residue_map, spread_sums, gathers, gathered_terms};
ghost use Rattle.planner.specs.Sizes.{most_mirrors};
ghost use Rattle.planner.specs.Inner.{occurrences, Addable, divides, EntryOf};
ghost use Rattle.planner.specs.Lists.{rows_in, ReadyRow};

use crate::lattice::Lattice;
use crate::sizes::MOST_MIRRORS;

// A row's residue and its c.
#[derive(Clone, Copy)]
struct Entry {
    residue: u16,
    copies: u16,
}

// How often x stands among the residues of a row's mirrors.
fn occurrences_of(x: u16, residues: &[u16]) -> u16
    requires { length residues.now ≤ most_mirrors }
    ensures { result ≡ count_by (λ r. r == x) residues.now }
{
    // kept: a row has at most 64 mirrors; `try_from` would have an `Err` that never comes.
    residues.iter().filter(|r| **r == x).count() as u16
}

// Adds a at each of the residues.
fn add_term(a: i64, residues: &[u16], sums: &mut [i64])
    requires { Addable a residues.now sums.old }
    ensures { (r : ℕ) → get_or sums.new r (pos 0) ≡ get_or sums.old r (pos 0) +ℤ (a *ℤ pos (occurrences r residues.now)) }
{
    for r in residues {
        sums[usize::from(*r)] += a;
    }
}

// The quotient of a sum by c: none where c does not divide the sum, or the quotient has not 32 bits.
fn quotient_of(s: i64, c: u16) -> Option<i32>
    requires { (1 ≤ c) × (c ≤ most_mirrors) }
    ensures { MatchOption result (divides s c ≡ false) (λ q. (divides s c ≡ true) × (q ≡ quot_z s (pos c))) }
{
    let c = i64::from(c);
    if s % c != 0 {
        return None;
    }
    i32::try_from(s / c).ok()
}

impl<'r, 'a> Lattice<'r, 'a> {
    // The residue and c of a row.
    fn entry_of(&self, row: &[i16]) -> Entry
        requires { ReadyRow self.now row.now }
        ensures { EntryOf (plan_number self.now.rows.plan) self.now.n self.now.z.now row.now result.residue result.copies }
    {
        let mut room = [0u16; MOST_MIRRORS];
        let residues = self.residues_under(row, &mut room);
        let residue = residues[0];
        let copies = occurrences_of(residue, residues);
        Entry { residue, copies }
    }

    // The map: for each row its residue and then its c.
    pub(crate) fn write_map(&self, out: &mut [u16])
        requires { length out.old ≡ 2 * row_count self.now.rows.d self.now.rows.numbers.now }
        ensures { out.new ≡ residue_map (plan_number self.now.rows.plan) self.now.n (map pos self.now.z.now) (rows_in self.now.rows) }
    {
        // kept: a proof knows no element that is written through `chunks_exact_mut`, so i is where the numbers of a row are written.
        for (i, row) in self.rows.each().enumerate() {
            let e = self.entry_of(row);
            out[2 * i] = e.residue;
            out[2 * i + 1] = e.copies;
        }
    }

    // Spreading: the n sums. Every term was read, so all are numbers of 32 bits.
    pub(crate) fn write_sums(&self, terms: &[i32], sums: &mut [i64])
        requires { (length terms.now ≡ row_count self.now.rows.d self.now.rows.numbers.now) × (length sums.old ≡ self.now.n) }
        ensures { (sums.new ≡ spread_sums (plan_number self.now.rows.plan) self.now.n (map pos self.now.z.now) (rows_in self.now.rows) terms.now) × (every in32 terms.now ≡ true) }
    {
        sums.fill(0);
        let mut room = [0u16; MOST_MIRRORS];
        for (row, term) in self.rows.each().zip(terms) {
            let residues = self.residues_under(row, &mut room);
            add_term(i64::from(*term), residues, sums);
        }
    }

    // Whether the sum of a row is a multiple of its c, and the quotient has 32 bits.
    fn gathers(&self, row: &[i16], sums: &[i64]) -> bool
        requires ready { ReadyRow self.now row.now }
        requires sums_len { length sums.now ≡ self.now.n }
        ensures { result ≡ gathers (plan_number self.now.rows.plan) self.now.n (map pos self.now.z.now) sums.now row.now }
    {
        let e = self.entry_of(row);
        quotient_of(sums[usize::from(e.residue)], e.copies).is_some()
    }

    // Condition 11 does not apply: the sums of all rows gather.
    pub(crate) fn all_gather(&self, sums: &[i64]) -> bool
        requires { length sums.now ≡ self.now.n }
        ensures { result ≡ every (gathers (plan_number self.now.rows.plan) self.now.n (map pos self.now.z.now) sums.now) (rows_in self.now.rows) }
    {
        self.rows.each().all(|row| self.gathers(row, sums))
    }

    // Gathering, where all rows pass: each row's term.
    pub(crate) fn write_terms(&self, sums: &[i64], terms: &mut [i32])
        requires sums_len { (length sums.now ≡ self.now.n) × (length terms.old ≡ row_count self.now.rows.d self.now.rows.numbers.now) }
        requires rows_value { every (gathers (plan_number self.now.rows.plan) self.now.n (map pos self.now.z.now) sums.now) (rows_in self.now.rows) ≡ true }
        ensures { terms.new ≡ gathered_terms (plan_number self.now.rows.plan) self.now.n (map pos self.now.z.now) (rows_in self.now.rows) sums.now }
    {
        // kept: a proof knows no element that is written through a `zip` of `iter_mut`, so i is where a row's term is written.
        for (i, row) in self.rows.each().enumerate() {
            let e = self.entry_of(row);
            if let Some(quotient) = quotient_of(sums[usize::from(e.residue)], e.copies) {
                terms[i] = quotient;
            }
        }
    }
}
