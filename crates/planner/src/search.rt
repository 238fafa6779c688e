// The search at one modulus: components are fixed from the first to the last by recursion; the number of unfixed ones falls at each
// call. What is known of a value that the search passes over is that no first vector has it there. The prunes, each with its test
// and its law (rank1 proofs, but for the steps in proofs/search):
//
// | prune | test | law |
// |---|---|---|
// | counting: the tally's bound | moduli::start_of | bound_hopeless (all_counted, rest-run) |
// | rows that end early break the rule | ends_hold | prune-whole (ends_decided) |
// | scaling: a first component is 0 or divides n | cannot_lead | first_component (lead_passed) |
// | rounds: the first component does not fall | lowest, rounds.rt | descent_starts (low-passed) |
// | interchangeable axes: components rise | lowest, marks of axes.rt | swap-first (low-passed) |
// | sign changes: no component above n / 2 | value_end, marks of flips.rt | flip-first, differences-flip (high_passed) |
// | differences: no difference of a pair kept apart has residue 0 | sieve_at, sieve.rt | struck-out (forbidden-none) |
//
// The last vector is checked whole, so what the tables leave out costs time and no answer. Scaling holds only where all n values
// of a component are tried, in the first round of a modulus (rounds.rt); the other prunes hold with fewer values too.
//
// kept: a component's number, the vector and the work are told one by one from call to call of the recursion: the number is another at each, and the
// two are lent.

ghost use Rattle.std.specs.Prelude.{◌≡◌, true, false, ◌≤◌, ◌<◌, length};
ghost use Rattle.planner.specs.Sizes.{axes};
ghost use Rattle.planner.specs.Stage.{Listed, Prefixed, EndsHold, Raised, Lowest, ValueEnd, NextFree, CannotLead, Siftable, Sifted, Summable, SumsAdded, Triable, Tried, below, Stage, KeptBefore, CompletedOf};

use crate::lattice::Lattice;
use crate::levels::level_at;
use crate::list::Rows;
use crate::listing::Task;
use crate::products::set_axis;
use crate::sieve::{set_sums, sieve, sieve_first};
use crate::sizes::{AXES, LARGEST_MODULUS, LASTS};
use crate::tables::{ModulusTables, Work};

// What a search at one modulus is about; it is lent down the recursion: the list with its tables, the tables of the modulus, the modulus,
// how many values of a component are tried, the value at which the first component starts, and whether every difference is struck (then
// the rows that end early need no test of their own).
// kept: that n is a modulus and that its tables are its solutions are clauses: with ghost fields `below` would name every field in place of
// `..*self`, and `raised` and `next_free`, whose contracts name specs/Stage, would stand in another file, since Stage names the struct.
#[derive(Clone, Copy)]
pub(crate) struct Search<'a> {
    pub(crate) task: Task<'a>,
    pub(crate) modulus: &'a ModulusTables,
    pub(crate) n: u16,
    pub(crate) values: u16,
    pub(crate) start: u16,
    pub(crate) sieved: bool,
}

// The larger of two values where axes can change places.
fn raised(low: u16, mark: bool, x: u16) -> u16
    ensures { Raised low mark x result }
{
    if mark { low.max(x) } else { low }
}

// The first value from `from` on that is not struck, where there is one before the end.
fn next_free(from: u16, end: u16, struck: &[bool]) -> Option<u16>
    requires { end ≤ length struck.now }
    ensures { NextFree from end struck.now result }
{
    (from..end).find(|v| !struck[usize::from(*v)])
}

impl<'a> Search<'a> {
    // The same search with the values below a bound, and a start for the first component.
    pub(crate) fn below(&self, bound: u16, start: u16) -> Search<'a>
        ensures { result ≡ below bound start self.now }
    {
        Search {
            values: bound,
            start,
            ..*self
        }
    }

    // The lowest value of component at. The first component starts where it is told to; a later one is not below that of an earlier
    // axis with which its axis can change places.
    fn lowest(&self, at: usize, z: &[u16]) -> u16
        requires { (at < axes) × (at ≤ length z.now) }
        ensures { Lowest self.now at z.now result }
    {
        let mut low = 0;
        for (i, x) in z[..at].iter().enumerate() {
            low = raised(low, self.task.list.swaps[i * AXES + at], *x);
        }
        if at == 0 { self.start } else { low }
    }

    // Where the values of component at end: behind n / 2 where the sign of its axis can change.
    fn value_end(&self, at: usize) -> u16
        requires { at < axes }
        ensures { ValueEnd self.now at result }
    {
        if !self.task.list.flips[at] {
            return self.values;
        }
        self.values.min(self.n / 2 + 1)
    }

    // Whether scaling rules v out as a first component: it neither is 0 nor divides n. It holds only where n values are tried.
    fn cannot_lead(&self, at: usize, v: u16) -> bool
        ensures { result ≡ true → CannotLead self.now at v }
    {
        if at != 0 {
            return false;
        }
        if self.values != self.n {
            return false;
        }
        if v == 0 {
            return false;
        }
        self.n % v != 0
    }

    // The rule on the rows that are 0 from axis at on; the sieve has done it where every difference is struck. False where it fails: no
    // vector of whole numbers that begins so meets the rule.
    fn ends_hold(&self, at: usize, z: &[u16], work: &mut Work) -> bool
        requires listed { Listed self.now.task }
        requires prefixed { Prefixed self.now at z.now work.old.products }
        ensures holds { EndsHold self.now at z.now result }
        ensures only { work.new ≡ record work.old { owners = work.new.owners; taken = work.new.taken } }
    {
        if self.sieved {
            return true;
        }
        let ending = Rows {
            plan: self.task.rows.plan,
            d: self.task.rows.d,
            numbers: level_at(at, self.task.list),
        };
        let lattice = Lattice {
            rows: ending,
            n: self.n,
            z: &z[..at],
            products: &work.products,
        };
        lattice.keeps_rule(&mut work.owners, &mut work.taken)
    }

    // Marks the values of component at that a difference forbids.
    fn sieve_at(&self, at: usize, work: &mut Work)
        requires { Siftable self.now at work.old }
        ensures { Sifted self.now at work.old work.new }
    {
        let list = self.task.list;
        if at == 0 {
            let end = usize::from(self.n);
            sieve_first(
                self.n,
                self.task.listing.tail,
                &list.bounds,
                &self.modulus.solved,
                &mut work.struck[..end],
            );
            return;
        }
        sieve(self.n, at - 1, list, self.modulus, work);
    }

    // Sets section at of the sums, behind the first axis: the parts before axis at of the differences that end behind it. It is done only
    // where a value of component at is left, so that a prefix that ends here costs no pass over the later differences.
    fn add_sums(&self, at: usize, work: &mut Work)
        requires { Summable self.now at work.old }
        ensures { SumsAdded self.now at work.old work.new }
    {
        if at == 0 {
            return;
        }
        let d = self.task.rows.d;
        if at + 1 < d {
            let list = self.task.list;
            let from = usize::from(list.bounds[(at + 1) * LASTS]);
            let to = usize::from(list.bounds[d * LASTS]);
            set_sums(
                self.n,
                at - 1,
                from,
                to,
                &list.components,
                &work.products,
                &mut work.sums,
            );
        }
    }

    // Sets component at to v. False where no first vector begins so: v cannot lead, or the rule fails on the rows that end there.
    fn try_component(&self, at: usize, v: u16, z: &mut [u16], work: &mut Work) -> bool
        requires { Triable self.now at v z.old work.old }
        ensures { Tried self.now at v z.old work.old z.new work.new result }
    {
        z[at] = v;
        if self.cannot_lead(at, v) {
            return false;
        }
        set_axis(&mut work.products, at, v, self.n, self.task.listing.top);
        self.ends_hold(at + 1, z, work)
    }

    // Completes z from component at on: the values that are left are tried from the lowest up. The vector is checked whole.
    // kept: z is made for one modulus and work once for all, and `ends_hold` reads a part of z while the owners in work are written: a struct
    // of the two would be made for each modulus and taken apart in each call. And a bool, since z is built where it stands.
    pub(crate) fn complete(&self, at: usize, z: &mut [u16], work: &mut Work) -> bool
        requires { Stage self.now at z.old work.old }
        ensures completed { CompletedOf self.now at z.old z.new result }
        ensures kept_before { KeptBefore at z.old work.old z.new work.new }
    {
        if at == self.task.rows.d {
            let lattice = Lattice {
                rows: self.task.rows,
                n: self.n,
                z,
                products: &work.products,
            };
            return lattice.keeps_rule(&mut work.owners, &mut work.taken);
        }
        self.sieve_at(at, work);
        let base = at * LARGEST_MODULUS;
        let low = self.lowest(at, z);
        let end = self.value_end(at);
        let Some(first) = next_free(low, end, &work.struck[base..]) else {
            return false;
        };
        self.add_sums(at, work);
        // kept: v is the value that is tried, with its mark behind those of the axes before; what is called in a turn writes the marks.
        for v in first..end {
            if work.struck[base + usize::from(v)] {
                continue;
            }
            if self.try_component(at, v, z, work) && self.complete(at + 1, z, work) {
                return true;
            }
        }
        false
    }
}
