// The sieve: which values of a component the differences that end at its axis rule out, all at once. The contracts are about
// soundness: a mark has a reason. That none is missing is speed.
// kept: n beside the marks that are lent: the values are numbers of 16 bits below n, and the length of a slice is none. And the tables of the list and
// those of the modulus are lent to `sieve` and `set_modulus` side by side: those of the list last for all moduli, the others for one.

ghost use Rattle.std.specs.Prelude.{◌≡◌, MatchOption, suc, ◌+◌, ◌*◌, ◌%◌, ◌≤◌, ◌<◌, nat_abs, length, get_or};
ghost use Rattle.rank1.specs.Valid.{ValidModulus};
ghost use Rattle.planner.specs.Sieve.{Markable, Marking, SolutionsSet, SolutionsOf, Tabulable, TablesTo, Strikable, Struck, Readable, SumsSet, RunStart, Sievable, Sieved, SievablePrefix, Barred, AllBarred, FirstSievable, FirstBarred, AllFirstBarred};
ghost use Rattle.planner.specs.Inner.{place};
ghost use Rattle.planner.specs.Sizes.{axes, largest_size, places, room, lasts};

use crate::products::{negative, place_of, sum_of};
use crate::runs::occurs;
use crate::sizes::{AXES, LARGEST_MODULUS, LASTS, PLACES, PRODUCT_ROOM, ROOM, SOLUTION_ROOM};
use crate::tables::{ListTables, ModulusTables, Solved, Work};

// Sets the residues of the parts before axis at + 1, for the differences from `from` to before `to`, from those before axis at.
// kept: the sums are written here, so they are not lent with the products in a Prefix, which is read alone.
pub(crate) fn set_sums(
    n: u16,
    at: usize,
    from: usize,
    to: usize,
    components: &[i16; AXES * ROOM],
    products: &[u16; PRODUCT_ROOM],
    sums: &mut [u16; AXES * ROOM],
)
    requires { Readable n at components.now products.now sums.old from to }
    ensures { SumsSet n at components.now products.now sums.old from to sums.new }
{
    let here = at * ROOM;
    let next = here + ROOM;
    let axis = at * PLACES;
    // kept: an index. Tried as a `zip` with `iter_mut` over the parts of sums: after a `zip` of `iter_mut` the library says nothing of what was
    // written, so the proof does not close.
    for e in from..to {
        let place = axis + place_of(components[here + e]);
        sums[next + e] = sum_of(sums[here + e], products[place], n);
    }
}

// What is fixed before the axis that is sieved: the modulus, the axis before it, the tables of the list and of the modulus, and the sums and
// products up to there.
#[derive(Clone, Copy)]
struct Prefix<'a> {
    n: u16,
    before: usize,
    list: &'a ListTables,
    modulus: &'a ModulusTables,
    sums: &'a [u16; AXES * ROOM],
    products: &'a [u16; PRODUCT_ROOM],
}

// Marks v and what is a number of steps behind it, below n.
fn mark_steps(n: u16, v: u16, step: u16, struck: &mut [bool])
    requires { Markable n step struck.old }
    ensures { Marking v step struck.old struck.new }
{
    // kept: w is a value and its mark stands at it; `struck[..].iter_mut().skip(..).step_by(..)` would be a slice and two adapters in place of one range.
    for w in (v..n).step_by(usize::from(step)) {
        struck[usize::from(w)] = true;
    }
}

// The differences of a run: their sums before the axis before last, their components on that axis, and its products; and of the last
// component t, with which they all end, the solutions and how far apart they are. No code reads t: the contracts speak of it.
// kept: what is known of a Run is a clause and no ghost field: `strike_run` makes one and asks it to strike at once, so the field would be proved where the
// clause is.
#[derive(Clone, Copy)]
struct Run<'a> {
    n: u16,
    t: usize,
    step: u16,
    sums: &'a [u16],
    components: &'a [i16],
    products: &'a [u16],
    solutions: &'a [u16],
}

impl<'a> Run<'a> {
    // The residue of the part of a difference before the axis at which the run ends, from its sum and its component x on the axis before.
    fn part_of(&self, sum: u16, x: i16) -> u16
        requires modulus { ValidModulus self.now.n × (length self.now.products.now ≡ places) }
        requires small { (nat_abs x ≤ largest_size) × (sum < self.now.n) × (get_or self.now.products.now (place x) 0 < self.now.n) }
        ensures { (result ≡ (sum + get_or self.now.products.now (place x) 0) % self.now.n) × (result < self.now.n) }
    {
        sum_of(sum, self.products[place_of(x)], self.n)
    }

    // Strikes all solutions of each difference, one step apart.
    fn strike_steps(&self, struck: &mut [bool])
        requires { Strikable self.now struck.old }
        ensures { Struck self.now struck.old struck.new }
    {
        for (sum, x) in self.sums.iter().zip(self.components) {
            let c = self.part_of(*sum, *x);
            mark_steps(self.n, self.solutions[usize::from(c)], self.step, struck);
        }
    }

    // Strikes the one solution of each difference. There is no test: where a difference has none, mark n is set, which stands for no value.
    // kept: beside strike_steps, since it does without the loop and the test of `mark_steps`. Tried with strike_steps alone: it proves, and with the
    // recursion at four places in memory five axes with 2 rows under plan A took 1.64 to 2.05 times the peer's time, with this form 1.36 to 1.64; the
    // best of the four counts, and may be 1.5 (docs/DECISIONS.md, "Speed").
    fn strike_single(&self, struck: &mut [bool])
        requires { Strikable self.now struck.old }
        ensures { Struck self.now struck.old struck.new }
    {
        for (sum, x) in self.sums.iter().zip(self.components) {
            let c = self.part_of(*sum, *x);
            struck[usize::from(self.solutions[usize::from(c)])] = true;
        }
    }

    // Strikes all solutions of all differences: one each where t has an inverse modulo n, else none or some that are a step apart.
    fn strike(&self, struck: &mut [bool])
        requires { Strikable self.now struck.old }
        ensures { Struck self.now struck.old struck.new }
    {
        if self.step == self.n {
            self.strike_single(struck);
        } else {
            self.strike_steps(struck);
        }
    }
}

// Where, among the numbers of axis `before`, those of the differences start that end at the next axis with component t.
fn run_start(list: &ListTables, before: usize, t: usize) -> usize
    requires { (suc before < axes) × (t ≤ lasts) }
    ensures { RunStart list.now.bounds before t result }
{
    before * ROOM + usize::from(list.bounds[(before + 1) * LASTS + t])
}

// Where the run behind that of place `at` starts. It is never `at` itself, whatever the bound is, so that a walk over the runs ends.
fn next_run(at: usize, bound: usize) -> usize
    requires { at < axes * room }
    ensures { at < result }
{
    bound.max(at + 1)
}

impl<'a> Prefix<'a> {
    // Strikes by the run of the differences that end at the axis behind `before` with component t, where t has a table of solutions and
    // the run a difference.
    fn strike_run(&self, t: usize, struck: &mut [bool])
        requires sievable { SievablePrefix self.now }
        requires t_lt_lasts { (t < lasts) × (self.now.n < length struck.old) }
        ensures { Barred self.now struck.old struck.new }
    {
        let Prefix {
            n,
            before,
            list,
            modulus,
            sums,
            products,
        } = *self;
        if let Some(Solved { start, step }) = modulus.solved[t] {
            let begin = run_start(list, before, t);
            let end = run_start(list, before, t + 1);
            if begin < end {
                let axis = before * PLACES;
                let behind = axis + PLACES;
                let stop = start + usize::from(n);
                let run = Run {
                    n,
                    t,
                    step,
                    sums: &sums[begin..end],
                    components: &list.components[begin..end],
                    products: &products[axis..behind],
                    solutions: &modulus.solutions[start..stop],
                };
                run.strike(struck);
            }
        }
    }

    // Sieves among the marks of the axis behind `before` alone: those that are set have been struck by one of its runs. The walk goes from
    // run to run: `at` is the place of a run's first difference among the numbers of axis `before`, and ROOM places on, among those of the
    // axis behind, stands its last component. Where the next run starts is looked up before this one is struck: the processor then need not
    // wait for it.
    fn strike_runs(&self, struck: &mut [bool])
        requires sievable { SievablePrefix self.now }
        requires struck_len { length struck.old ≡ suc self.now.n }
        ensures { AllBarred self.now struck.new }
    {
        struck.fill(false);
        let before = self.before;
        let list = self.list;
        let end = run_start(list, before, LASTS);
        let mut at = run_start(list, before, 0);
        // kept: no range goes from run to run. Tried as a `for` over the last components from 1 to the largest, each asked for its run: it proves,
        // and with the recursion at four places in memory five axes with 2 rows under plan A took 1.70 to 1.87 times the peer's time, with this form
        // 1.36 to 1.64; the best of the four counts, and may be 1.5 (docs/DECISIONS.md, "Speed").
        while at < end {
            let t = usize::from(list.components[at + ROOM].unsigned_abs());
            let next = next_run(at, run_start(list, before, t + 1));
            self.strike_run(t, struck);
            at = next;
        }
    }
}

// Strikes at the first axis the multiples of the period of t, where a difference ends there with component t.
fn strike_first(
    n: u16,
    t: usize,
    bounds: &[u16; AXES * LASTS + 1],
    solved: &[Option<Solved>; LASTS],
    struck: &mut [bool],
)
    requires { FirstSievable n t solved.now struck.old }
    ensures { FirstBarred n bounds.now struck.old struck.new }
{
    if bounds[t] < bounds[t + 1] {
        if let Some(Solved { step, .. }) = solved[t] {
            mark_steps(n, 0, step, struck);
        }
    }
}

// Sieves the first component: its marks are those of the values with which a difference that ends there has residue 0.
pub(crate) fn sieve_first(
    n: u16,
    tail: usize,
    bounds: &[u16; AXES * LASTS + 1],
    solved: &[Option<Solved>; LASTS],
    marks: &mut [bool],
)
    requires { FirstSievable n tail solved.now marks.old }
    ensures { AllFirstBarred n bounds.now marks.old marks.new }
{
    marks.fill(false);
    // kept: t is a last component: its run lies between two bounds, and its step stands in another table.
    for t in 1..=tail {
        strike_first(n, t, bounds, solved, marks);
    }
}

// Sieves the component at the axis behind `before`: its marks are those of the values that a difference ending there forbids.
pub(crate) fn sieve(
    n: u16,
    before: usize,
    list: &ListTables,
    modulus: &ModulusTables,
    work: &mut Work,
)
    requires { Sievable n before list.now work.old.products work.old.sums modulus.now }
    ensures sieved { Sieved n before list.now work.old.products work.old.sums work.old.struck work.new.struck }
    ensures only { work.new ≡ record work.old { struck = work.new.struck } }
{
    let first = (before + 1) * LARGEST_MODULUS;
    let end = first + usize::from(n) + 1;
    let prefix = Prefix {
        n,
        before,
        list,
        modulus,
        sums: &work.sums,
        products: &work.products,
    };
    prefix.strike_runs(&mut work.struck[first..end]);
}

// Sets the solutions of t and n, at first to n, which stands for none: v runs up from 0, and c is the residue of -t v. It ends where c
// is 0 again: that v is returned, and the solutions for one c are that far apart.
fn set_solutions(n: u16, t: u16, solutions: &mut [u16]) -> u16
    requires { ValidModulus n × (n ≤ length solutions.old) }
    ensures { SolutionsSet n t result solutions.new }
{
    let end = usize::from(n);
    solutions[..end].fill(n);
    solutions[0] = 0;
    let down = negative(t % n, n);
    let mut c = down;
    for v in 1..n {
        if c == 0 {
            return v;
        }
        solutions[usize::from(c)] = v;
        c = sum_of(c, down, n);
    }
    n
}

// Gives t a table of solutions behind the first `at` numbers, if some difference ends with component t, and returns how many
// numbers there are then; None where there is no room for it.
// kept: how many numbers there are goes from one turn of `set_modulus` to the next and is asked by nobody else, so it is no field of the tables; and the
// list is read while the tables of the modulus are written, so the two are lent apart.
fn add_table(
    n: u16,
    d: usize,
    t: usize,
    at: usize,
    list: &ListTables,
    modulus: &mut ModulusTables,
) -> Option<usize>
    requires tabulable { Tabulable n d t }
    requires tables_to { TablesTo n at modulus.old }
    ensures { MatchOption result (SolutionsOf n modulus.new) (λ most. TablesTo n most modulus.new) }
{
    if !occurs(d, t, &list.bounds) {
        return Some(at);
    }
    let end = at + usize::from(n);
    if SOLUTION_ROOM < end {
        return None;
    }
    // kept: t is below LASTS; `try_from` would have an `Err` that never comes.
    let step = set_solutions(n, t as u16, &mut modulus.solutions[at..end]);
    modulus.solved[t] = Some(Solved { start: at, step });
    Some(end)
}

// Sets the tables of solutions of n for the last components from 1 to `tail` that some difference has, while there is room.
// The answer is whether all of them have one.
pub(crate) fn set_modulus(
    n: u16,
    d: usize,
    tail: usize,
    list: &ListTables,
    modulus: &mut ModulusTables,
) -> bool
    requires { Tabulable n d tail }
    ensures { SolutionsOf n modulus.new }
{
    modulus.solved.fill(None);
    let mut at = 0;
    // kept: t is a last component; as a `try_fold` the closure would need clauses of its own for the tables that each turn writes.
    for t in 1..=tail {
        let Some(end) = add_table(n, d, t, at, list, modulus) else {
            return false;
        };
        at = end;
    }
    true
}
