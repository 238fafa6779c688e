// The differences of the pairs of rows that a plan keeps apart, collected in a table. Pairs are made of the members: the rows, under
// plans A, B and C their mirrors. What a function says of the table is which pairs it grew by (`GrownTo`); where the table is full it
// stops. Differences can be collected that end at one axis alone, the level; with None, all.
// kept: s and t are the two rows of a pair, of one kind, which a struct of both would name no better, and what is asked of them (`Subtractable`) speaks of
// the table's d too; and the members are made anew for each level, so they are no part of the rows that they are paired with.

ghost use Rattle.std.specs.Prelude.{◌≡◌, true, false, ◌≤◌, ◌<◌, length};
ghost use Rattle.rank1.specs.Differences.{minus};
ghost use Rattle.rank1.specs.Index.{row_count};
ghost use Rattle.rank1.specs.Named.{plan_number};
ghost use Rattle.planner.specs.Lists.{rows_in};
ghost use Rattle.planner.specs.Members.{Kin};
ghost use Rattle.planner.specs.Table.{Subtractable, Below, OnePair, MemberPair, PairsFrom, RowPairs, BehindPairs, PlanPairs, GrownTo, RowThere, RowRun, Pairable};

use crate::flips::set_upright;
use crate::list::Rows;
use crate::members::Members;
use crate::rows::row_at;
use crate::sizes::{AXES, ROOM};
use crate::table::Differences;
use rank1::Plan;

// Sets h to s - t.
// kept: an index into s and t. After a `zip` of `iter_mut` the library says nothing of what was written, so no proof of it closes.
fn set_minus(s: &[i16], t: &[i16], h: &mut [i16])
    requires { Subtractable (length h.old) s.now t.now }
    ensures { h.new ≡ minus s.now t.now }
{
    for (j, x) in h.iter_mut().enumerate() {
        *x = s[j] - t[j];
    }
}

// What pairs are made of: a plan, rows, the members that they are paired with, and the axis at which a difference is to end, or None
// where it may end at any. The rows are as long as those of the table.
// kept: what pairs ask of the members and of the level is a clause: it speaks of the table's d, which a Pairing has not.
#[derive(Clone, Copy)]
struct Pairing<'a> {
    plan: Plan,
    level: Option<usize>,
    rows: &'a [i16],
    members: &'a Members,
}

// Whether the difference of two rows ends at an axis; for None it is always so.
fn ends_at(s: &[i16], t: &[i16], level: Option<usize>) -> bool
    requires { (length s.now ≡ length t.now) × Below level (length s.now) }
{
    let Some(j) = level else {
        return true;
    };
    s[j] != t[j] && s[j + 1..] == t[j + 1..]
}

impl Differences {
    // Adds the difference of two rows, or its negative; nothing where they are the same row.
    fn add_pair(&mut self, s: &[i16], t: &[i16])
        requires { Subtractable self.old.d s.now t.now }
        ensures { GrownTo (OnePair s.now t.now) self.old self.new }
    {
        if s == t {
            return;
        }
        let mut places = [0i16; AXES];
        let h = &mut places[..self.d];
        set_minus(s, t, h);
        set_upright(h);
        self.add(h);
    }

    // Adds the difference of two rows where it ends at the level; else the pair is passed over.
    fn add_ending(&mut self, level: Option<usize>, s: &[i16], t: &[i16])
        requires { Subtractable self.old.d s.now t.now × Below level self.old.d }
        ensures { GrownTo (OnePair s.now t.now) self.old self.new }
    {
        if ends_at(s, t, level) {
            self.add_pair(s, t);
        } else {
            self.whole = false;
        }
    }

    // Adds the difference of member e and row i; under plan C nothing where the row owns the member.
    fn add_member(&mut self, pairing: &Pairing, i: usize, e: usize)
        requires row { RowThere self.old.d pairing.now.rows.now i }
        requires member { Pairable self.old.d pairing.now.level pairing.now.members.now × (e < pairing.now.members.now.count) }
        ensures { GrownTo (MemberPair (plan_number pairing.now.plan) self.old.d pairing.now.rows.now pairing.now.members.now i e) self.old self.new }
    {
        let members = pairing.members;
        if pairing.plan == Plan::C {
            if usize::from(members.owners[e]) == i {
                return;
            }
        }
        self.add_ending(
            pairing.level,
            row_at(&members.rows, e, self.d),
            row_at(pairing.rows, i, self.d),
        );
    }

    // Whether the table is full and is known not to have all differences: then no pair changes anything more.
    fn is_full(&self) -> bool
        ensures { result ≡ true → self.now.whole ≡ false }
    {
        !self.whole && self.count == ROOM
    }

    // Adds the differences of the members from number `from` on and row i, until the table is full.
    fn add_against(&mut self, pairing: &Pairing, i: usize, from: usize)
        requires row { RowThere self.old.d pairing.now.rows.now i }
        requires members { Pairable self.old.d pairing.now.level pairing.now.members.now × (from ≤ pairing.now.members.now.count) }
        ensures { GrownTo (PairsFrom (plan_number pairing.now.plan) self.old.d from pairing.now.rows.now pairing.now.members.now i) self.old self.new }
    {
        // kept: e is a member, whose row and whose owner stand in two arrays: a chain over both would be cut at the count and at `from`, for what one
        // number says here.
        for e in from..pairing.members.count {
            self.add_member(pairing, i, e);
            if self.is_full() {
                return;
            }
        }
    }

    // Adds the differences of all members and each row, until the table is full.
    fn pair_rows(&mut self, pairing: &Pairing)
        requires rows { RowRun self.old.d (row_count self.old.d pairing.now.rows.now) pairing.now.rows.now }
        requires members { Pairable self.old.d pairing.now.level pairing.now.members.now }
        ensures { GrownTo (RowPairs (plan_number pairing.now.plan) self.old.d pairing.now.rows.now pairing.now.members.now) self.old self.new }
    {
        // kept: i is the row's number, by which plan C knows the members that it owns; `enumerate` would hand on row and number where the number
        // tells both.
        for i in 0..pairing.rows.len() / self.d {
            self.add_against(pairing, i, 0);
            if self.is_full() {
                return;
            }
        }
    }

    // Adds the differences of each row and the members behind its own number, until the table is full: the rows are the members.
    // kept: beside pair_rows: one function with a closure for where the members begin would promise by cases what each says plainly.
    fn pair_behind(&mut self, pairing: &Pairing)
        requires rows { RowRun self.old.d pairing.now.members.now.count pairing.now.rows.now }
        requires members { Pairable self.old.d pairing.now.level pairing.now.members.now }
        ensures { GrownTo (BehindPairs (plan_number pairing.now.plan) self.old.d pairing.now.rows.now pairing.now.members.now) self.old self.new }
    {
        // kept: i is the row's number, and says where the members begin that it meets.
        for i in 0..pairing.members.count {
            self.add_against(pairing, i, i + 1);
            if self.is_full() {
                return;
            }
        }
    }

    // Adds the differences of all pairs of members that the plan keeps apart, those that end at the level: for integration each with the row
    // of zeros, for Fourier and plan A each with those behind it, for plans B and C each with all rows.
    pub(crate) fn pair_all(&mut self, rows: &Rows, level: Option<usize>, members: &Members)
        requires members { Kin (plan_number rows.now.plan) rows.now.d (rows_in rows.now) members.now }
        requires axes { (self.old.d ≡ rows.now.d) × Below level rows.now.d }
        ensures { GrownTo (PlanPairs (plan_number rows.now.plan) self.old.d rows.now.numbers.now members.now) self.old self.new }
    {
        let pairing = Pairing {
            plan: rows.plan,
            level,
            rows: rows.numbers,
            members,
        };
        match rows.plan {
            Plan::Integration => self.pair_rows(&Pairing {
                rows: &[0i16; AXES][..self.d],
                ..pairing
            }),
            Plan::Fourier | Plan::A => self.pair_behind(&Pairing {
                rows: &members.rows,
                ..pairing
            }),
            Plan::B | Plan::C => self.pair_rows(&pairing),
        }
    }
}
