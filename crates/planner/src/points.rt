// The point list (document 01's cutting list) of a valid pair.

ghost use Rattle.std.specs.Prelude.{◌≡◌, ◌++◌, ℕ, ◌+◌, ◌*◌, ◌%◌, ◌≤◌, ◌<◌, length, get_or};
ghost use Rattle.rank1.specs.Points.{coordinate, point_line, line_count, point_list};
ghost use Rattle.rank1.specs.Named.{plan_number};
ghost use Rattle.rank1.specs.Valid.{ValidModulus};
ghost use Rattle.planner.specs.Sizes.{axes};

use crate::mirrors::takes_mirrors;
use crate::tent::tent_numerator;
use rank1::Plan;

// How many lines the list has, which is the lens count. Under the tent line n - i equals line i, so plans A, B and C keep lines 0 to
// n / 2 and omit their twins; Integration and Fourier have all n lines.
// kept: a function of plan and n, since refusal 8 asks it of an n and a z that no `Cutting` was made of yet.
pub(crate) fn line_count(plan: Plan, n: u16) -> u16
    ensures { result ≡ line_count (plan_number plan) n }
{
    if takes_mirrors(plan) { n / 2 + 1 } else { n }
}

// What is cut: the plan and a valid pair.
#[derive(Clone, Copy)]
pub(crate) struct Cutting<'a> {
    pub(crate) plan: Plan,
    pub(crate) n: u16,
    pub(crate) z: &'a [u16],
    ghost modulus: { ValidModulus n },
    ghost few_axes: { length z.now ≤ axes },
    ghost below: { (j : ℕ) → j < length z.now → get_or z.now j 0 < n },
}

impl<'a> Cutting<'a> {
    // What stands for a residue: itself under Integration and Fourier, its tent numerator under plans A, B and C.
    fn coordinate(&self, r: u16) -> u16
        requires { r < self.now.n }
        ensures { result ≡ coordinate (plan_number self.now.plan) self.now.n r }
    {
        if !takes_mirrors(self.plan) {
            return r;
        }
        tent_numerator(self.n, r)
    }

    // One component of line i.
    fn entry(&self, i: u16, x: u16) -> u16
        requires { (i < self.now.n) × (x < self.now.n) }
        ensures { result ≡ coordinate (plan_number self.now.plan) self.now.n ((i * x) % self.now.n) }
    {
        let r = u32::from(i) * u32::from(x) % u32::from(self.n);
        // kept: the remainder is below n; `try_from` would have an `Err` that never comes.
        self.coordinate(r as u16)
    }

    // Writes line i.
    fn write_line(&self, i: u16, line: &mut [u16])
        requires { (i < self.now.n) × (length line.old ≡ length self.now.z.now) }
        ensures { line.new ≡ point_line (plan_number self.now.plan) self.now.n self.now.z.now i }
    {
        // kept: j is the axis of a setting and of its place in the line: `copy_from_slice` and then `iter_mut` calls `memmove` for each line, which
        // takes longer than all else where a line has one number.
        for j in 0..line.len() {
            line[j] = self.entry(i, self.z[j]);
        }
    }

    // Writes the lines that are kept, line 0 and up.
    pub(crate) fn write(&self, out: &mut [u16])
        requires { length out.old ≡ line_count (plan_number self.now.plan) self.now.n * length self.now.z.now }
        ensures { out.new ≡ point_list (plan_number self.now.plan) self.now.n self.now.z.now }
    {
        let d = self.z.len();
        // kept: a proof knows no element that is written through `chunks_exact_mut`, so each line is cut out by its place.
        for i in 0..line_count(self.plan, self.n) {
            let at = usize::from(i) * d;
            self.write_line(i, &mut out[at..at + d]);
        }
    }
}
