// The least modulus worth trying, from a record alone.

ghost use Rattle.std.specs.Prelude.{◌≡◌};
ghost use Rattle.rank1.specs.Named.{refused, plan_number};
ghost use Rattle.rank1.specs.Tally.{least_modulus};
ghost use Rattle.rank1.specs.Refusal.{bad_tally};
ghost use Rattle.rank1.specs.Valid.{ValidTally};

use rank1::{Plan, Refusal, Tally};

// The limits in the type that a record's numbers have.
// kept: `as`: from usize there is only `try_from`, which the value of a constant cannot call.
const MOST_ROWS: u32 = rank1::MOST_ROWS as u32;

// kept: `as`: from usize there is only `try_from`, which the value of a constant cannot call.
const MOST_MIRRORS: u32 = rank1::MOST_MIRRORS as u32;

// Condition 3 of a record: m over 512, a size over 64 × m, or a zero row at m = 0.
pub(crate) fn check_tally(tally: Tally) -> Result<(), Refusal>
    ensures { refused result ≡ bad_tally tally }
{
    if MOST_ROWS < tally.m || MOST_MIRRORS * tally.m < tally.size || (tally.zero && tally.m == 0) {
        return Err(Refusal::Length);
    }
    Ok(())
}

// The bound by the plan.
pub(crate) fn least_of(plan: Plan, tally: Tally) -> u32
    requires { ValidTally tally }
    ensures { result ≡ least_modulus (plan_number plan) tally }
{
    let Tally { m, size, zero } = tally;
    match plan {
        Plan::Integration => if u32::from(zero) < m { 2 } else { 1 },
        Plan::A => if zero { size } else { size + 1 },
        Plan::B => if zero { 2 * m - 1 } else { 2 * m + 1 },
        Plan::Fourier | Plan::C => m.max(1),
    }
}
