// The tent numerator of a residue r below n, over the denominator n, by cases (document 02, e):
//
//     residue r                     case         numerator
//     zero                          Zero         0
//     any other below half of n     BelowHalf    2r
//     exactly half of n (2r = n)    Half         n
//     above half of n               AboveHalf    2n - 2r
//
// At exactly half 2r, n and 2n - 2r are one number, so a wrong border would not be seen in the numerator. Which case r meets is
// therefore an answer of its own, and what a case gives is another.
// kept: n and r are two numbers as in document 02's table; a struct of them would be made for one call and opened in each line.

ghost use Rattle.std.specs.Prelude.{◌≡◌, ◌≤◌, ◌<◌};
ghost use Rattle.rank1.specs.Points.{tent};
ghost use Rattle.rank1.specs.Tent.{Meets, numerator};
ghost use Rattle.planner.specs.Sizes.{largest_modulus};

use rank1::TentCase;

// Which case r meets, of which there is exactly one: the first two columns of the table.
fn tent_case(n: u16, r: u16) -> TentCase
    requires { (r < n) × (n ≤ largest_modulus) }
    ensures { Meets n r result }
{
    if r == 0 {
        TentCase::Zero
    } else if 2 * r < n {
        TentCase::BelowHalf
    } else if 2 * r == n {
        TentCase::Half
    } else {
        TentCase::AboveHalf
    }
}

// What a case gives: the last column of the table.
fn case_numerator(n: u16, r: u16, case: TentCase) -> u16
    requires { (r < n) × (n ≤ largest_modulus) }
    ensures { result ≡ numerator n r case }
{
    match case {
        TentCase::Zero => 0,
        TentCase::BelowHalf => 2 * r,
        TentCase::Half => n,
        TentCase::AboveHalf => 2 * n - 2 * r,
    }
}

// The tent numerator: what the case gives that r meets. It is document 01's, the smaller of 2r and 2n - 2r.
pub(crate) fn tent_numerator(n: u16, r: u16) -> u16
    requires { (r < n) × (n ≤ largest_modulus) }
    ensures { result ≡ tent n r }
{
    let met = tent_case(n, r);
    case_numerator(n, r, met)
}
