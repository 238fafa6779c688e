// Validation: the conditions 1 to 8 of document 01's refusal table, those of a list with a row more and of corners (document 02, b and c), told by `?`.
// kept: the plan is a number, and d and the rows, n and z stand apart: what is tested here is what a caller was given, any number and any length, and
// C passes them so.

#![tactic(auto)]

ghost use Rattle.std.specs.Prelude.{◌≡◌, List, [], ◌∷◌, ◌++◌, ◌≤◌, ℤ, length};
ghost use Rattle.rank1.specs.Tests.{any, same_row};
ghost use Rattle.rank1.specs.Index.{index_list};
ghost use Rattle.rank1.specs.Named.{refused};
ghost use Rattle.rank1.specs.Refusal.{outside, first_of, bad_plan, bad_map_plan, bad_axes, bad_row, bad_length, bad_component, equal_rows, bad_modulus, bad_vector, bad_places, list_conditions, pair_conditions, longer_conditions, corner_conditions};

use rank1::{LARGEST_COMPONENT, LARGEST_MODULUS, MOST_AXES, MOST_ROWS, Plan, Refusal};

// Condition 4 of one component: larger than 255 in size, or negative for plans 2, 3 and 4.
fn out_of_range(plan: u8, x: i16) -> bool
    ensures { result ≡ outside plan x }
{
    LARGEST_COMPONENT < x.unsigned_abs() || (u8::from(Plan::A) <= plan && x < 0)
}

// Whether a row is one of the rows, as long as it, of a run. (One of no components is none.)
pub fn stands(row: &[i16], rows: &[i16]) -> bool
    ensures { result ≡ any (same_row row.now) (index_list (length row.now) rows.now) }
{
    !row.is_empty() && rows.chunks_exact(row.len()).any(|other| row == other)
}

// Condition 1: plan above 4, so that it names none.
pub fn check_plan(plan: u8) -> Result<(), Refusal>
    ensures { refused result ≡ bad_plan plan }
{
    Plan::try_from(plan).map(|_| ())
}

// Condition 1 of map, spread and gather: plan above 4, or plan 0.
pub fn check_map_plan(plan: u8) -> Result<(), Refusal>
    ensures { refused result ≡ bad_map_plan plan }
{
    if Plan::try_from(plan)? == Plan::Integration {
        return Err(Refusal::Plan);
    }
    Ok(())
}

// Condition 2: d not 1 to 6.
pub fn check_axes(d: usize) -> Result<(), Refusal>
    ensures { refused result ≡ bad_axes d }
{
    if d < 1 || MOST_AXES < d {
        return Err(Refusal::Axes);
    }
    Ok(())
}

// Condition 3 of as many numbers: no multiple of d, or more than 512 rows.
// kept: that d is not 0 is asked by three functions, which stand behind check_axes; a type for it would be made for these calls.
fn check_length(d: usize, size: usize) -> Result<(), Refusal>
    requires { 1 ≤ d }
    ensures { (xs : List ℤ) → length xs ≡ size → refused result ≡ bad_length d xs }
{
    if size % d != 0 || MOST_ROWS < size / d {
        return Err(Refusal::Length);
    }
    Ok(())
}

// Condition 4: some component is outside its range.
fn check_components(plan: u8, rows: &[i16]) -> Result<(), Refusal>
    ensures { refused result ≡ bad_component plan rows.now }
{
    if rows.iter().any(|x| out_of_range(plan, *x)) {
        return Err(Refusal::Component);
    }
    Ok(())
}

// Condition 5: two rows are equal.
fn check_different(d: usize, rows: &[i16]) -> Result<(), Refusal>
    requires { 1 ≤ d }
    ensures { refused result ≡ equal_rows d rows.now }
{
    let mut rest = rows;
    // kept: a row is held against all that stand behind it, and `chunks_exact` hands over the row alone; with its number those behind would be cut
    // out by an index.
    while let Some((row, behind)) = rest.split_at_checked(d) {
        if stands(row, behind) {
            return Err(Refusal::EqualRows);
        }
        rest = behind;
    }
    Ok(())
}

// Conditions 2 to 5 of a list.
pub fn check_list(plan: u8, d: usize, rows: &[i16]) -> Result<(), Refusal>
    ensures { refused result ≡ first_of (list_conditions plan d rows.now) }
{
    check_axes(d)?;
    check_length(d, rows.len())?;
    check_components(plan, rows)?;
    check_different(d, rows)
}

// Condition 3 of a list with a row more (document 02, b): the row is not d numbers, or the longer list has a wrong length.
fn check_longer_length(d: usize, rows: &[i16], row: &[i16]) -> Result<(), Refusal>
    requires { (1 ≤ d) × (d ≤ 6) }
    ensures { refused result ≡ first_of (bad_row d row.now ∷ bad_length d (rows.now ++ row.now) ∷ []) }
{
    if row.len() != d {
        return Err(Refusal::Length);
    }
    check_length(d, rows.len() + d)
}

// Conditions 2 to 5 of a list with a row more.
#[tactic(auto, using(rank1::proofs::LongerLaws::longer_parts))]
pub fn check_longer(plan: u8, d: usize, rows: &[i16], row: &[i16]) -> Result<(), Refusal>
    ensures { refused result ≡ first_of (longer_conditions plan d rows.now row.now) }
{
    check_axes(d)?;
    check_longer_length(d, rows, row)?;
    check_components(plan, rows)?;
    check_components(plan, row)?;
    check_different(d, rows)?;
    if stands(row, rows) {
        return Err(Refusal::EqualRows);
    }
    Ok(())
}

// Conditions 2 to 4 of corners (document 02, c): 3 is only a length that is no multiple of d, and no component may be negative.
pub fn check_corners(d: usize, corners: &[i16]) -> Result<(), Refusal>
    ensures { refused result ≡ first_of (corner_conditions d corners.now) }
{
    check_axes(d)?;
    if corners.len() % d != 0 {
        return Err(Refusal::Length);
    }
    check_components(u8::from(Plan::A), corners)
}

// Condition 6: n or N not 1 to 8192.
// kept: it differs from `check_axes` in its type, its limit and its refusal, which is all that it is made of.
pub fn check_modulus(n: u16) -> Result<(), Refusal>
    ensures { refused result ≡ bad_modulus n }
{
    if n < 1 || LARGEST_MODULUS < n {
        return Err(Refusal::Modulus);
    }
    Ok(())
}

// Condition 7: z not d long, or a component n or more.
fn check_vector(d: usize, n: u16, z: &[u16]) -> Result<(), Refusal>
    ensures { refused result ≡ bad_vector d n z.now }
{
    if z.len() != d || z.iter().any(|x| n <= *x) {
        return Err(Refusal::Vector);
    }
    Ok(())
}

// Conditions 6 and 7 of a pair n, z.
pub fn check_pair(d: usize, n: u16, z: &[u16]) -> Result<(), Refusal>
    ensures { refused result ≡ first_of (pair_conditions d n z.now) }
{
    check_modulus(n)?;
    check_vector(d, n, z)
}

// Condition 8: not the exact length.
pub fn check_places(places: usize, size: usize) -> Result<(), Refusal>
    ensures { refused result ≡ bad_places places size }
{
    if places != size {
        Err(Refusal::Places)
    } else {
        Ok(())
    }
}

// Conditions 2 to 7 of a list and a pair.
pub fn check_list_pair(plan: u8, d: usize, rows: &[i16], n: u16, z: &[u16]) -> Result<(), Refusal>
    ensures { refused result ≡ first_of (list_conditions plan d rows.now ++ pair_conditions d n z.now) }
{
    check_list(plan, d, rows)?;
    check_pair(d, n, z)
}
