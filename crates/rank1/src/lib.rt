// Rank-1 lattices: the definitions that every contract cites (specs/), the laws of them (proofs/), the limits, and the types that the calls hand
// over.

#![tactic(auto)]

ghost use Rattle.std.specs.Prelude.{◌≡◌};
ghost use Rattle.rank1.specs.Named.{number, refused, plan_number, Names};

// The limits of document 01: the most axes and rows of a list, the largest component, by size, and the largest modulus. The other crates take
// them from here, under these names or in the types that they need.
pub const MOST_AXES: usize = 6;

pub const MOST_ROWS: usize = 512;

pub const LARGEST_COMPONENT: u16 = 255;

pub const LARGEST_MODULUS: u16 = 8192;

// The most mirrors of a row: 2 to the number of axes.
pub const MOST_MIRRORS: usize = 64;

// Why a call is refused: each condition of the refusal table, by the number that callers are told.
#[derive(Clone, Copy, PartialEq, Eq)]
pub enum Refusal {
    Plan = 1,
    Axes = 2,
    Length = 3,
    Component = 4,
    EqualRows = 5,
    Modulus = 6,
    Vector = 7,
    Places = 8,
    NoPlan = 9,
    Inadmissible = 10,
    Sums = 11,
    Text = 12,
    Corners = 13,
}

impl From<Refusal> for u8 {
    ghost from_gives = { λ refusal given. given ≡ number refusal };

    // kept: the one place where a refusal becomes its number, for C and the text form.
    fn from(refusal: Refusal) -> u8 {
        refusal as u8
    }
}

// The number that a call answers with: that of its refusal, 0 for none. kept: C is told it as a number.
pub fn number_of<T>(answer: &Result<T, Refusal>) -> u8
    ensures { result ≡ refused answer.now }
{
    match answer {
        Ok(_) => 0,
        Err(refusal) => u8::from(*refusal),
    }
}

// The five plans: what a term list is to be kept apart by.
#[derive(Clone, Copy, PartialEq, Eq)]
pub enum Plan {
    Integration = 0,
    Fourier = 1,
    A = 2,
    B = 3,
    C = 4,
}

impl From<Plan> for u8 {
    ghost from_gives = { λ plan given. given ≡ plan_number plan };

    // kept: the one place where a plan becomes its number, for the calls that take any number, as C passes it.
    fn from(plan: Plan) -> u8 {
        plan as u8
    }
}

// The plan with a number; a number above 4 is no plan's.
impl TryFrom<u8> for Plan {
    type Error = Refusal;

    ghost try_from_gives = { Names };

    fn try_from(number: u8) -> Result<Plan, Refusal> {
        match number {
            0 => Ok(Plan::Integration),
            1 => Ok(Plan::Fourier),
            2 => Ok(Plan::A),
            3 => Ok(Plan::B),
            4 => Ok(Plan::C),
            _ => Err(Refusal::Plan),
        }
    }
}

// What is kept of a list while its terms are typed (document 02, b): m, the size of M (for plans 0 and 1 it is m), and whether the
// zero row is in. It goes by value. The numbers are wider than a true record needs, so that too large ones are refused, not cut off.
#[derive(Clone, Copy, PartialEq, Eq)]
pub struct Tally {
    pub m: u32,
    pub size: u32,
    pub zero: bool,
}

// The cases of a tent numerator (document 02, e): the residue is zero, any other below half of n, exactly half, or above half. Which
// of them a residue meets, and what each gives, is said in specs/Tent.antt.
#[derive(Clone, Copy, PartialEq, Eq)]
pub enum TentCase {
    Zero,
    BelowHalf,
    Half,
    AboveHalf,
}
