// Reading a request: fields, lines, the whole text. A reader takes what it reads from the front of the text and keeps what is left.

ghost use Rattle.std.specs.Prelude.{◌≡◌, ◌*◌, ◌≤◌, ◌<◌, min, true, None, ℕ, List, length, take_while, IfOk};
ghost use Rattle.rank1.specs.Named.{plan_number, refused};
ghost use Rattle.rank1.specs.Tests.{every};
ghost use Rattle.request.specs.Text.{is_digit, decimal};
ghost use Rattle.request.specs.Reading.{got, expect, read_number, read_signed, read_line, read_rows, after_rows, head_refusal, reading};
ghost use Rattle.request.specs.Inner.{before, clamped, clamped_ceiling, mapped, signed, separator_of, Takes, HeadIs, Fills, HeadIn, AskedIs};

use crate::TEXT_BYTES;
use rank1::{LARGEST_MODULUS, MOST_AXES, MOST_ROWS, Plan, Refusal};
use std::marker::Model;

// The largest ceiling, in the type that a field has. kept: `as`, since the value of a constant calls no `from`.
const MOST_CEILING: usize = LARGEST_MODULUS as usize;

// The most digits of a field.
const MOST_DIGITS: usize = 6;

// The places of the rows' numbers.
pub(crate) const ROW_PLACES: usize = MOST_ROWS * MOST_AXES;

// The fields of line 1.
#[derive(Clone, Copy)]
pub(crate) struct Head {
    plan: usize,
    d: usize,
    m: usize,
    ceiling: usize,
}

// A request: the plan, rows of d numbers, one behind the other, and the ceiling (8193 for any above 8192).
// kept: that the rows are as many as line 1 says (`Counted`) is a clause: one function asks it, and with a ghost field the struct would need a file
// of its own, since specs/Inner, which this file cites, names it.
#[derive(Clone, Copy)]
pub(crate) struct Request<'a> {
    pub(crate) plan: Plan,
    pub(crate) d: usize,
    pub(crate) rows: &'a [i16],
    pub(crate) ceiling: u16,
}

// What is left of a text that is read from its front.
#[derive(Drop)]
pub(crate) struct Reader<'a> {
    left: &'a [u8],
}

impl<'a> Model for Reader<'a> {
    ghost Value = { List ℕ };

    ghost view = { λ r. r.left.now };
}

// The whole text. The rows stand in the lent places.
#[tactic(auto, unfolding(crate::specs::Reading::reading))]
pub(crate) fn read_request<'a>(
    text: &[u8],
    places: &'a mut [i16; ROW_PLACES],
) -> Result<Request<'a>, Refusal>
    ensures { AskedIs (reading text.now) result }
{
    if TEXT_BYTES < text.len() {
        return Err(Refusal::Text);
    }
    let mut reader = Reader { left: text };
    let head = reader.head().ok_or(Refusal::Text)?;
    let plan = head.check()?;
    reader.body(plan, head, places)
}

impl Head {
    // 1, 2, and 3 for m not 0 to 512; else the plan that the number names.
    fn check(self) -> Result<Plan, Refusal>
        ensures number { refused result ≡ head_refusal self.plan self.d self.m }
        ensures named { IfOk result (λ plan. plan_number plan ≡ self.plan) }
    {
        let Ok(number) = u8::try_from(self.plan) else {
            return Err(Refusal::Plan);
        };
        let plan = Plan::try_from(number)?;
        refusal::check_axes(self.d)?;
        if self.m > MOST_ROWS {
            return Err(Refusal::Length);
        }
        Ok(plan)
    }
}

impl<'a> Reader<'a> {
    // The byte b; where it does not stand at the front nothing is taken.
    fn byte(&mut self, b: u8) -> Option<()>
        ensures taken { Takes (expect b (λ left. got tt left) self.old) result self.new }
        ensures kept { result ≡ None → self.new ≡ self.old }
    {
        let (first, left) = self.left.split_first()?;
        if *first != b {
            return None;
        }
        self.left = left;
        Some(())
    }

    // A field without a sign.
    fn number(&mut self) -> Option<usize>
        ensures { Takes (read_number self.old) result self.new }
    {
        let count = digit_count(self.left);
        if count < 1 || MOST_DIGITS < count {
            return None;
        }
        if 1 < count && self.left[0] == b'0' {
            return None;
        }
        let (digits, left) = self.left.split_at(count);
        self.left = left;
        Some(value_of(digits))
    }

    // A field without a sign and the byte b behind it.
    fn field(&mut self, b: u8) -> Option<usize>
        ensures { Takes (before b (read_number self.old)) result self.new }
    {
        let value = self.number()?;
        self.byte(b)?;
        Some(value)
    }

    // Line 1.
    fn head(&mut self) -> Option<Head>
        ensures { HeadIs (read_line read_number 4 self.old) result self.new }
    {
        let plan = self.field(b' ')?;
        let d = self.field(b' ')?;
        let m = self.field(b' ')?;
        let ceiling = self.field(b'\n')?;
        Some(Head {
            plan,
            d,
            m,
            ceiling,
        })
    }

    // A field of a row, clamped, and the byte b behind it.
    fn component(&mut self, b: u8) -> Option<i16>
        ensures { Takes (mapped clamped (before b (read_signed self.old))) result self.new }
    {
        let negative = self.byte(b'-').is_some();
        let value = self.field(b)?;
        if negative && value == 0 {
            return None;
        }
        Some(clamp(value, negative))
    }

    // A row, whose fields stand, clamped, in the places then.
    fn row(&mut self, places: &mut [i16]) -> Option<()>
        requires { 1 ≤ length places.old }
        ensures { Fills (read_line read_signed (length places.old) self.old) result self.new places.new }
    {
        let d = places.len();
        for (j, place) in places.iter_mut().enumerate() {
            *place = self.component(separator(j, d))?;
        }
        Some(())
    }

    // m rows, one behind the other.
    fn rows(&mut self, d: usize, m: usize, places: &mut [i16]) -> Option<()>
        requires { (1 ≤ d) × (length places.old ≡ m * d) }
        ensures { Fills (read_rows d m self.old) result self.new places.new }
    {
        // kept: an index: with `chunks_exact_mut` the proof does not close, since no element is known that is written through it.
        for i in 0..m {
            self.row(&mut places[i * d..i * d + d])?;
        }
        Some(())
    }

    // The rows, and nothing after them.
    fn body<'b>(
        &mut self,
        plan: Plan,
        head: Head,
        places: &'b mut [i16; ROW_PLACES],
    ) -> Result<Request<'b>, Refusal>
        requires { HeadIn (plan_number plan) head.d head.m }
        ensures { AskedIs (after_rows (plan_number plan) head.d head.ceiling (read_rows head.d head.m self.old)) result }
    {
        let Head { d, m, .. } = head;
        let size = m * d;
        self.rows(d, m, &mut places[..size]).ok_or(Refusal::Text)?;
        if !self.left.is_empty() {
            return Err(Refusal::Text);
        }
        Ok(Request {
            plan,
            d,
            rows: &places[..size],
            ceiling: clamp_ceiling(head.ceiling),
        })
    }
}

// How many digits stand at the front of a text, counted up to one more than a field may have.
fn digit_count(text: &[u8]) -> usize
    ensures { result ≡ min 7 (length (take_while is_digit text.now)) }
{
    text.iter()
        .take(MOST_DIGITS + 1)
        .take_while(|b| b.is_ascii_digit())
        .count()
}

// The number that a few digits write.
fn value_of(digits: &[u8]) -> usize
    requires { (length digits.now ≤ 6) × (every is_digit digits.now ≡ true) }
    ensures { result ≡ decimal digits.now }
{
    // kept: tried as a `fold`, whose closure would have to be callable at every value; the bound goes on from digit to digit. `parse` reads a
    // `str`: making it and reading it have an `Err` each that never comes.
    let mut value = 0;
    for digit in digits {
        value = value * 10 + usize::from(*digit - b'0');
    }
    value
}

// The byte behind field j of d: a space, or a newline behind the last.
fn separator(j: usize, d: usize) -> u8
    requires { j < d }
    ensures { result ≡ separator_of j d }
{
    if j + 1 < d { b' ' } else { b'\n' }
}

// A component that is larger than any permitted one as 256.
// kept: the planner refuses 256, in its own order of conditions; an Option would have to be refused here.
fn clamp(value: usize, negative: bool) -> i16
    ensures { result ≡ clamped (signed negative value) }
{
    let Ok(size) = u8::try_from(value) else {
        return 256;
    };
    let x = i16::from(size);
    if negative { -x } else { x }
}

// The ceiling, where one above 8192 stands as 8193.
// kept: the planner refuses 8193, in its own order of conditions; an Option would have to be refused here.
fn clamp_ceiling(ceiling: usize) -> u16
    ensures { result ≡ clamped_ceiling ceiling }
{
    // kept: it is at most 8193; `try_from` would have an `Err` that never comes.
    ceiling.min(MOST_CEILING + 1) as u16
}
