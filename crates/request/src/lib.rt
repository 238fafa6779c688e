// The text form (document 01's ticket): bytes in, bytes out. A text is read, planned for by the smallest plan, and the answer's
// text is written; a wrong text is refused by its number.

#![tactic(auto)]

mod reading;
mod writing;

ghost use Rattle.std.specs.Prelude.{◌≡◌, []};
ghost use Rattle.rank1.specs.Named.{plan_number};
ghost use Rattle.request.specs.Reading.{request};
ghost use Rattle.request.specs.Answer.{Answers, AnswerTo};
ghost use Rattle.request.specs.Inner.{Counted};
ghost use Rattle.request.specs.Reply.{Stands, AnsweredWith};

use rank1::{MOST_AXES, MOST_ROWS, Plan};
use reading::{ROW_PLACES, Request};
use writing::Writer;

// The most bytes that a request may have.
pub const TEXT_BYTES: usize = 32768;

// The most bytes that an answer has.
pub const ANSWER_BYTES: usize = 8192;

// The answer to a text.
fn write_answer(text: &[u8], writer: &mut Writer)
    requires { writer.old ≡ [] }
    ensures { AnswerTo text.now writer.new }
{
    let mut places = [0i16; ROW_PLACES];
    match reading::read_request(text, &mut places) {
        Ok(asked) => answer_request(&asked, writer),
        Err(refusal) => writer.refusal(refusal),
    }
}

// The answer to a request.
fn answer_request(asked: &Request, writer: &mut Writer)
    requires { Counted (plan_number asked.now.plan) asked.now.d asked.now.rows.now × (writer.old ≡ []) }
    ensures { Answers (request (plan_number asked.now.plan) asked.now.d asked.now.ceiling asked.now.rows.now) writer.new }
{
    let Request {
        plan,
        d,
        rows,
        ceiling,
    } = *asked;
    let mut z = [0u16; MOST_AXES];
    let found = planner::search_smallest(u8::from(plan), d, rows, ceiling, &mut z[..d]);
    // The form that document 01 names for the answer of a search.
    let Ok(n) = found else {
        if let Err(refusal) = found {
            writer.refusal(refusal);
        }
        return;
    };
    writer.plan(n, &z[..d]);
    if plan != Plan::Integration {
        let mut pairs = [0u16; 2 * MOST_ROWS];
        let size = 2 * (rows.len() / d);
        let _ = planner::residue_map(u8::from(plan), d, rows, n, &z[..d], &mut pairs[..size]);
        writer.map(&pairs[..size]);
    }
}

// A writer with the answer to a text in it.
fn answered(text: &[u8]) -> Writer
    ensures { AnswerTo text.now result }
{
    let mut writer = Writer {
        places: [0; ANSWER_BYTES],
        at: 0,
    };
    write_answer(text, &mut writer);
    writer
}

// Answers a text in places that have room for every answer, and returns how many bytes it has. Places past it hold what they held.
// kept: places and a count, for the reason at `Writer`.
pub fn answer_whole(text: &[u8], out: &mut [u8; ANSWER_BYTES]) -> usize
    ensures { Stands (AnswerTo text.now) out.old out.new result }
{
    answered(text).copy_to(out)
}

// Answers a text, and returns how many bytes the answer has. Places past it hold what they held; where there is not room nothing is
// written.
// kept: places and a count, for the reason at `Writer`.
pub fn answer(text: &[u8], out: &mut [u8]) -> Option<usize>
    ensures { AnsweredWith text.now out.old out.new result }
{
    let writer = answered(text);
    if out.len() < writer.written().len() {
        return None;
    }
    Some(writer.copy_to(out))
}
