// The program `trials`: many requests in one input, each behind its length in two bytes, the lower first; it writes the answers one
// after the other. A length of 2,048 or more ends the input. The requests and the answers of the brute-force planner are made by
// tests/requests.py and stored beside this folder.
#![tactic(auto)]

use input::read_full;
use request::ANSWER_BYTES;
use std::io;

// The places of a request: one that has as many bytes ends the input.
const PLACES: usize = 2048;

// Writes the answer to a request.
fn write_answer(rt: &impl Print, text: &[u8]) -> io::Result<()> {
    let mut out = [0u8; ANSWER_BYTES];
    let size = request::answer_whole(text, &mut out);
    rt.write_all(&out[..size])
}

// Fills the places with a request and writes its answer.
fn answer_text(rt: &(impl Input + Print), text: &mut [u8]) -> io::Result<()> {
    let got = read_full(rt, text)?;
    write_answer(rt, &text[..got])
}

// Reads one request and writes its answer. False at the end of the input.
fn answer_next(rt: &(impl Input + Print)) -> io::Result<bool> {
    let mut head = [0u8; 2];
    let mut text = [0u8; PLACES];
    if read_full(rt, &mut head)? < 2 {
        return Ok(false);
    }
    let size = usize::from(u16::from_le_bytes(head));
    if PLACES <= size {
        return Ok(false);
    }
    answer_text(rt, &mut text[..size])?;
    Ok(true)
}

// At most 8,192 requests.
// kept: the turns are counted, since a `while` would have to be shown to end.
fn main(rt: HostRuntime) -> io::Result<()> {
    for _ in 0..8192 {
        if !answer_next(&rt)? {
            break;
        }
    }
    Ok(())
}
