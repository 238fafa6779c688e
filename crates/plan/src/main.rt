// The program `plan`: reads a request from standard input and writes the answer to standard output. One byte more than a request may
// have is read, so that a longer one is seen; what matters is proved in `request`.
#![tactic(auto)]

use input::read_full;
use request::{ANSWER_BYTES, TEXT_BYTES};
use std::io;

fn main(rt: HostRuntime) -> io::Result<()> {
    let mut text = [0u8; TEXT_BYTES + 1];
    let mut out = [0u8; ANSWER_BYTES];
    let got = read_full(&rt, &mut text)?;
    let size = request::answer_whole(&text[..got], &mut out);
    rt.write_all(&out[..size])
}
