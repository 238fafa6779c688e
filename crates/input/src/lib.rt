// What the programs read of standard input goes into places of their own, of a fixed number.
// kept: places and a count: a `Vec` would ask for the heap, and no heap is asked for anything.

#![tactic(auto)]

ghost use Rattle.std.specs.Prelude.{◌≤◌, ◌<◌, IfOk, length, take};
ghost use Rattle.std.specs.Io.KnownBytes.{Consumes, IsAtEnd};

use std::io;
use std::io::{ErrorKind, Read};

// Fills the places with what the reader has, up to its end or theirs, and says how many bytes that were. A read that was interrupted is
// made again.
pub fn fill<R: Read>(reader: &mut R, out: &mut [u8]) -> io::Result<usize>
    ensures within { IfOk result (λ got. got ≤ length out.old) }
    ensures bytes { IfOk result (λ got. Consumes (R.remaining reader.old) (R.remaining reader.new) (take got out.new)) }
    ensures end { IfOk result (λ got. got < length out.old → IsAtEnd (R.remaining reader.new)) }
{
    let mut got = 0;
    // kept: a `loop` would have to be shown to end, and nothing bounds how often a read is interrupted, so the turns are counted.
    for _ in 0..u64::MAX {
        if got == out.len() {
            return Ok(got);
        }
        match reader.read(&mut out[got..]) {
            Ok(0) => return Ok(got),
            Ok(size) => got += size,
            Err(e) => {
                if e.kind() != ErrorKind::Interrupted {
                    return Err(e);
                }
            }
        }
    }
    Err(io::Error::from(ErrorKind::Interrupted))
}

// The same of standard input.
pub fn read_full(rt: &impl Input, out: &mut [u8]) -> io::Result<usize>
    ensures { IfOk result (λ got. got ≤ length out.old) }
{
    fill(&mut rt.reader(), out)
}
