// Writing an answer: numbers, a refusal, a plan, a map. Each method writes behind what stands in the writer.

ghost use Rattle.std.specs.Prelude.{◌≡◌, ◌∷◌, [], ◌++◌, ◌+◌, ◌*◌, ◌≤◌, ◌<◌, ℕ, List, length, take, drop};
ghost use Rattle.rank1.specs.Named.{number};
ghost use Rattle.request.specs.declared.TheConstants.{ANSWER_BYTES};
ghost use Rattle.request.specs.Text.{number_text};
ghost use Rattle.request.specs.Answer.{refusal_text, vector_text, map_text};

use crate::ANSWER_BYTES;
use rank1::Refusal;
use std::marker::Model;

// An answer while it is written: it stands in the first `at` of places that have room for every answer.
// kept: places and a count: a `Vec` asks for the heap, and the kit's arrayvec would be one more library that the gate takes as built
// (docs/DECISIONS.md, "No heap").
#[derive(Drop)]
pub(crate) struct Writer {
    pub(crate) places: [u8; ANSWER_BYTES],
    pub(crate) at: usize,
}

impl Model for Writer {
    ghost Value = { List ℕ };

    ghost view = { λ w. take w.at w.places };

    ghost invariant = { λ w. w.at ≤ ANSWER_BYTES };
}

impl Writer {
    // What stands in it.
    pub(crate) fn written(&self) -> &[u8]
        ensures { result.now ≡ self.now }
    {
        &self.places[..self.at]
    }

    // Copies what stands in it to the front of places that have room for it, and returns how many bytes that is.
    pub(crate) fn copy_to(&self, out: &mut [u8]) -> usize
        requires { length self.now ≤ length out.old }
        ensures size { result ≡ length self.now }
        ensures copied { out.new ≡ self.now ++ drop (length self.now) out.old }
    {
        let written = self.written();
        out[..written.len()].copy_from_slice(written);
        written.len()
    }

    // A refusal.
    pub(crate) fn refusal(&mut self, refusal: Refusal)
        requires { length self.old + 14 ≤ ANSWER_BYTES }
        ensures { self.new ≡ self.old ++ refusal_text (number refusal) }
    {
        self.bytes(b"refused ");
        self.number(u16::from(u8::from(refusal)));
        self.byte(b'\n');
    }

    // A plan's first line. kept: n and z come one by one from the planner, once; a struct of them would be made for this call.
    pub(crate) fn plan(&mut self, n: u16, z: &[u16])
        requires { length self.old + 6 * length z.now + 6 ≤ ANSWER_BYTES }
        ensures { self.new ≡ self.old ++ number_text n ++ vector_text z.now }
    {
        self.number(n);
        self.vector(z);
    }

    // The map, a line for each pair of a residue and its c.
    // kept: two numbers for each row in one run, as planner's call, which C has, writes them.
    pub(crate) fn map(&mut self, pairs: &[u16])
        requires { length self.old + 6 * length pairs.now ≤ ANSWER_BYTES }
        ensures { self.new ≡ self.old ++ map_text pairs.now }
    {
        for pair in pairs.chunks_exact(2) {
            self.number(pair[0]);
            self.byte(b' ');
            self.number(pair[1]);
            self.byte(b'\n');
        }
    }

    // The components of z, a space before each, and the line's end.
    fn vector(&mut self, z: &[u16])
        requires { length self.old + 6 * length z.now + 1 ≤ ANSWER_BYTES }
        ensures { self.new ≡ self.old ++ vector_text z.now }
    {
        for x in z {
            self.byte(b' ');
            self.number(*x);
        }
        self.byte(b'\n');
    }

    // A number, digit by digit: those before the last one first.
    // kept: by hand: `write!` promises its bytes on a `String` alone, which asks for the heap, and the kit's itoa would be one more library that the
    // gate takes as built (docs/DECISIONS.md, "No heap"). A digit is at most 9; `try_from` would have an `Err` that never comes.
    fn number(&mut self, x: u16)
        requires { length self.old + 5 ≤ ANSWER_BYTES }
        ensures text { self.new ≡ self.old ++ number_text x }
        ensures short { length self.new ≤ length self.old + 5 }
    {
        if x < 10 {
            self.byte(b'0' + x as u8);
            return;
        }
        self.number(x / 10);
        self.byte(b'0' + (x % 10) as u8);
    }

    // Some bytes.
    fn bytes(&mut self, bytes: &[u8])
        requires { length self.old + length bytes.now ≤ ANSWER_BYTES }
        ensures { self.new ≡ self.old ++ bytes.now }
    {
        let end = self.at + bytes.len();
        self.places[self.at..end].copy_from_slice(bytes);
        self.at = end;
    }

    // One byte.
    fn byte(&mut self, b: u8)
        requires { length self.old < ANSWER_BYTES }
        ensures { self.new ≡ self.old ++ b ∷ [] }
    {
        self.places[self.at] = b;
        // kept: this is the struct's own count of its bytes, and no loop's counter.
        self.at += 1;
    }
}
