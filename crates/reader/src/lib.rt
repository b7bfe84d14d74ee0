// A notice reader that keeps the lent bytes and its place together, with one action: the next number.
// A refusal leaves its place as it stood. The number reader does the work; `next` only keeps the place.
#![tactic(auto)]

ghost use Rattle.std.specs.Prelude.{◌≡◌};
ghost use Rattle.groups.specs.Number.{number_at};
ghost use Rattle.reader.specs.Reader.{place_after};

use groups::{Number, number_at};

// The lent bytes, and the place of the number that is next.
#[derive(Drop)]
pub struct Reader<'a> {
    pub bytes: &'a [u8],
    pub at: usize,
}

impl<'a> Reader<'a> {
    // At the start of the caller's own bytes.
    pub fn new(bytes: &'a [u8]) -> Reader<'a>
        ensures bytes { result.bytes ≡ bytes.entry }
        ensures place { result.at ≡ 0 }
    {
        Reader { bytes, at: 0 }
    }

    // The number at this place. The place moves on to the next one; a refusal leaves it.
    pub fn next(&mut self) -> Number
        ensures answer { result ≡ number_at self.old.bytes.now self.old.at }
        ensures bytes { self.new.bytes ≡ self.old.bytes }
        ensures place { self.new.at ≡ place_after self.old.bytes.now self.old.at }
    {
        let number = number_at(self.bytes, self.at);
        let Ok((_, next)) = number else {
            return number;
        };
        self.at = next;
        number
    }
}

// A number with the place that the reader has after it.
#[derive(Drop)]
pub struct Step {
    pub number: Number,
    pub at: usize,
}

// One number through a reader that stands at a place, for callers that keep the place themselves.
pub fn next_at(bytes: &[u8], at: usize) -> Step
    ensures answer { result.number ≡ number_at bytes.now at }
    ensures place { result.at ≡ place_after bytes.now at }
{
    let mut reader = Reader { bytes, at };
    let number = reader.next();
    Step {
        number,
        at: reader.at,
    }
}
