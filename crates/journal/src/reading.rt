// The journal reader: the lent bytes and the offset reached. Its methods are thin: the work is left to `next_at`. `read` has plain
// parameters, for callers that keep the offset themselves.
ghost use Rattle.std.specs.Prelude.{◌≡◌};
ghost use Rattle.journal.specs.Steps.{Stepped, reached_by};

use crate::commands::{Step, next_at, reached};
use refusals::Refusal;

#[derive(Clone, Copy)]
pub struct Reader<'a> {
    pub bytes: &'a [u8],
    pub at: usize,
}

impl<'a> Reader<'a> {
    // A reader of these bytes that has reached an offset; 0 is the beginning.
    pub fn new(bytes: &'a [u8], at: usize) -> Reader<'a>
        ensures { (result.bytes ≡ bytes.entry) × (result.at ≡ at) }
    {
        Reader { bytes, at }
    }

    // What stands where the reader is, with m symbols a sketch.
    pub fn next(self, m: u8) -> Step<Refusal>
        ensures { Stepped m self.entry.bytes.now self.entry.at result }
    {
        next_at(self.bytes, self.at, m)
    }

    // The reader behind a command that was taken; where it was refused, and at the end, the offset stays.
    pub fn advance<R: Copy>(self, step: Step<R>) -> Reader<'a>
        ensures { (result.bytes ≡ self.entry.bytes) × (result.at ≡ reached_by step self.entry.at) }
    {
        Reader {
            bytes: self.bytes,
            at: reached(step, self.at),
        }
    }
}

// What stands at an offset of the bytes.
pub fn read(bytes: &[u8], at: usize, m: u8) -> Step<Refusal>
    ensures { Stepped m bytes.now at result }
{
    Reader::new(bytes, at).next(m)
}
