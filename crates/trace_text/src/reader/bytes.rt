// What one byte more makes.
ghost use Rattle.std.specs.Prelude.{◌≡◌, ◌<◌, [], ◌∷◌, ◌++◌, length, is_ok, if◌then◌else◌, ◌==◌};
ghost use Rattle.trace.specs.Bytes.{event_with, part_with};
ghost use Rattle.trace_text.specs.Parts.{part_of};

use crate::reader::Reader;
use basics::Refusal;
use trace::{Event, decode};

impl Reader {
    pub fn new() -> Reader
        ensures { part_of result ≡ [] }
    {
        Reader {
            part: [0; 9],
            filled: 0,
        }
    }

    // One byte more: the tenth makes an event. Where those ten are no event, they are refused and nothing changes.
    pub fn byte(&mut self, byte: u8) -> Result<Option<Event>, Refusal>
        ensures event { result ≡ event_with (part_of self.old) byte }
        ensures part { part_of self.new ≡ (if is_ok result then part_with (part_of self.old) byte else part_of self.old) }
    {
        if self.filled < 9 {
            self.push(byte);
            return Ok(None);
        }
        let [a, b, c, d, e, f, g, h, i] = self.part;
        let event = decode(&[a, b, c, d, e, f, g, h, i, byte])?;
        *self = Reader::new();
        Ok(Some(event))
    }

    // One byte behind the others, where an event is not made yet.
    fn push(&mut self, byte: u8)
        requires { length (part_of self.old) < 9 }
        ensures { part_of self.new ≡ part_of self.old ++ byte ∷ [] }
    {
        self.part[self.filled] = byte;
        self.filled += 1;
    }

    // No event is cut short here.
    pub fn is_whole(&self) -> bool
        ensures { result ≡ (length (part_of self.now) == 0) }
    {
        self.filled == 0
    }
}
