// A trace, read character by character as text, or byte by byte as it is.
ghost use Rattle.std.specs.Prelude.{◌≡◌, List, [], OnErr, if◌then◌else◌};
ghost use Rattle.trace.specs.declared.Event.{Event};
ghost use Rattle.trace_text.specs.Text.{text_start, char_on, byte_on, text_whole};
ghost use Rattle.trace_text.specs.Readers.{reading_of, ReadsOn};

use crate::{Mode, Reader};
use basics::Refusal;
use trace::Event;

// Where in the text the reading is, and where in an event.
#[derive(Drop)]
pub struct TraceReader {
    mode: Mode,
    reader: Reader,
}

impl TraceReader {
    // Nothing was read yet.
    pub fn new() -> TraceReader
        ensures { reading_of result [] ≡ text_start }
    {
        TraceReader {
            mode: Mode::LineStart,
            reader: Reader::new(),
        }
    }

    // One character of a text more, and the event that it makes, if any. Where it is refused nothing changes.
    #[tactic(auto, using(crate::proofs::KnownEvents::event_known))]
    pub fn char(&mut self, c: u8) -> Result<Option<Event>, Refusal>
        ensures read { (es : List Event) → ReadsOn result self.new es (char_on (reading_of self.old es) c) }
        ensures refused { (es : List Event) → OnErr result (reading_of self.new es ≡ reading_of self.old es) }
    {
        let (mode, byte) = self.mode.next_char(c)?;
        let event = match byte {
            Some(made) => self.reader.byte(made)?,
            None => None,
        };
        self.mode = mode;
        Ok(event)
    }

    // One raw byte more, the same.
    #[tactic(auto, using(crate::proofs::KnownEvents::event_known))]
    pub fn byte(&mut self, byte: u8) -> Result<Option<Event>, Refusal>
        ensures read { (es : List Event) → ReadsOn result self.new es (byte_on (reading_of self.old es) byte) }
        ensures refused { (es : List Event) → OnErr result (reading_of self.new es ≡ reading_of self.old es) }
    {
        self.reader.byte(byte)
    }

    // Neither a byte nor an event is cut short here.
    pub fn is_whole(&self) -> bool
        ensures { (es : List Event) → text_whole (Ok (reading_of self.now es)) ≡ (if result then Ok es else Err Refusal.Malformed) }
    {
        self.mode.may_end() && self.reader.is_whole()
    }
}
