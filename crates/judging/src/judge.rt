// A judge is fed a trace, and gives its verdict at the end. It does not grow with the trace.
ghost use Rattle.std.specs.Prelude.{◌≡◌, ℕ, length, IfOk, Ok, Result};
ghost use Rattle.basics.specs.declared.Refusal.{Refusal};
ghost use Rattle.trace_text.specs.Text.{TextReading, text_start, text_whole};
ghost use Rattle.judging.specs.Fed.{limited, fed_char, fed_byte, fed_on};
ghost use Rattle.judging.specs.Judges.{Holds, Follows, Reads, Judges};

use basics::Refusal;
use race_check::Check;
use std::alloc::{AllocError, Global};
use trace::{Event, Verdict};
use trace_text::TraceReader;

#[derive(Drop)]
pub struct Judge {
    reader: TraceReader,
    check: Check,
}

impl Judge {
    // Nothing was read yet.
    pub fn new(heap: Global) -> Result<Judge, AllocError>
        ensures { IfOk result (λ j. Holds j text_start) }
    {
        Ok(Judge {
            reader: TraceReader::new(),
            check: Check::new(heap)?,
        })
    }

    // A piece of text more, cut anywhere.
    pub fn text(&mut self, piece: &[u8]) -> Result<(), Refusal>
        ensures { (t : TextReading) → Holds self.old t → Follows result self.new (fed_on fed_char (Ok t) piece.now) }
    {
        self.each(piece, TraceReader::char)
    }

    // A piece of raw bytes more, cut anywhere.
    pub fn bytes(&mut self, piece: &[u8]) -> Result<(), Refusal>
        ensures { (t : TextReading) → Holds self.old t → Follows result self.new (fed_on fed_byte (Ok t) piece.now) }
    {
        self.each(piece, TraceReader::byte)
    }

    // The verdict on all that was read, which must not end within an event.
    pub fn verdict(&self) -> Result<Verdict, Refusal>
        ensures { (t : TextReading) → Holds self.now t → Judges result (text_whole (Ok t)) }
    {
        if !self.reader.is_whole() {
            return Err(Refusal::Malformed);
        }
        Ok(self.check.verdict())
    }

    // How many events were read.
    pub fn events(&self) -> u32
        ensures { (t : TextReading) → Holds self.now t → result ≡ length t.reading.trace }
    {
        self.check.places()
    }

    // A piece read one by one, as characters or as bytes, up to the first that is refused.
    fn each<F: Fn(&mut TraceReader, u8) -> Result<Option<Event>, Refusal>>(
        &mut self,
        piece: &[u8],
        read: F,
    ) -> Result<(), Refusal>
        requires { F.IsAlwaysCallable read }
        ensures { (step : TextReading → ℕ → Result TextReading Refusal) → Reads (F.post read) step → (t : TextReading) → Holds self.old t → Follows result self.new (fed_on (λ u c. limited (step u c)) (Ok t) piece.now) }
    {
        for c in piece {
            self.one(*c, &read)?;
        }
        Ok(())
    }

    // One character or byte more: the event that it makes, if any, is checked.
    fn one<F: Fn(&mut TraceReader, u8) -> Result<Option<Event>, Refusal>>(
        &mut self,
        c: u8,
        read: &F,
    ) -> Result<(), Refusal>
        requires { F.IsAlwaysCallable read.now }
        ensures { (step : TextReading → ℕ → Result TextReading Refusal) → Reads (F.post read.now) step → (t : TextReading) → Holds self.old t → Follows result self.new (limited (step t c)) }
    {
        match read(&mut self.reader, c)? {
            Some(event) => self.check.step(event),
            None => Ok(()),
        }
    }
}
