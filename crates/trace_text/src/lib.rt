// A trace as text or bytes, read piece by piece: characters to bytes, bytes to events.
#![tactic(auto)]

ghost use Rattle.trace_text.specs.Text.{HexIsRead};

pub mod chars;
pub mod reader;
pub mod trace_reader;

pub use chars::Mode;
pub use reader::Reader;
pub use trace_reader::TraceReader;

// A trace's bytes, written as digits, are read as that trace.
#[tactic(auto, using(crate::proofs::HexText::hex_is_read))]
pub fn hex_is_read()
    ensures { HexIsRead }
{}
