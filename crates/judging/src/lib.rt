// A trace, read piece by piece as text or as raw bytes, and judged event by event.
#![tactic(auto)]

ghost use Rattle.judging.specs.Laws.{PiecesJoin, TextIsRead, BytesAreRead};

pub mod judge;

pub use judge::Judge;

// It does not matter where the pieces are cut.
#[tactic(auto, using(crate::proofs::Whole::pieces_join))]
pub fn pieces_join()
    ensures { PiecesJoin }
{}

// What a judge is fed is what there is to read, unless it is too long: in a text,
#[tactic(auto, using(crate::proofs::Whole::text_is_read))]
pub fn text_is_read()
    ensures { TextIsRead }
{}

// and in raw bytes.
#[tactic(auto, using(crate::proofs::Whole::bytes_are_read))]
pub fn bytes_are_read()
    ensures { BytesAreRead }
{}
