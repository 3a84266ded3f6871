// All that the check keeps.
ghost use Rattle.std.specs.Prelude.{◌≡◌, vec_len};
ghost use Rattle.race_check.specs.States.{tables_of, Reached};

use crate::clocks::VectorClocks;
use crate::history::WordHistory;
use trace::Verdict;

mod answers;
mod feed;
mod start;

// How many events there were, what was found, the vectors, and what happened to each word.
// Nothing but the events that it was fed led to this state.
#[derive(Drop)]
pub struct Check {
    places: u32,
    verdict: Verdict,
    clocks: VectorClocks,
    words: Vec<WordHistory>,
    ghost all_words: { vec_len words ≡ 65536 },
    ghost reached: { Reached (tables_of places verdict clocks words.items) },
}
