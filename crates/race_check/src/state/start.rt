// A check that was fed nothing yet.
ghost use Rattle.std.specs.Prelude.{[], IfOk};
ghost use Rattle.race_check.specs.Checks.{check_of};
ghost use Rattle.race_check.specs.States.{Led};

use crate::clocks::VectorClocks;
use crate::history::WordHistory;
use crate::state::Check;
use basics::WORDS;
use std::alloc::{AllocError, Global};
use trace::Verdict;

impl Check {
    // Nothing was fed: no event, and all words 0.
    pub fn new(heap: Global) -> Result<Check, AllocError>
        ensures { IfOk result (λ c. Led (check_of c) []) }
    {
        Ok(Check {
            places: 0,
            verdict: Verdict {
                race: None,
                stale: None,
            },
            clocks: VectorClocks::new(),
            words: vec![in heap; WordHistory::new(); WORDS]?,
        })
    }
}
