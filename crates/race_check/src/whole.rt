// The check of a whole trace that lies in memory.
ghost use Rattle.std.specs.Prelude.{◌≡◌, [], Some};
ghost use Rattle.race_check.specs.declared.whole.Unchecked.TheVariants.{Memory, Refused};
ghost use Rattle.race_check.specs.Checks.{check_of};
ghost use Rattle.race_check.specs.States.{Led};
ghost use Rattle.race_check.specs.Whole.{fed_all, unchecked_words, Checked};

use crate::state::Check;
use basics::Refusal;
use std::alloc::{AllocError, Global};
use std::error::Error;
use std::fmt;
use trace::{Event, Verdict};

// Why a trace was not checked.
#[derive(Clone, Copy, Debug, PartialEq, Eq)]
pub enum Unchecked {
    Refused(Refusal),
    Memory,
}

impl fmt::Display for Unchecked {
    ghost output = { λ why. Some (unchecked_words why) };

    fn fmt<W: fmt::Write>(&self, f: &mut fmt::Formatter<W>) -> fmt::Result {
        match self {
            Self::Refused(why) => write!(f, "{why}"),
            Self::Memory => write!(f, "out of memory"),
        }
    }
}

impl Error for Unchecked {}

impl From<Refusal> for Unchecked {
    ghost from_gives = { λ why r. r ≡ Refused why };

    fn from(why: Refusal) -> Unchecked {
        Unchecked::Refused(why)
    }
}

impl From<AllocError> for Unchecked {
    ghost from_gives = { λ _ r. r ≡ Memory };

    fn from(_e: AllocError) -> Unchecked {
        Unchecked::Memory
    }
}

// The verdict on a trace, the first event first.
pub fn check(heap: Global, events: &[Event]) -> Result<Verdict, Unchecked>
    ensures { Checked result (fed_all [] events.now) }
{
    fed_all(Check::new(heap)?, events)
}

// A check that was fed nothing is fed the events one after the other.
fn fed_all(mut check: Check, events: &[Event]) -> Result<Verdict, Unchecked>
    requires { Led (check_of check) [] }
    ensures { Checked result (fed_all [] events.now) }
{
    for event in events {
        check.step(*event)?;
    }
    Ok(check.verdict())
}
