// What stations did: events, their ten bytes and their words, and what is said of a trace of them.
// Happens-before, races and one memory are defined in specs/.
#![tactic(auto)]

ghost use Rattle.std.specs.Prelude.{◌≡◌};
ghost use Rattle.trace.specs.Events.{is_known};

use basics::{LOCKS, STATIONS, WORDS};

mod bytes;
mod words;

pub use bytes::{decode, encode};

// What a station did. A read has the value that it gave, a write the value that it left.
#[derive(Clone, Copy, Debug, PartialEq, Eq)]
pub enum Event {
    Read { station: u8, word: u32, value: u32 },
    Write { station: u8, word: u32, value: u32 },
    Acquire { station: u8, lock: u8 },
    Release { station: u8, lock: u8 },
}

impl Event {
    // What it names is there: its station, and its word or lock.
    pub fn is_known(self) -> bool
        ensures { result ≡ is_known self }
    {
        match self {
            Event::Read { station, word, .. } | Event::Write { station, word, .. } => {
                station < STATIONS && (word as usize) < WORDS
            }
            Event::Acquire { station, lock } | Event::Release { station, lock } => {
                station < STATIONS && lock < LOCKS
            }
        }
    }
}

// An event and its place in the trace; the first has place 1.
#[derive(Clone, Copy, Debug, PartialEq, Eq)]
pub struct Placed {
    pub place: u32,
    pub event: Event,
}

// Two events that conflict, and neither happens before the other.
#[derive(Clone, Copy, Debug, PartialEq, Eq)]
pub struct Race {
    pub earlier: Placed,
    pub later: Placed,
}

// What the two checks say of a trace.
#[derive(Clone, Copy, Debug, PartialEq, Eq)]
pub struct Verdict {
    // the first race; none in a race-free trace
    pub race: Option<Race>,
    // the place of the first read that did not give what the last write left; none where there was one memory
    pub stale: Option<u32>,
}
