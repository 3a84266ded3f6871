// How much there is of everything, and why things are refused.
#![tactic(auto)]

ghost use Rattle.std.specs.Prelude.{◌≡◌, Some};
ghost use Rattle.basics.specs.Refusals.{in_words, number_of};

use std::fmt;

// How much there is of everything; `specs/Sizes` has the same numbers for the rules.
pub const STATIONS: u8 = 16;

pub const LOCKS: u8 = 64;

pub const PAGES: u16 = 1024;

pub const PAGE_WORDS: usize = 64;

// as many pages as a station may have
pub const STATION_PAGES: usize = 256;

pub const WORDS: usize = 65536;

// Why a message or a call is refused. The lowest number that applies is given.
#[derive(Clone, Copy, Debug, PartialEq, Eq)]
pub enum Refusal {
    // malformed bytes or line; a station, page, word or lock out of range
    Malformed = 1,
    // the station waits for a page or for a lock
    Waits = 2,
    // the page is absent; for a page request, present
    PageState = 3,
    // the station has as many pages as it may have
    PagesFull = 4,
    // the station is not flushed
    NotFlushed = 5,
    // the lock is not held; for an acquire, it is
    LockState = 6,
    // a number that is not the one awaited or not the next one
    StaleNumber = 7,
    // a counter would overflow
    CounterFull = 8,
}

impl Refusal {
    // The number by which users know the refusal. A method, since `u8::from(why)` would not say which number it is.
    pub fn number(self) -> u8
        ensures { result ≡ number_of self }
    {
        self as u8
    }
}

// What programs print of a refusal.
impl fmt::Display for Refusal {
    ghost output = { λ why. Some (in_words why) };

    #[tactic(auto, unfolding(crate::specs::Refusals::in_words))]
    fn fmt<W: fmt::Write>(&self, f: &mut fmt::Formatter<W>) -> fmt::Result {
        write!(f, "turned away {}", self.number())
    }
}
