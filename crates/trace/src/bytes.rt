// An event as ten bytes: station, kind, word or lock, value; high byte first.
ghost use Rattle.std.specs.Prelude.{◌≡◌, ◌∷◌, ◌++◌};
ghost use Rattle.basics.specs.Numbers.{u32_bytes};
ghost use Rattle.trace.specs.Kinds.{kind_of, number_of, word_of, lock_of};
ghost use Rattle.trace.specs.Bytes.{bytes_of, read_event, event_of};

use crate::Event;
use basics::{LOCKS, Refusal, STATIONS, WORDS};

// Kinds of events, by their numbers.
#[derive(Clone, Copy, Debug, PartialEq, Eq)]
enum Kind {
    Read = 1,
    Write = 2,
    Acquire = 3,
    Release = 4,
}

impl TryFrom<u8> for Kind {
    type Error = Refusal;

    ghost try_from_gives = { λ number kind. kind ≡ kind_of number };

    fn try_from(number: u8) -> Result<Kind, Refusal> {
        match number {
            1 => Ok(Kind::Read),
            2 => Ok(Kind::Write),
            3 => Ok(Kind::Acquire),
            4 => Ok(Kind::Release),
            0 | 5..=255 => Err(Refusal::Malformed),
        }
    }
}

pub fn encode(event: Event) -> [u8; 10]
    ensures { result ≡ bytes_of event }
{
    match event {
        Event::Read {
            station,
            word,
            value,
        } => ten_bytes(station, Kind::Read, word, value),
        Event::Write {
            station,
            word,
            value,
        } => ten_bytes(station, Kind::Write, word, value),
        Event::Acquire { station, lock } => ten_bytes(station, Kind::Acquire, lock.into(), 0),
        Event::Release { station, lock } => ten_bytes(station, Kind::Release, lock.into(), 0),
    }
}

fn ten_bytes(station: u8, kind: Kind, subject: u32, value: u32) -> [u8; 10]
    ensures { result ≡ station ∷ number_of kind ∷ (u32_bytes subject ++ u32_bytes value) }
{
    let [a, b, c, d] = subject.to_be_bytes();
    let [e, f, g, h] = value.to_be_bytes();
    [station, kind as u8, a, b, c, d, e, f, g, h]
}

// Any bytes at all: an event, or refused as malformed.
pub fn decode(bytes: &[u8]) -> Result<Event, Refusal>
    ensures { result ≡ read_event bytes.now }
{
    let [station @ 0..STATIONS, kind, a, b, c, d, e, f, g, h] = bytes else {
        return Err(Refusal::Malformed);
    };
    let subject = u32::from_be_bytes([*a, *b, *c, *d]);
    let value = u32::from_be_bytes([*e, *f, *g, *h]);
    event_of(*station, Kind::try_from(*kind)?, subject, value)
}

// The event of a kind, with the word or lock that it is on.
fn event_of(station: u8, kind: Kind, subject: u32, value: u32) -> Result<Event, Refusal>
    ensures { result ≡ event_of station (number_of kind) subject value }
{
    Ok(match kind {
        Kind::Read => Event::Read {
            station,
            word: known_word(subject)?,
            value,
        },
        Kind::Write => Event::Write {
            station,
            word: known_word(subject)?,
            value,
        },
        Kind::Acquire => Event::Acquire {
            station,
            lock: known_lock(subject, value)?,
        },
        Kind::Release => Event::Release {
            station,
            lock: known_lock(subject, value)?,
        },
    })
}

// A word that is there.
fn known_word(subject: u32) -> Result<u32, Refusal>
    ensures { result ≡ word_of subject }
{
    if (subject as usize) < WORDS {
        Ok(subject)
    } else {
        Err(Refusal::Malformed)
    }
}

// A lock that is there; it has no value.
fn known_lock(subject: u32, value: u32) -> Result<u8, Refusal>
    ensures { result ≡ lock_of subject value }
{
    match u8::try_from(subject) {
        Ok(lock @ 0..LOCKS) if value == 0 => Ok(lock),
        _ => Err(Refusal::Malformed),
    }
}
