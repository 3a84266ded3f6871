// Bytes read as messages. A message is exactly as long as its kind says, and all that it names is in range.
ghost use Rattle.std.specs.Prelude.{◌≡◌, ◌%◌, ◌==◌, length, if◌then◌else◌, Ok, Err};
ghost use Rattle.basics.specs.Numbers.{u16_at};
ghost use Rattle.basics.specs.Sizes.{is_page};
ghost use Rattle.basics.specs.declared.Refusal.TheVariants.{Malformed};
ghost use Rattle.model.specs.Bytes.{parse, read_page_request, read_page_reply, read_diff, read_diff_applied, read_lock, words_from, changes_from, left_from};
ghost use Rattle.wire.specs.Kinds.{on_lock};

use crate::kind::Kind;
use basics::{LOCKS, PAGE_WORDS, PAGES, Refusal, STATIONS};
use model::Message;

// a change: its place and its word
const CHANGE_BYTES: usize = 5;

// Any bytes at all: a message, or refused as malformed.
pub fn decode(bytes: &[u8]) -> Result<Message, Refusal>
    ensures { result ≡ parse bytes.now }
{
    let [first, ..] = bytes else {
        return Err(Refusal::Malformed);
    };
    let kind = Kind::try_from(*first)?;
    match kind {
        Kind::PageRequest => page_request(bytes),
        Kind::PageReply => page_reply(bytes),
        Kind::Diff => diff(bytes),
        Kind::DiffApplied => diff_applied(bytes),
        Kind::LockRequest | Kind::LockGranted | Kind::LockReleased | Kind::ReleaseTaken =>
            lock_message(kind, bytes),
    }
}

// A page that is there.
fn known_page(bytes: [u8; 2]) -> Result<u16, Refusal>
    ensures { result ≡ (if is_page (u16_at bytes 0) then Ok (u16_at bytes 0) else Err Malformed) }
{
    match u16::from_be_bytes(bytes) {
        page @ 0..PAGES => Ok(page),
        _ => Err(Refusal::Malformed),
    }
}

fn page_request(bytes: &[u8]) -> Result<Message, Refusal>
    ensures { result ≡ read_page_request bytes.now }
{
    let [_, station @ 0..STATIONS, p, q, a, b, c, d] = *bytes else {
        return Err(Refusal::Malformed);
    };
    Ok(Message::PageRequest {
        station,
        page: known_page([p, q])?,
        number: u32::from_be_bytes([a, b, c, d]),
    })
}

fn page_reply(bytes: &[u8]) -> Result<Message, Refusal>
    ensures { result ≡ read_page_reply bytes.now }
{
    let [_, station @ 0..STATIONS, p, q, a, b, c, d, words @ ..] = bytes else {
        return Err(Refusal::Malformed);
    };
    if words.len() != 4 * PAGE_WORDS {
        return Err(Refusal::Malformed);
    }
    Ok(Message::PageReply {
        station: *station,
        page: known_page([*p, *q])?,
        number: u32::from_be_bytes([*a, *b, *c, *d]),
        words: words_of(words),
    })
}

// The 64 words of a page, one behind the other; written by place, since of words written through a zip a proof knows nothing.
fn words_of(bytes: &[u8]) -> [u32; 64]
    requires { length bytes.now ≡ 256 }
    ensures { result ≡ words_from 64 bytes.now }
{
    let (read, _) = bytes.as_chunks::<4>();
    let mut words = [0; 64];
    for (place, word) in read.iter().enumerate() {
        words[place] = u32::from_be_bytes(*word);
    }
    words
}

fn diff(bytes: &[u8]) -> Result<Message, Refusal>
    ensures { result ≡ read_diff bytes.now }
{
    let [
        _,
        station @ 0..STATIONS,
        a,
        b,
        c,
        d,
        p,
        q,
        count,
        changes @ ..,
    ] = bytes
    else {
        return Err(Refusal::Malformed);
    };
    if changes.len() != CHANGE_BYTES * *count as usize {
        return Err(Refusal::Malformed);
    }
    Ok(Message::Diff {
        station: *station,
        number: u32::from_be_bytes([*a, *b, *c, *d]),
        page: known_page([*p, *q])?,
        changes: changes_of(changes)?,
    })
}

// The changes of a diff, one behind the other. Refused where a place is out of range or does not rise.
fn changes_of(bytes: &[u8]) -> Result<[Option<u32>; 64], Refusal>
    requires whole { length bytes.now % 5 ≡ 0 }
    ensures { result ≡ (if length (left_from 64 0 bytes.now) == 0 then Ok (changes_from 64 0 bytes.now) else Err Malformed) }
{
    let (read, _) = bytes.as_chunks::<CHANGE_BYTES>();
    let mut changes = [None; 64];
    let mut next = 0;
    for change in read {
        let [place, a, b, c, d] = *change;
        let place = place as usize;
        if place < next || place >= PAGE_WORDS {
            return Err(Refusal::Malformed);
        }
        changes[place] = Some(u32::from_be_bytes([a, b, c, d]));
        next = place + 1;
    }
    Ok(changes)
}

fn diff_applied(bytes: &[u8]) -> Result<Message, Refusal>
    ensures { result ≡ read_diff_applied bytes.now }
{
    let [_, station @ 0..STATIONS, a, b, c, d] = *bytes else {
        return Err(Refusal::Malformed);
    };
    Ok(Message::DiffApplied {
        station,
        number: u32::from_be_bytes([a, b, c, d]),
    })
}

// The four messages on locks differ in their kind only. No other kind is read here.
fn lock_message(kind: Kind, bytes: &[u8]) -> Result<Message, Refusal>
    ensures { result ≡ read_lock (on_lock kind) bytes.now }
{
    let [_, station @ 0..STATIONS, lock @ 0..LOCKS, a, b, c, d] = *bytes else {
        return Err(Refusal::Malformed);
    };
    let number = u32::from_be_bytes([a, b, c, d]);
    Ok(match kind {
        Kind::LockRequest => Message::LockRequest {
            station,
            lock,
            number,
        },
        Kind::LockGranted => Message::LockGranted {
            station,
            lock,
            number,
        },
        Kind::LockReleased => Message::LockReleased {
            station,
            lock,
            number,
        },
        _ => Message::ReleaseTaken {
            station,
            lock,
            number,
        },
    })
}
