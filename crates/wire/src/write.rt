// Messages written as bytes, high byte first.
ghost use Rattle.std.specs.Prelude.{◌≡◌, [], ◌∷◌, ◌++◌, IfOk, OnOk};
ghost use Rattle.basics.specs.Numbers.{u16_bytes, u32_bytes};
ghost use Rattle.model.specs.Bytes.{bytes_of, word_bytes, change_bytes, change_count};
ghost use Rattle.wire.specs.Kinds.{number_of};

use crate::kind::Kind;
use model::Message;
use std::alloc::{AllocError, Global};

// The bytes of a message; fails for want of memory only.
pub fn encode(heap: Global, message: &Message) -> Result<Vec<u8>, AllocError>
    ensures { IfOk result (λ v. v.items ≡ bytes_of message.now) }
{
    let kind = Kind::of(message);
    match *message {
        Message::PageRequest {
            station,
            page,
            number,
        } => Vec::from_slice(heap, &page_head(kind, station, page, number)),
        Message::PageReply {
            station,
            page,
            number,
            words,
        } => {
            let mut out = Vec::from_slice(heap, &page_head(kind, station, page, number))?;
            push_words(&mut out, &words)?;
            Ok(out)
        }
        Message::Diff {
            station,
            number,
            page,
            changes,
        } => {
            let count = change_count(&changes);
            // room for the head, and for five bytes of each change, so that the bytes are never moved
            let mut out = Vec::with_capacity(heap, 9 + 5 * usize::from(count))?;
            out.extend_from_slice(&diff_head(kind, station, number, page, count))?;
            push_changes(&mut out, &changes)?;
            Ok(out)
        }
        Message::DiffApplied { station, number } => {
            let [a, b, c, d] = number.to_be_bytes();
            Vec::from_slice(heap, &[kind.number(), station, a, b, c, d])
        }
        Message::LockRequest {
            station,
            lock,
            number,
        }
        | Message::LockGranted {
            station,
            lock,
            number,
        }
        | Message::LockReleased {
            station,
            lock,
            number,
        }
        | Message::ReleaseTaken {
            station,
            lock,
            number,
        } => Vec::from_slice(heap, &on_lock(kind, station, lock, number)),
    }
}

fn page_head(kind: Kind, station: u8, page: u16, number: u32) -> [u8; 8]
    ensures { result ≡ number_of kind ∷ station ∷ (u16_bytes page ++ u32_bytes number) }
{
    let [p, q] = page.to_be_bytes();
    let [a, b, c, d] = number.to_be_bytes();
    [kind.number(), station, p, q, a, b, c, d]
}

fn diff_head(kind: Kind, station: u8, number: u32, page: u16, count: u8) -> [u8; 9]
    ensures { result ≡ number_of kind ∷ station ∷ (u32_bytes number ++ (u16_bytes page ++ (count ∷ []))) }
{
    let [a, b, c, d] = number.to_be_bytes();
    let [p, q] = page.to_be_bytes();
    [kind.number(), station, a, b, c, d, p, q, count]
}

fn on_lock(kind: Kind, station: u8, lock: u8, number: u32) -> [u8; 7]
    ensures { result ≡ number_of kind ∷ station ∷ lock ∷ u32_bytes number }
{
    let [a, b, c, d] = number.to_be_bytes();
    [kind.number(), station, lock, a, b, c, d]
}

// Bytes, not text: no `Display` writes them.
fn push_words(out: &mut Vec<u8>, words: &[u32; 64]) -> Result<(), AllocError>
    ensures { OnOk result (out.new.items ≡ out.old.items ++ word_bytes words.now) }
{
    for word in words {
        out.extend_from_slice(&word.to_be_bytes())?;
    }
    Ok(())
}

fn change_count(changes: &[Option<u32>; 64]) -> u8
    ensures { result ≡ change_count changes.now }
{
    changes.iter().filter(|change| change.is_some()).count() as u8
}

fn change_bytes(place: u8, word: u32) -> [u8; 5]
    ensures { result ≡ place ∷ u32_bytes word }
{
    let [a, b, c, d] = word.to_be_bytes();
    [place, a, b, c, d]
}

fn push_changes(out: &mut Vec<u8>, changes: &[Option<u32>; 64]) -> Result<(), AllocError>
    ensures { OnOk result (out.new.items ≡ out.old.items ++ change_bytes 0 changes.now) }
{
    for (place, change) in changes.iter().enumerate() {
        if let Some(word) = change {
            out.extend_from_slice(&change_bytes(place as u8, *word))?;
        }
    }
    Ok(())
}
