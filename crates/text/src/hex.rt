// Bytes as hexadecimal digits, and back.
//
// The crate `hex` is of no use here: it would ask for memory before it knows that digits mean something, and would
// write into room that was filled before.
ghost use Rattle.std.specs.Prelude.{◌≡◌, ◌+◌, ◌*◌, ◌<◌, ◌≤◌, ◌++◌, length, is_some, is_ok, if◌then◌else◌, Some, vec_len, vec_capacity, MatchResult, OnErr};
ghost use Rattle.text.specs.Faults.{Refuses};
ghost use Rattle.text.specs.Hex.{digit_of, hex_of, hex_value, byte_of, bytes_from, HexComesBack};

use crate::Fault;
use std::alloc::{AllocError, Global};

// The digit of a number below 16. `char::from_digit` would answer an `Option` of a `char`, both to be undone.
fn digit(n: u8) -> u8
    requires { n < 16 }
    ensures { result ≡ digit_of n }
{
    if n < 10 { b'0' + n } else { b'a' + (n - 10) }
}

// Appends the digits of `bytes`, two for each. It appends none where they find no room and memory gives none, which no `Display` says.
pub fn push_hex(out: &mut Vec<u8>, bytes: &[u8]) -> Result<(), AllocError>
    ensures items { out.new.items ≡ (if is_ok result then out.old.items ++ hex_of bytes.now else out.old.items) }
    ensures full { OnErr result (vec_capacity out.old < vec_len out.old + 2 * length bytes.now) }
{
    out.reserve(2 * bytes.len())?;
    for byte in bytes {
        out.push_reserved(digit(*byte / 16));
        out.push_reserved(digit(*byte % 16));
    }
    Ok(())
}

// The number that a digit stands for. `to_digit` would ask for a `char` and answer a `u32`.
fn value(c: u8) -> Option<u8>
    ensures { result ≡ hex_value c }
{
    match c {
        b'0'..=b'9' => Some(c - b'0'),
        b'a'..=b'f' => Some(c - b'a' + 10),
        b'A'..=b'F' => Some(c - b'A' + 10),
        _ => None,
    }
}

// The byte that two digits stand for, the high one first.
pub fn byte(high: u8, low: u8) -> Option<u8>
    ensures { result ≡ byte_of high low }
{
    Some(value(high)? * 16 + value(low)?)
}

// Whether digits stand for bytes.
fn is_hex(digits: &[u8]) -> bool
    ensures { result ≡ is_some (bytes_from digits.now) }
{
    digits.len() % 2 == 0 && digits.iter().all(|c| c.is_ascii_hexdigit())
}

// The bytes that digits stand for. Memory is asked for only where they do.
pub fn unhex(heap: Global, digits: &[u8]) -> Result<Vec<u8>, Fault>
    ensures { MatchResult result (λ v. bytes_from digits.now ≡ Some v.items) (λ e. Refuses e (bytes_from digits.now)) }
{
    if !is_hex(digits) {
        return Err(Fault::Malformed);
    }
    let (pairs, _) = digits.as_chunks::<2>();
    let mut bytes = Vec::with_capacity(heap, pairs.len())?;
    for [high, low] in pairs {
        bytes.push_reserved(byte(*high, *low).unwrap());
    }
    Ok(bytes)
}

// What is written as digits is read back as it was.
#[tactic(auto, using(crate::proofs::HexSteps::comes_back))]
pub fn hex_comes_back()
    ensures { HexComesBack }
{}
