// Decimal numbers of 32 bits.
ghost use Rattle.std.specs.Prelude.{◌≡◌, ◌+◌, ◌<◌, [], ◌∷◌, ◌++◌, length, is_ok, if◌then◌else◌, vec_len, vec_capacity, decimal, OnErr};
ghost use Rattle.text.specs.Number.{number_of, number_after, NumberComesBack};

use itoa::Buffer;
use std::alloc::AllocError;

// The number `n` with one digit more, if that is a digit and the number still fits.
fn with_digit(n: u32, digit: u8) -> Option<u32>
    ensures { result ≡ number_after n (digit ∷ []) }
{
    match digit {
        b'0'..=b'9' => n.checked_mul(10)?.checked_add(u32::from(digit - b'0')),
        _ => None,
    }
}

// The number that digits write. Not `parse`, which takes a plus sign too.
pub fn number(digits: &[u8]) -> Option<u32>
    ensures { result ≡ number_of digits.now }
{
    if digits.is_empty() {
        return None;
    }
    digits.iter().try_fold(0, |n, digit| with_digit(n, *digit))
}

// Appends the digits of `n`. It appends none where they find no room and memory gives none, which no `Display` says.
pub fn push_number(out: &mut Vec<u8>, n: u32) -> Result<(), AllocError>
    ensures items { out.new.items ≡ (if is_ok result then out.old.items ++ decimal n else out.old.items) }
    ensures full { OnErr result (vec_capacity out.old < vec_len out.old + length (decimal n)) }
{
    out.extend_from_slice(Buffer::new().format(n).as_bytes())
}

// What is written as digits is read back as it was.
#[tactic(auto, using(crate::proofs::NumberSteps::comes_back))]
pub fn number_comes_back()
    ensures { NumberComesBack }
{}
