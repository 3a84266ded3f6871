// The text that programs read and write: hexadecimal, decimal numbers, words and lines.
#![tactic(auto)]

ghost use Rattle.std.specs.Prelude.{◌≡◌};
ghost use Rattle.text.specs.declared.Fault.TheVariants.{Memory};

use std::alloc::{AllocError, AllocFailed};
use thiserror::Error;

pub mod hex;
pub mod lines;
pub mod numbers;

pub use hex::{hex_comes_back, push_hex, unhex};
pub use lines::{HomeLine, home_line, next_word};
pub use numbers::{number, number_comes_back, push_number};

// Why a text was not read. What only writes fails for want of memory alone, and says so by its type.
#[derive(Clone, Copy, Debug, PartialEq, Eq, Error)]
pub enum Fault {
    #[error("malformed text")]
    Malformed,
    #[error("out of memory")]
    Memory,
}

impl From<AllocError> for Fault {
    ghost from_gives = { λ _ r. r ≡ Memory };

    fn from(_e: AllocError) -> Fault {
        Fault::Memory
    }
}

impl<T: Drop> From<AllocFailed<T>> for Fault {
    ghost from_gives = { λ _ r. r ≡ Memory };

    fn from(_e: AllocFailed<T>) -> Fault {
        Fault::Memory
    }
}
