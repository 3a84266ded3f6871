// The lock tables: a number for each station, a holder for each lock, and one line of those who wait.
ghost use Rattle.std.specs.Prelude.{◌≡◌, ◌≤◌, T, vec_capacity};
ghost use Rattle.promise.specs.Home.{apart};

use model::{Holder, Waiter};

pub mod claim;
mod line;
mod table;

// A station waits at most once, so the line has room for all of them and never grows. A `Vec`, since an `ArrayVec` would want a waiter to fill itself with.
#[derive(Drop)]
pub struct Locks {
    requested: [u32; 16],
    holders: [Option<Holder>; 64],
    waiting: Vec<Waiter>,
    ghost room: { 16 ≤ vec_capacity waiting },
    ghost once: { T (apart waiting.items) },
}
