// Bytes to events: ten of them make one.
ghost use Rattle.std.specs.Prelude.{◌≡◌, ◌-◌, ◌≤◌, length, drop, replicate};

mod bytes;

// The bytes so far of an event that is not whole yet, and zeros behind them. No `ArrayVec`, since a reader is `Copy` and that is not.
#[derive(Clone, Copy, Debug, PartialEq, Eq)]
pub struct Reader {
    part: [u8; 9],
    filled: usize,
    ghost short: { filled ≤ 9 },
    ghost nine: { length part ≡ 9 },
    ghost zeros: { drop filled part ≡ replicate (9 - filled) 0 },
}
