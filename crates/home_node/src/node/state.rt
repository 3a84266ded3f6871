// The state that messages change.
ghost use Rattle.std.specs.Prelude.{◌≡◌, vec_len};

use crate::locks::Locks;

// The words, of each station the number of its last diff that was put in, and the locks.
#[derive(Drop)]
pub struct State {
    pub words: Vec<u32>,
    pub applied: [u32; 16],
    pub locks: Locks,
    ghost whole: { vec_len words ≡ 65536 },
}
