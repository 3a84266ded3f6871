// A station's claim on a lock: that of a message that asks for it or gives it back.
ghost use Rattle.std.specs.Prelude.{◌≡◌, ◌<◌};
ghost use Rattle.model.specs.declared.Message.TheVariants.{LockGranted, ReleaseTaken};

use model::{Holder, Message, Waiter};

// The number is that of the station's request. Station and lock are there.
#[derive(Clone, Copy, Debug, PartialEq, Eq)]
pub struct Claim {
    pub station: u8,
    pub lock: u8,
    pub number: u32,
    ghost station_known: { station < 16 },
    ghost lock_known: { lock < 64 },
}

impl Claim {
    // The message that grants the lock.
    pub fn granted(self) -> Message
        ensures { result ≡ LockGranted self.station self.lock self.number }
    {
        let Claim {
            station,
            lock,
            number,
        } = self;
        Message::LockGranted {
            station,
            lock,
            number,
        }
    }

    // The message that the lock was taken back.
    pub fn release_taken(self) -> Message
        ensures { result ≡ ReleaseTaken self.station self.lock self.number }
    {
        let Claim {
            station,
            lock,
            number,
        } = self;
        Message::ReleaseTaken {
            station,
            lock,
            number,
        }
    }

    // Who holds the lock once it is granted.
    pub fn holder(self) -> Holder
        ensures { result ≡ record { station = self.station; number = self.number } }
    {
        let Claim {
            station,
            number,
            ..
        } = self;
        Holder { station, number }
    }

    // Who waits until it is granted.
    pub fn waiter(self) -> Waiter
        ensures { result ≡ record { station = self.station; lock = self.lock; number = self.number } }
    {
        Waiter {
            station: self.station,
            lock: self.lock,
            number: self.number,
        }
    }
}
