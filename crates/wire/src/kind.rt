// The kinds of messages. The first byte of a message says its kind.
ghost use Rattle.std.specs.Prelude.{◌≡◌};
ghost use Rattle.wire.specs.Kinds.{KindOf, kind_of, number_of};

use basics::Refusal;
use model::Message;

#[derive(Clone, Copy, Debug, PartialEq, Eq)]
pub enum Kind {
    PageRequest = 1,
    PageReply = 2,
    Diff = 3,
    DiffApplied = 4,
    LockRequest = 5,
    LockGranted = 6,
    LockReleased = 7,
    ReleaseTaken = 8,
}

impl Kind {
    pub fn of(message: &Message) -> Kind
        ensures { result ≡ kind_of message.now }
    {
        match message {
            Message::PageRequest { .. } => Kind::PageRequest,
            Message::PageReply { .. } => Kind::PageReply,
            Message::Diff { .. } => Kind::Diff,
            Message::DiffApplied { .. } => Kind::DiffApplied,
            Message::LockRequest { .. } => Kind::LockRequest,
            Message::LockGranted { .. } => Kind::LockGranted,
            Message::LockReleased { .. } => Kind::LockReleased,
            Message::ReleaseTaken { .. } => Kind::ReleaseTaken,
        }
    }

    // The byte that says this kind. A method, since `u8::from(kind)` would not say which byte it is.
    pub fn number(self) -> u8
        ensures { result ≡ number_of self }
    {
        self as u8
    }
}

impl TryFrom<u8> for Kind {
    type Error = Refusal;

    ghost try_from_gives = { KindOf };

    fn try_from(byte: u8) -> Result<Kind, Refusal> {
        match byte {
            1 => Ok(Kind::PageRequest),
            2 => Ok(Kind::PageReply),
            3 => Ok(Kind::Diff),
            4 => Ok(Kind::DiffApplied),
            5 => Ok(Kind::LockRequest),
            6 => Ok(Kind::LockGranted),
            7 => Ok(Kind::LockReleased),
            8 => Ok(Kind::ReleaseTaken),
            0 | 9..=255 => Err(Refusal::Malformed),
        }
    }
}
