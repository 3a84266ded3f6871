// What a message is answered with: what is sent, or a refusal.
ghost use Rattle.std.specs.Prelude.{◌≡◌};
ghost use Rattle.home_node.specs.declared.answer.Sent.TheVariants.{Nothing};

use basics::Refusal;
use model::Message;

// The messages sent, in order. An enum: a `Vec` could fail for want of memory, and an `ArrayVec` wants a message to fill itself with.
#[derive(Clone, Copy, Debug, PartialEq, Eq)]
pub enum Sent {
    Nothing,
    One(Message),
    Two(Message, Message),
}

// Why a message is refused. A refusal changes nothing; some are answered all the same.
#[derive(Clone, Copy, Debug, PartialEq, Eq)]
pub struct Refused {
    pub why: Refusal,
    pub sent: Sent,
}

impl From<Refusal> for Refused {
    ghost from_gives = { λ why refused. refused ≡ record { why = why; sent = Nothing } };

    fn from(why: Refusal) -> Refused {
        Refused {
            why,
            sent: Sent::Nothing,
        }
    }
}
