// What the home does with each message.
ghost use Rattle.std.specs.Prelude.{◌≡◌, ◌<◌, IfOk, Ok};
ghost use Rattle.model.specs.declared.Message.TheVariants.{PageReply};
ghost use Rattle.model.specs.Home.{applies, fresh, hears, page_at};
ghost use Rattle.promise.specs.Ranges.{Known};
ghost use Rattle.home_node.specs.declared.answer.Sent.TheVariants.{One};
ghost use Rattle.home_node.specs.Answers.{reply_of};
ghost use Rattle.home_node.specs.Tables.{state_of};

use crate::answer::{Refused, Sent};
use crate::locks::Locks;
use crate::locks::claim::Claim;
use crate::node::state::State;
use basics::{Refusal, WORDS};
use model::Message;
use pages::{page_words, patch};
use std::alloc::{AllocError, Global};

impl State {
    // All words 0, no diff put in, no lock held.
    pub fn new(heap: Global) -> Result<State, AllocError>
        ensures { IfOk result (λ s. state_of s ≡ fresh) }
    {
        Ok(State {
            words: vec![in heap; 0; WORDS]?,
            applied: [0; 16],
            locks: Locks::new(heap)?,
        })
    }

    // What a message names is there: that was tested when it was read, so each step says it of what it uses, and tests it no more.
    pub fn hear(&mut self, message: &Message) -> Result<Sent, Refused>
        requires known { Known message.now }
        ensures { reply_of result (state_of self.new) ≡ hears (state_of self.old) message.now }
    {
        match *message {
            Message::PageRequest {
                station,
                page,
                number,
            } => self.give_page(station, page, number),
            Message::Diff {
                station,
                number,
                page,
                changes,
            } => self.put_diff(station, number, page, &changes),
            Message::LockRequest {
                station,
                lock,
                number,
            } => self.locks.request(Claim {
                station,
                lock,
                number,
            }),
            Message::LockReleased {
                station,
                lock,
                number,
            } => self.locks.release(Claim {
                station,
                lock,
                number,
            }),
            // these go to stations
            Message::PageReply { .. }
            | Message::DiffApplied { .. }
            | Message::LockGranted { .. }
            | Message::ReleaseTaken { .. } => Err(Refusal::Malformed.into()),
        }
    }

    // The page as it is now.
    fn give_page(&self, station: u8, page: u16, number: u32) -> Result<Sent, Refused>
        requires page_known { page < 1024 }
        ensures { result ≡ Ok (One (PageReply station page number (page_at page (state_of self.now).words))) }
    {
        let words = page_words(&self.words, page)?;
        Ok(Sent::One(Message::PageReply {
            station,
            page,
            number,
            words,
        }))
    }

    // A diff is put in if its number is the next one of its station; an earlier one is only answered again.
    fn put_diff(
        &mut self,
        station: u8,
        number: u32,
        page: u16,
        changes: &[Option<u32>; 64],
    ) -> Result<Sent, Refused>
        requires station_known { station < 16 }
        requires page_known { page < 1024 }
        ensures { reply_of result (state_of self.new) ≡ applies (state_of self.old) station number page changes.now }
    {
        let last = self.applied[station as usize];
        let sent = Sent::One(Message::DiffApplied { station, number });
        if number <= last {
            return Err(Refused {
                why: Refusal::StaleNumber,
                sent,
            });
        }
        if number - last > 1 {
            return Err(Refusal::StaleNumber.into());
        }
        patch(&mut self.words, page, changes)?;
        self.applied[station as usize] = number;
        Ok(sent)
    }
}
