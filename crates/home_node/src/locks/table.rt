// Requests and releases of locks.
ghost use Rattle.std.specs.Prelude.{◌≡◌, IfOk, None, slice_index_or};
ghost use Rattle.model.specs.Locks.{unlocked, admitted, requests, passed_on, releases, waits_with, first_for};
ghost use Rattle.model.specs.Replies.{done};
ghost use Rattle.home_node.specs.Answers.{reply_of, sent_of};
ghost use Rattle.home_node.specs.Tables.{table_of};

use crate::answer::{Refused, Sent};
use crate::locks::Locks;
use crate::locks::claim::Claim;
use crate::locks::line::{still_waits, take_first, waits};
use basics::Refusal;
use model::{Holder, Message};
use std::alloc::{AllocError, Global};

impl Locks {
    // Nobody holds a lock and nobody waits.
    pub fn new(heap: Global) -> Result<Locks, AllocError>
        ensures { IfOk result (λ t. table_of t ≡ unlocked) }
    {
        Ok(Locks {
            requested: [0; 16],
            holders: [None; 64],
            waiting: Vec::with_capacity(heap, 16)?,
        })
    }

    // A request that is new: granted if nobody holds the lock, else behind all that wait.
    #[tactic(auto, using(crate::proofs::Once::once_more, promise::proofs::Queue::apart_room))]
    fn admit(&mut self, claim: Claim) -> Sent
        requires waits_not { waits_with claim.station self.old.waiting.items ≡ None }
        ensures { done (sent_of result) (table_of self.new) ≡ admitted (table_of self.old) claim.station claim.lock claim.number (slice_index_or self.old.holders claim.lock None) }
    {
        self.requested[claim.station as usize] = claim.number;
        match self.holders[claim.lock as usize] {
            None => {
                self.holders[claim.lock as usize] = Some(claim.holder());
                Sent::One(claim.granted())
            }
            Some(_) => {
                self.waiting.push_reserved(claim.waiter());
                Sent::Nothing
            }
        }
    }

    // A request is new if its number is the next one and its station does not wait. An earlier one that no longer waits is granted again.
    pub fn request(&mut self, claim: Claim) -> Result<Sent, Refused>
        ensures { reply_of result (table_of self.new) ≡ requests (table_of self.old) claim.station claim.lock claim.number }
    {
        let last = self.requested[claim.station as usize];
        if last.checked_add(1) == Some(claim.number) && !waits(&self.waiting, claim.station) {
            return Ok(self.admit(claim));
        }
        if claim.number <= last && !still_waits(&self.waiting, claim.station, claim.number) {
            return Err(Refused {
                why: Refusal::StaleNumber,
                sent: Sent::One(claim.granted()),
            });
        }
        Err(Refusal::StaleNumber.into())
    }

    // The holder gives the lock back, and the first that waits for it holds it. Not by a claim of its own: that its station is there was told of it when it came, and is not kept.
    #[tactic(auto, using(crate::proofs::Once::still_once))]
    fn pass_on(&mut self, claim: Claim) -> Sent
        ensures { done (sent_of result) (table_of self.new) ≡ passed_on (table_of self.old) claim.station claim.lock claim.number (first_for claim.lock self.old.waiting.items) }
    {
        match take_first(&mut self.waiting, claim.lock) {
            None => {
                self.holders[claim.lock as usize] = None;
                Sent::One(claim.release_taken())
            }
            Some(next) => {
                self.holders[claim.lock as usize] = Some(Holder {
                    station: next.station,
                    number: next.number,
                });
                let granted = Message::LockGranted {
                    station: next.station,
                    lock: claim.lock,
                    number: next.number,
                };
                Sent::Two(claim.release_taken(), granted)
            }
        }
    }

    // Taken from the holder with that number only. Any other that is not above the station's last, and does not wait, is answered again.
    pub fn release(&mut self, claim: Claim) -> Result<Sent, Refused>
        ensures { reply_of result (table_of self.new) ≡ releases (table_of self.old) claim.station claim.lock claim.number }
    {
        let holder = self.holders[claim.lock as usize];
        if holder == Some(claim.holder()) {
            return Ok(self.pass_on(claim));
        }
        if claim.number <= self.requested[claim.station as usize]
            && !still_waits(&self.waiting, claim.station, claim.number)
        {
            return Err(Refused {
                why: Refusal::StaleNumber,
                sent: Sent::One(claim.release_taken()),
            });
        }
        Err(Refusal::StaleNumber.into())
    }
}
