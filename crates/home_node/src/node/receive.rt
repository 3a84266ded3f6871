// What comes in, and what is answered.
ghost use Rattle.std.specs.Prelude.{◌≡◌, ℕ, List, IfOk, OnErr, if◌then◌else◌, Ok, Err};
ghost use Rattle.basics.specs.declared.Refusal.TheVariants.{Malformed};
ghost use Rattle.model.specs.Home.{fresh, receives};
ghost use Rattle.basics.specs.Sizes.{is_word};
ghost use Rattle.home_node.specs.Answers.{reply_of};
ghost use Rattle.home_node.specs.Homes.{home_of, Onward};

use crate::answer::{Refused, Sent};
use crate::node::Home;
use crate::node::state::State;
use basics::{Refusal, WORDS};
use std::alloc::{AllocError, Global};
use wire::decode;

impl Home {
    // All words 0, no lock held.
    pub fn new(heap: Global) -> Result<Home, AllocError>
        ensures { IfOk result (λ h. home_of h ≡ fresh) }
    {
        Ok(Home {
            state: State::new(heap)?,
        })
    }

    // A word as it is now.
    pub fn word(&self, word: u32) -> Result<u32, Refusal>
        ensures { result ≡ (if is_word word then Ok ((home_of self.now).words word) else Err Malformed) }
    {
        if word as usize >= WORDS {
            return Err(Refusal::Malformed);
        }
        Ok(self.state.words[word as usize])
    }

    // Any bytes at all: done or refused as the rules say. A refusal changes nothing, and every promise of the home is kept afterwards.
    pub fn receive(&mut self, bytes: &[u8]) -> Result<Sent, Refused>
        ensures answer { reply_of result (home_of self.new) ≡ receives (home_of self.old) bytes.now }
        ensures unchanged { OnErr result (home_of self.new ≡ home_of self.old) }
        ensures promises { ∥ ((seen : List (List ℕ)) × Onward (home_of self.old) (home_of self.new) bytes.now seen) ∥₁ }
    {
        let message = decode(bytes)?;
        self.state.hear(&message)
    }
}
