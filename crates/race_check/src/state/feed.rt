// The check is fed one event after the other.
ghost use Rattle.std.specs.Prelude.{◌≡◌, ◌<◌, true, List, ◌∷◌, is_ok, if◌then◌else◌};
ghost use Rattle.trace.specs.Events.{is_known};
ghost use Rattle.vectors.specs.Check.{stepped};
ghost use Rattle.race_check.specs.Checks.{check_of, accepted, Fed};
ghost use Rattle.race_check.specs.States.{Led};

use crate::history::later;
use crate::state::Check;
use crate::verdicts::{with_race, with_read};
use basics::Refusal;
use trace::{Event, Placed};
use vectors::{Access, LastWrite};

impl Check {
    // One event more, or refused: by 1 if it names a station, word or lock that is not there, by 8 if there were 4,294,967,295 events already.
    // A refusal changes nothing.
    pub fn step(&mut self, event: Event) -> Result<(), Refusal>
        ensures answer { result ≡ accepted (check_of self.old).places event }
        ensures tables { check_of self.new ≡ (if is_ok result then stepped (check_of self.old) event else check_of self.old) }
        ensures fed { (es : List Event) → Led (check_of self.old) es → Fed result (check_of self.old) (check_of self.new) event es }
    {
        if !event.is_known() {
            return Err(Refusal::Malformed);
        }
        if self.places == u32::MAX {
            return Err(Refusal::CounterFull);
        }
        self.feed(event);
        Ok(())
    }

    // The event is known, and no counter is full. Anyone can make an event, so that it is known is said here and of the vectors, and tested in `step` alone.
    #[tactic(auto, using(crate::proofs::Taken::writer_known))]
    fn feed(&mut self, event: Event)
        requires known { is_known event ≡ true }
        requires room { (check_of self.old).places < 4294967295 }
        ensures { check_of self.new ≡ stepped (check_of self.old) event }
    {
        let before = self.clocks.before(event);
        let count = self.clocks.step(event);
        let place = self.places + 1;
        let placed = Placed { place, event };
        self.places = place;
        match event {
            Event::Read {
                station,
                word,
                value,
            } => {
                let history = &mut self.words[word as usize];
                let earlier = history.unordered_write(before, word);
                let last = history.write.access.value;
                let verdict = with_race(self.verdict, earlier, placed);
                self.verdict = with_read(verdict, value, last, place);
                history.reads[station as usize] = Access {
                    count,
                    place,
                    value,
                };
            }
            Event::Write {
                station,
                word,
                value,
            } => {
                let history = &mut self.words[word as usize];
                let earlier = later(
                    history.unordered_write(before, word),
                    history.unordered_read(before, word),
                );
                self.verdict = with_race(self.verdict, earlier, placed);
                let access = Access {
                    count,
                    place,
                    value,
                };
                history.write = LastWrite { station, access };
            }
            Event::Acquire { .. } | Event::Release { .. } => {}
        }
    }
}
