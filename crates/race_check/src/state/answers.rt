// What the check says of the events that it was fed.
ghost use Rattle.std.specs.Prelude.{◌≡◌, ◌≤◌, List, length, IfOk, None, MatchResult};
ghost use Rattle.basics.specs.declared.Refusal.TheVariants.{Malformed};
ghost use Rattle.trace.specs.Events.{by, acquires};
ghost use Rattle.trace.specs.declared.Event.{Event};
ghost use Rattle.vectors.specs.Laws.{Judged, Tells, verdict_of};
ghost use Rattle.race_check.specs.Checks.{check_of};
ghost use Rattle.race_check.specs.Rows.{vector_of};
ghost use Rattle.race_check.specs.States.{Led};

use crate::state::Check;
use basics::Refusal;
use trace::Verdict;

impl Check {
    // How many events it was fed.
    #[tactic(auto, using(crate::proofs::Feeding::places_led))]
    pub fn places(&self) -> u32
        ensures places { result ≡ (check_of self.now).places }
        ensures fed { (es : List Event) → Led (check_of self.now) es → result ≡ length es }
    {
        self.places
    }

    // Race-free exactly of race-free traces, else the first race; and so for one memory and the first stale read.
    #[tactic(auto, using(crate::proofs::Feeding::judged))]
    pub fn verdict(&self) -> Verdict
        ensures verdict { result ≡ verdict_of (check_of self.now) }
        ensures judged { (es : List Event) → Led (check_of self.now) es → Judged es result }
    {
        self.verdict
    }

    // The vector of a station. It counts exactly what happens before the station's next event, if that acquires nothing.
    #[tactic(auto, using(crate::proofs::Feeding::tells_all))]
    pub fn before_next(&self, station: u8) -> Result<[u32; 16], Refusal>
        ensures vector { MatchResult result (λ v. vector_of v ≡ (check_of self.now).clocks.station station) (λ why. (why ≡ Malformed) × (16 ≤ station)) }
        ensures tells { IfOk result (λ v. (es : List Event) (next : Event) → Led (check_of self.now) es → by next ≡ station → acquires next ≡ None → Tells (vector_of v) es next) }
    {
        let vector = self.clocks.stations.get(station as usize);
        vector.copied().ok_or(Refusal::Malformed)
    }
}
