// What an event adds to a verdict: the first race, and the first stale read.
ghost use Rattle.std.specs.Prelude.{◌≡◌};
ghost use Rattle.vectors.specs.Check.{either, race_with, stale_of};

use trace::{Placed, Race, Verdict};

// The event is ordered after all that it conflicts with, or it races with an earlier one.
pub fn with_race(verdict: Verdict, earlier: Option<Placed>, later: Placed) -> Verdict
    ensures { result ≡ record { race = either verdict.race (race_with later.place later.event earlier); stale = verdict.stale } }
{
    let None = verdict.race else {
        return verdict;
    };
    let Some(earlier) = earlier else {
        return verdict;
    };
    Verdict {
        race: Some(Race { earlier, later }),
        ..verdict
    }
}

// A read is to give what the last write left.
pub fn with_read(verdict: Verdict, value: u32, last: u32, place: u32) -> Verdict
    ensures { result ≡ record { race = verdict.race; stale = either verdict.stale (stale_of value last place) } }
{
    Verdict {
        stale: verdict.stale.or((value != last).then_some(place)),
        ..verdict
    }
}
