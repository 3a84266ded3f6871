// What programs print of events, races and verdicts.
ghost use Rattle.std.specs.Prelude.{Some};
ghost use Rattle.trace.specs.Words.{in_words, placed_words, race_lines, verdict_lines};

use crate::{Event, Placed, Race, Verdict};
use std::fmt;

impl fmt::Display for Event {
    ghost output = { λ event. Some (in_words event) };

    fn fmt<W: fmt::Write>(&self, f: &mut fmt::Formatter<W>) -> fmt::Result {
        match *self {
            Event::Read {
                station,
                word,
                value,
            } => write!(f, "station {station} read {value} from word {word}"),
            Event::Write {
                station,
                word,
                value,
            } => write!(f, "station {station} wrote {value} to word {word}"),
            Event::Acquire { station, lock } => write!(f, "station {station} took lock {lock}"),
            Event::Release { station, lock } => write!(f, "station {station} freed lock {lock}"),
        }
    }
}

impl fmt::Display for Placed {
    ghost output = { λ placed. Some (placed_words placed) };

    fn fmt<W: fmt::Write>(&self, f: &mut fmt::Formatter<W>) -> fmt::Result {
        write!(f, "{}: {}", self.place, self.event)
    }
}

// Where the two events are, then each of them on a line of its own.
impl fmt::Display for Race {
    ghost output = { λ race. Some (race_lines (Some race)) };

    fn fmt<W: fmt::Write>(&self, f: &mut fmt::Formatter<W>) -> fmt::Result {
        let Race { earlier, later } = self;
        writeln!(f, "unordered {} {}", earlier.place, later.place)?;
        writeln!(f, "  {earlier}")?;
        writeln!(f, "  {later}")
    }
}

// The race check first, then the memory check.
impl fmt::Display for Verdict {
    ghost output = { λ verdict. Some (verdict_lines verdict) };

    fn fmt<W: fmt::Write>(&self, f: &mut fmt::Formatter<W>) -> fmt::Result {
        match self.race {
            Some(race) => write!(f, "{race}")?,
            None => writeln!(f, "orderly")?,
        }
        match self.stale {
            Some(place) => writeln!(f, "stale {place}"),
            None => writeln!(f, "one memory"),
        }
    }
}
