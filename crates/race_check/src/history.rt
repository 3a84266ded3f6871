// What is kept of a word, and which of it does not come before an event.
ghost use Rattle.std.specs.Prelude.{◌≡◌, ◌<◌};
ghost use Rattle.vectors.specs.Check.{later, unordered, unordered_read, unordered_write};
ghost use Rattle.race_check.specs.Rows.{vector_of, accesses_of, untouched};

use basics::STATIONS;
use trace::{Event, Placed};
use vectors::{Access, LastWrite};

// A count of 0 comes before all, so that no comparison treats it apart, as it would an `Option`.
const NEVER: Access = Access {
    count: 0,
    place: 0,
    value: 0,
};

// The last write of a word, and each station's last read of it.
#[derive(Clone, Copy, Debug, PartialEq, Eq)]
pub struct WordHistory {
    pub write: LastWrite,
    pub reads: [Access; 16],
}

impl WordHistory {
    // It was neither read nor written.
    pub fn new() -> WordHistory
        ensures { result ≡ untouched }
    {
        WordHistory {
            write: LastWrite {
                station: 0,
                access: NEVER,
            },
            reads: [NEVER; 16],
        }
    }

    // The last write, unless it comes before what has this vector.
    pub fn unordered_write(&self, before: [u32; 16], word: u32) -> Option<Placed>
        requires { self.now.write.station < 16 }
        ensures { result ≡ unordered_write (vector_of before) word self.now.write }
    {
        let LastWrite { station, access } = self.write;
        let event = Event::Write {
            station,
            word,
            value: access.value,
        };
        unordered(before, station, access, event)
    }

    // The latest of the stations' last reads that do not come before it.
    pub fn unordered_read(&self, before: [u32; 16], word: u32) -> Option<Placed>
        ensures { result ≡ unordered_read 16 (vector_of before) word (accesses_of self.now.reads) }
    {
        let mut latest = None;
        for (station, read) in (0..STATIONS).zip(&self.reads) {
            let event = Event::Read {
                station,
                word,
                value: read.value,
            };
            latest = later(latest, unordered(before, station, *read, event));
        }
        latest
    }
}

// The access, as the event that it was, unless it comes before what has this vector.
fn unordered(before: [u32; 16], station: u8, access: Access, event: Event) -> Option<Placed>
    requires { station < 16 }
    ensures { result ≡ unordered (vector_of before) station access event }
{
    let place = access.place;
    (before[station as usize] < access.count).then_some(Placed { place, event })
}

// The later one, where there are two.
pub fn later(a: Option<Placed>, b: Option<Placed>) -> Option<Placed>
    ensures { result ≡ later a b }
{
    match (a, b) {
        (Some(p), Some(q)) if p.place < q.place => b,
        _ => a.or(b),
    }
}
