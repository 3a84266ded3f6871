// The vectors of all stations and locks. A vector has for each station a count of its events.
ghost use Rattle.std.specs.Prelude.{◌≡◌, true, ◌<◌};
ghost use Rattle.trace.specs.Events.{by, is_known};
ghost use Rattle.vectors.specs.Check.{before, clocks_with, empty, greatest, up_to};
ghost use Rattle.race_check.specs.Rows.{vector_of};
ghost use Rattle.race_check.specs.States.{clocks_of};

use std::array;
use trace::Event;

// Of each station how many events of each station come before its next; of each lock the greatest of the vectors of all its releases so far.
#[derive(Clone, Copy, Debug, PartialEq, Eq)]
pub struct VectorClocks {
    pub stations: [[u32; 16]; 16],
    pub locks: [[u32; 16]; 64],
}

impl VectorClocks {
    // Nothing has happened yet.
    #[tactic(auto, using(crate::proofs::Starting::clocks_start))]
    pub fn new() -> VectorClocks
        ensures { clocks_of result ≡ empty.clocks }
    {
        VectorClocks {
            stations: [[0; 16]; 16],
            locks: [[0; 16]; 64],
        }
    }

    // What comes before an event: what its station knew, and for an acquire what the releases of the lock knew.
    pub fn before(&self, event: Event) -> [u32; 16]
        requires { is_known event ≡ true }
        ensures { vector_of result ≡ before (clocks_of self.now) event }
    {
        let own = self.stations[station_of(event)];
        if let Event::Acquire { lock, .. } = event {
            greatest(own, self.locks[lock as usize])
        } else {
            own
        }
    }

    // One event more; gives its station's count, this event counted.
    pub fn step(&mut self, event: Event) -> u32
        requires known { is_known event ≡ true }
        requires room { before (clocks_of self.old) event (by event) < 4294967295 }
        ensures clocks { clocks_of self.new ≡ clocks_with (clocks_of self.old) event }
        ensures count { result ≡ up_to (clocks_of self.old) event (by event) }
    {
        let station = station_of(event);
        let mut after = self.before(event);
        after[station] += 1;
        self.stations[station] = after;
        if let Event::Release { lock, .. } = event {
            self.locks[lock as usize] = greatest(self.locks[lock as usize], after);
        }
        self.stations[station][station]
    }
}

// The station whose event it is, as an index.
fn station_of(event: Event) -> usize
    ensures { result ≡ by event }
{
    match event {
        Event::Read { station, .. }
        | Event::Write { station, .. }
        | Event::Acquire { station, .. }
        | Event::Release { station, .. } => station as usize,
    }
}

// Station by station the greater count.
fn greatest(a: [u32; 16], b: [u32; 16]) -> [u32; 16]
    ensures { vector_of result ≡ greatest (vector_of a) (vector_of b) }
{
    array::from_fn(|j| a[j].max(b[j]))
}
