// The line of those who wait for a lock, first come first.
ghost use Rattle.std.specs.Prelude.{◌≡◌, ◌≤◌, is_some, None, vec_capacity};
ghost use Rattle.model.specs.Locks.{waits_with, still_waits, first_for, without_first};
ghost use Rattle.home_node.specs.Lines.{Found};

use model::Waiter;

// Whether the station waits.
pub fn waits(waiting: &[Waiter], station: u8) -> bool
    ensures { result ≡ is_some (waits_with station waiting.now) }
{
    waits_with(waiting, station).is_some()
}

// Whether that very request of the station still waits.
pub fn still_waits(waiting: &[Waiter], station: u8, number: u32) -> bool
    ensures { result ≡ still_waits station number waiting.now }
{
    waits_with(waiting, station) == Some(number)
}

// Takes the first that waits for the lock out of the line; the others stay in their order.
pub fn take_first(waiting: &mut Vec<Waiter>, lock: u8) -> Option<Waiter>
    ensures first { result ≡ first_for lock waiting.old.items }
    ensures others { waiting.new.items ≡ without_first lock waiting.old.items }
    ensures none { result ≡ None → waiting.new.items ≡ waiting.old.items }
    ensures room { vec_capacity waiting.old ≤ vec_capacity waiting.new }
{
    let place = place_of(waiting, lock)?;
    Some(waiting.remove(place))
}

// The number with which a station waits, if it does.
fn waits_with(waiting: &[Waiter], station: u8) -> Option<u32>
    ensures { result ≡ waits_with station waiting.now }
{
    waiting
        .iter()
        .find(|waiter| waiter.station == station)
        .map(|waiter| waiter.number)
}

// Where the first stands that waits for the lock.
fn place_of(waiting: &[Waiter], lock: u8) -> Option<usize>
    ensures { Found lock waiting.now result }
{
    waiting.iter().position(|waiter| waiter.lock == lock)
}
