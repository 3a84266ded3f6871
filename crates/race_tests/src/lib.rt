// Examples of traces and of what the check says of them. Word 5 is shared; locks 1 and 2 are there to guard it.
#![tactic(auto)]

#[cfg(test)]
mod tests {
    use basics::Refusal;
    use race_check::{Check, Unchecked, check as check_trace};
    use std::test::Fail;
    use trace::{Event, decode, encode};

    fn read(station: u8, value: u32) -> Event {
        Event::Read {
            station,
            word: 5,
            value,
        }
    }

    fn write(station: u8, value: u32) -> Event {
        Event::Write {
            station,
            word: 5,
            value,
        }
    }

    fn acquire(station: u8, lock: u8) -> Event {
        Event::Acquire { station, lock }
    }

    fn release(station: u8, lock: u8) -> Event {
        Event::Release { station, lock }
    }

    // The places of the first race, and that of the first stale read.
    fn judged(
        rt: HostRuntime,
        events: &[Event],
    ) -> Result<(Option<(u32, u32)>, Option<u32>), Unchecked> {
        let verdict = check_trace(rt.alloc(), events)?;
        let race = verdict
            .race
            .map(|race| (race.earlier.place, race.later.place));
        Ok((race, verdict.stale))
    }

    #[test]
    fn an_empty_trace_is_race_free(rt: HostRuntime) {
        assert_eq!(rt; judged(rt, &[]), Ok((None, None)));
    }

    #[test]
    fn a_missing_lock_is_a_race(rt: HostRuntime) {
        let events = [acquire(0, 1), write(0, 7), release(0, 1), read(1, 7)];
        assert_eq!(rt; judged(rt, &events), Ok((Some((2, 4)), None)));
    }

    #[test]
    fn two_locks_do_not_help(rt: HostRuntime) {
        let events = [
            acquire(0, 1),
            write(0, 7),
            release(0, 1),
            acquire(1, 2),
            write(1, 8),
            release(1, 2),
        ];
        assert_eq!(rt; judged(rt, &events), Ok((Some((2, 5)), None)));
    }

    // 0 hands lock 1 to 1, and 1 hands lock 2 to 2
    #[test]
    fn a_chain_of_locks_helps(rt: HostRuntime) {
        let events = [
            acquire(0, 1),
            write(0, 7),
            release(0, 1),
            acquire(1, 1),
            acquire(1, 2),
            release(1, 2),
            acquire(2, 2),
            read(2, 7),
            write(2, 8),
        ];
        assert_eq!(rt; judged(rt, &events), Ok((None, None)));
    }

    // what 1 does between its acquires is not handed on by a release that came before
    #[test]
    fn a_release_hands_on_only_what_came_before_it(rt: HostRuntime) {
        let events = [
            acquire(1, 1),
            release(1, 1),
            write(1, 7),
            acquire(0, 1),
            read(0, 7),
        ];
        assert_eq!(rt; judged(rt, &events), Ok((Some((3, 5)), None)));
    }

    #[test]
    fn two_reads_do_not_conflict(rt: HostRuntime) {
        let events = [read(0, 0), read(1, 0), read(2, 0)];
        assert_eq!(rt; judged(rt, &events), Ok((None, None)));
    }

    // 2's write races with the reads at 1, 2 and 3
    #[test]
    fn the_latest_earlier_event_is_named(rt: HostRuntime) {
        let events = [read(0, 0), read(1, 0), read(0, 0), write(2, 1), write(3, 1)];
        assert_eq!(rt; judged(rt, &events), Ok((Some((3, 4)), None)));
    }

    #[test]
    fn the_same_value_written_twice_is_a_race(rt: HostRuntime) {
        let events = [write(0, 7), write(1, 7), read(1, 7)];
        assert_eq!(rt; judged(rt, &events), Ok((Some((1, 2)), None)));
    }

    // race or not, a read is held against the last write in the trace
    #[test]
    fn the_first_stale_read_is_named(rt: HostRuntime) {
        let events = [read(0, 0), write(0, 7), read(0, 7), read(0, 0), read(0, 1)];
        assert_eq!(rt; judged(rt, &events), Ok((None, Some(4))));
    }

    #[test]
    fn what_is_not_there_is_refused(rt: HostRuntime) {
        assert_eq!(rt;
            judged(rt, &[read(0, 0), acquire(0, 64)]),
            Err(Unchecked::Refused(Refusal::Malformed))
        );
    }

    // a refused event changes nothing: the check goes on with the next
    #[test]
    fn a_refused_event_has_no_place(rt: HostRuntime) -> Result<(), Fail> {
        let mut check = Check::new(rt.alloc())?;
        assert_eq!(rt; check.step(write(16, 7)), Err(Refusal::Malformed));
        assert_eq!(rt; check.step(write(0, 7)), Ok(()));
        assert_eq!(rt; check.places(), 1);
        Ok(())
    }

    #[test]
    fn a_write_has_ten_bytes(rt: HostRuntime) {
        let event = write(3, 258);
        assert!(rt; encode(event) == *b"\x03\x02\x00\x00\x00\x05\x00\x00\x01\x02");
        assert_eq!(rt; decode(&encode(event)), Ok(event));
    }

    #[test]
    fn bytes_that_are_no_event_are_refused(rt: HostRuntime) {
        let no_events: [&[u8]; 6] = [
            b"\x10\x01\x00\x00\x00\x05\x00\x00\x00\x00",
            b"\x00\x05\x00\x00\x00\x05\x00\x00\x00\x00",
            b"\x00\x01\x00\x01\x00\x00\x00\x00\x00\x00",
            b"\x00\x03\x00\x00\x00\x40\x00\x00\x00\x00",
            b"\x00\x03\x00\x00\x00\x01\x00\x00\x00\x01",
            b"\x00\x03\x00\x00\x00\x01\x00\x00\x00",
        ];
        for bytes in no_events {
            assert_eq!(rt; decode(bytes), Err(Refusal::Malformed));
        }
    }

    #[test]
    fn why_a_trace_was_not_checked_is_printed(rt: HostRuntime) -> Result<(), Fail> {
        let refused = format!(in rt.alloc(); "{}", Unchecked::Refused(Refusal::CounterFull))?;
        assert!(rt; refused.as_str() == "turned away 8");
        let memory = format!(in rt.alloc(); "{}", Unchecked::Memory)?;
        assert!(rt; memory.as_str() == "out of memory");
        Ok(())
    }
}
