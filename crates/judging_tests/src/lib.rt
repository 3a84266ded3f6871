// Examples of a trace that comes in pieces.
#![tactic(auto)]

#[cfg(test)]
mod tests {
    use basics::Refusal;
    use judging::Judge;
    use std::test::Fail;
    use trace::{Event, Placed, Race, Verdict};

    // Station 0 and station 1 wrote 7 to word 5, and no lock orders the two.
    const TWO_WRITES: Verdict = Verdict {
        race: Some(Race {
            earlier: Placed {
                place: 1,
                event: Event::Write {
                    station: 0,
                    word: 5,
                    value: 7,
                },
            },
            later: Placed {
                place: 2,
                event: Event::Write {
                    station: 1,
                    word: 5,
                    value: 7,
                },
            },
        }),
        stale: None,
    };

    // No race and no stale read.
    const NOTHING_FOUND: Verdict = Verdict {
        race: None,
        stale: None,
    };

    #[test]
    fn text_may_be_cut_anywhere(rt: HostRuntime) -> Result<(), Fail> {
        let mut judge = Judge::new(rt.alloc())?;
        assert_eq!(rt;
            judge.text(b"# two writes, no lock\n00 02 00000005 0000000"),
            Ok(())
        );
        assert_eq!(rt; judge.text(b"7\n01"), Ok(()));
        assert_eq!(rt; judge.text(b" 02\t00000005\r\n00000007"), Ok(()));
        assert_eq!(rt; judge.events(), 2);
        assert_eq!(rt; judge.verdict(), Ok(TWO_WRITES));
        Ok(())
    }

    #[test]
    fn raw_bytes_may_be_cut_anywhere(rt: HostRuntime) -> Result<(), Fail> {
        let mut judge = Judge::new(rt.alloc())?;
        assert_eq!(rt; judge.bytes(b"\x00\x02\x00\x00\x00\x05\x00"), Ok(()));
        assert_eq!(rt; judge.bytes(b""), Ok(()));
        assert_eq!(rt;
            judge.bytes(b"\x00\x00\x07\x01\x02\x00\x00\x00\x05\x00\x00\x00\x07"),
            Ok(())
        );
        assert_eq!(rt; judge.verdict(), Ok(TWO_WRITES));
        Ok(())
    }

    #[test]
    fn a_trace_does_not_end_within_an_event(rt: HostRuntime) -> Result<(), Fail> {
        let mut judge = Judge::new(rt.alloc())?;
        assert_eq!(rt; judge.verdict(), Ok(NOTHING_FOUND));
        assert_eq!(rt; judge.text(b"00 02 00000005 000000"), Ok(()));
        assert_eq!(rt; judge.verdict(), Err(Refusal::Malformed));
        Ok(())
    }

    #[test]
    fn nor_within_a_byte(rt: HostRuntime) -> Result<(), Fail> {
        let mut judge = Judge::new(rt.alloc())?;
        assert_eq!(rt; judge.text(b"00 02 00000005 00000007 0"), Ok(()));
        assert_eq!(rt; judge.verdict(), Err(Refusal::Malformed));
        assert_eq!(rt; judge.text(b" "), Err(Refusal::Malformed));
        Ok(())
    }

    #[test]
    fn the_events_before_a_malformed_one_are_counted(rt: HostRuntime) -> Result<(), Fail> {
        let mut judge = Judge::new(rt.alloc())?;
        assert_eq!(rt;
            judge.text(b"00 02 00000005 00000007 00 05 00000005 00000000"),
            Err(Refusal::Malformed)
        );
        assert_eq!(rt; judge.events(), 1);
        Ok(())
    }
}
