// Examples of messages and of the home, as a user would meet them.
#![tactic(auto)]

#[cfg(test)]
mod tests {
    use basics::Refusal;
    use home_node::{Home, Refused, Sent};
    use model::Message;
    use std::test::Fail;
    use wire::{decode, encode};

    // What a home answers, with no more said of it.
    fn answer(home: &mut Home, bytes: &[u8]) -> Result<Sent, Refused> {
        home.receive(bytes)
    }

    fn word(home: &Home, word: u32) -> Result<u32, Refusal> {
        home.word(word)
    }

    // That the station's first request for lock 1 is granted, and that its release is taken.
    fn granted(station: u8) -> Message {
        Message::LockGranted {
            station,
            lock: 1,
            number: 1,
        }
    }

    fn taken(station: u8) -> Message {
        Message::ReleaseTaken {
            station,
            lock: 1,
            number: 1,
        }
    }

    #[test]
    fn a_grant_has_seven_bytes(rt: HostRuntime) -> Result<(), Fail> {
        let grant = Message::LockGranted {
            station: 3,
            lock: 2,
            number: 258,
        };
        let bytes = encode(rt.alloc(), &grant)?;
        assert!(rt; bytes.as_slice() == b"\x06\x03\x02\x00\x00\x01\x02".as_slice());
        Ok(())
    }

    #[test]
    fn a_cut_message_is_refused(rt: HostRuntime) {
        assert_eq!(rt;
            decode(b"\x05\x00\x01\x00\x00\x00\x01"),
            Ok(Message::LockRequest {
                station: 0,
                lock: 1,
                number: 1
            })
        );
        assert_eq!(rt;
            decode(b"\x05\x00\x01\x00\x00\x00"),
            Err(Refusal::Malformed)
        );
        assert_eq!(rt; decode(b""), Err(Refusal::Malformed));
    }

    // a diff that comes again after another station's later write leaves that write
    #[test]
    fn a_diff_is_put_in_once(rt: HostRuntime) -> Result<(), Fail> {
        let mut home = Home::new(rt.alloc())?;
        let first = b"\x03\x00\x00\x00\x00\x01\x00\x00\x01\x05\x00\x00\x00\x07";
        let first_applied = Sent::One(Message::DiffApplied {
            station: 0,
            number: 1,
        });
        assert_eq!(rt; answer(&mut home, first), Ok(first_applied));
        assert_eq!(rt; word(&home, 5)?, 7);
        let later = b"\x03\x01\x00\x00\x00\x01\x00\x00\x01\x05\x00\x00\x00\x09";
        let later_applied = Sent::One(Message::DiffApplied {
            station: 1,
            number: 1,
        });
        assert_eq!(rt; answer(&mut home, later), Ok(later_applied));
        assert_eq!(rt;
            answer(&mut home, first),
            Err(Refused {
                why: Refusal::StaleNumber,
                sent: first_applied
            })
        );
        assert_eq!(rt; word(&home, 5)?, 9);
        Ok(())
    }

    #[test]
    fn a_lock_goes_in_turn(rt: HostRuntime) -> Result<(), Fail> {
        let mut home = Home::new(rt.alloc())?;
        assert_eq!(rt;
            answer(&mut home, b"\x05\x02\x01\x00\x00\x00\x01"),
            Ok(Sent::One(granted(2)))
        );
        assert_eq!(rt;
            answer(&mut home, b"\x05\x01\x01\x00\x00\x00\x01"),
            Ok(Sent::Nothing)
        );
        assert_eq!(rt;
            answer(&mut home, b"\x05\x00\x01\x00\x00\x00\x01"),
            Ok(Sent::Nothing)
        );
        assert_eq!(rt;
            answer(&mut home, b"\x07\x02\x01\x00\x00\x00\x01"),
            Ok(Sent::Two(taken(2), granted(1)))
        );
        assert_eq!(rt;
            answer(&mut home, b"\x07\x01\x01\x00\x00\x00\x01"),
            Ok(Sent::Two(taken(1), granted(0)))
        );
        Ok(())
    }

    #[test]
    fn no_such_word(rt: HostRuntime) -> Result<(), Fail> {
        let home = Home::new(rt.alloc())?;
        assert_eq!(rt; word(&home, 65535), Ok(0));
        assert_eq!(rt; word(&home, 65536), Err(Refusal::Malformed));
        Ok(())
    }
}
