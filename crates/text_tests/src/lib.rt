// Examples of text that is read and written.
#![tactic(auto)]

#[cfg(test)]
mod tests {
    use basics::Refusal;
    use lines::{push_line, push_numbered, push_refusal, push_value};
    use std::test::Fail;
    use text::{Fault, HomeLine, home_line, next_word, number, push_hex, push_number, unhex};

    #[test]
    fn writes_hex(rt: HostRuntime) -> Result<(), Fail> {
        let mut out = Vec::new(rt.alloc());
        push_hex(&mut out, &[0, 9, 10, 175, 255])?;
        assert!(rt; out.as_slice() == b"00090aafff".as_slice());
        Ok(())
    }

    #[test]
    fn reads_hex_in_either_case(rt: HostRuntime) -> Result<(), Fail> {
        let bytes = unhex(rt.alloc(), b"00090aAFfF")?;
        assert!(rt; bytes.as_slice() == [0, 9, 10, 175, 255].as_slice());
        Ok(())
    }

    #[test]
    fn refuses_other_hex(rt: HostRuntime) {
        let heap = rt.alloc();
        assert_eq!(rt; unhex(heap, b"abc"), Err(Fault::Malformed));
        assert_eq!(rt; unhex(heap, b"0g"), Err(Fault::Malformed));
        assert_eq!(rt; unhex(heap, b" 00 "), Err(Fault::Malformed));
    }

    #[test]
    fn reads_numbers(rt: HostRuntime) {
        assert_eq!(rt; number(b"4294967295"), Some(4294967295));
        assert_eq!(rt; number(b"4294967296"), None);
        assert_eq!(rt; number(b"0000000000000000000007"), Some(7));
        assert_eq!(rt; number(b""), None);
        assert_eq!(rt; number(b"+1"), None);
    }

    #[test]
    fn writes_numbers(rt: HostRuntime) -> Result<(), Fail> {
        let mut out = Vec::new(rt.alloc());
        push_number(&mut out, 0)?;
        push_number(&mut out, 1090)?;
        push_number(&mut out, 4294967295)?;
        assert!(rt; out.as_slice() == b"010904294967295".as_slice());
        Ok(())
    }

    #[test]
    fn writes_lines(rt: HostRuntime) -> Result<(), Fail> {
        let mut out = Vec::new(rt.alloc());
        push_line(&mut out, 4294967295u32)?;
        push_line(&mut out, Refusal::LockState)?;
        assert!(rt; out.as_slice() == b"4294967295\nturned away 6\n".as_slice());
        Ok(())
    }

    #[test]
    fn writes_values_and_refusals(rt: HostRuntime) -> Result<(), Fail> {
        let mut out = Vec::new(rt.alloc());
        push_value(&mut out, 4294967295)?;
        push_refusal(&mut out, Refusal::LockState)?;
        push_numbered(&mut out, b"stale ", 15)?;
        assert!(rt; out.as_slice() == b"4294967295\nturned away 6\nstale 15".as_slice());
        Ok(())
    }

    #[test]
    fn parts_words(rt: HostRuntime) {
        let (word, rest) = next_word(b" \tshow  12\r");
        assert!(rt; word == b"show".as_slice());
        assert!(rt; rest == b"  12\r".as_slice());
        assert!(rt; next_word(rest).0 == b"12".as_slice());
    }

    #[test]
    fn reads_home_lines(rt: HostRuntime) -> Result<(), Fail> {
        let heap = rt.alloc();
        assert_eq!(rt; home_line(heap, b" \r"), Ok(HomeLine::Blank));
        assert_eq!(rt; home_line(heap, b"#show 1 2"), Ok(HomeLine::Blank));
        assert_eq!(rt; home_line(heap, b"show 7\r"), Ok(HomeLine::Show(7)));
        let HomeLine::Message(bytes) = home_line(heap, b" 0aFF ")? else {
            return Err(Fail::new("no message"));
        };
        assert!(rt; bytes.as_slice() == [10, 255].as_slice());
        Ok(())
    }

    #[test]
    fn refuses_other_home_lines(rt: HostRuntime) {
        let heap = rt.alloc();
        assert_eq!(rt; home_line(heap, b"show"), Err(Fault::Malformed));
        assert_eq!(rt; home_line(heap, b"show x"), Err(Fault::Malformed));
        assert_eq!(rt; home_line(heap, b"show 1 2"), Err(Fault::Malformed));
        assert_eq!(rt; home_line(heap, b"00 11"), Err(Fault::Malformed));
        assert_eq!(rt; home_line(heap, b"0g"), Err(Fault::Malformed));
        assert_eq!(rt; home_line(heap, b"abc"), Err(Fault::Malformed));
    }
}
