// Tests of messages: read, taken apart, built, compared and told in words.
#![tactic(auto)]

#[cfg(test)]
mod tests {
    use message::*;
    use std::alloc::Global;
    use std::process::Abort;
    use std::test::Fail;

    // Messages of every letter, with their words.
    const TOLD: [(&str, &str); 12] = [
        ("41 00", "agent 0"),
        ("41 41", "agent 65"),
        ("4E 01 02", "nonce 258"),
        ("4E 50 45", "nonce 20549"),
        ("54 FF FF", "text 65535"),
        ("4B 07 07", "key 7 7"),
        ("4B 41 50", "key 65 80"),
        ("50 41 00 4E 00 05", "pair agent 0 nonce 5"),
        (
            "50 50 41 01 54 00 02 4B 03 04",
            "pair pair agent 1 text 2 key 3 4",
        ),
        ("50 41 50 4E 4E 41", "pair agent 80 nonce 20033"),
        ("45 4B 00 01 4E 01 02", "seal 0 1 nonce 258"),
        (
            "45 4B 45 4B 45 4B 41 50 41 50",
            "seal 69 75 seal 65 80 agent 80",
        ),
    ];

    // Nothing that begins with a message: forms that break off, keys with the greater owner first, no letter of a message.
    const REFUSED: [&str; 20] = [
        "",
        "41",
        "4E",
        "4E 00",
        "54",
        "54 00",
        "4B",
        "4B 00",
        "4B 01 00",
        "50",
        "50 41 00",
        "50 41 00 4E 00",
        "45",
        "45 4B",
        "45 4B 00",
        "45 4B 00 01",
        "45 4B 00 01 41",
        "45 4B 01 00 41 00",
        "45 41 00 01 41 00",
        "61 00",
    ];

    // A message, and what comes after it.
    const FRONTS: [(&str, &str); 6] = [
        ("41 41", "41"),
        ("4E 50 45", "4B 00 01"),
        ("4B 41 50", "41 50 41 50"),
        ("50 41 00 41 01", "41 02"),
        ("45 4B 00 01 41 00", "00"),
        ("54 00 07", ""),
    ];

    fn bytes_of(heap: Global, text: &str) -> Result<Vec<u8>, Fail> {
        Ok(hex_text::read(heap, text.as_bytes())?)
    }

    // That the bytes are refused by every call that reads a message.
    fn check_refused(rt: &impl Abort, heap: Global, text: &str, bytes: &[u8]) {
        assert!(rt; !is_message(bytes), "{text}");
        assert!(rt; take_apart(bytes).is_err(), "{text}");
        assert!(rt; read_front(bytes).is_err(), "{text}");
        assert!(rt;
            matches!(words(heap, bytes), Err(WordsError::NoMessage)),
            "{text}"
        );
    }

    #[test]
    fn tells_words(rt: HostRuntime) -> Result<(), Fail> {
        for (text, told) in TOLD {
            let bytes = bytes_of(rt.alloc(), text)?;
            assert!(rt; is_message(&bytes), "{}", text);
            assert_eq!(rt; words(rt.alloc(), &bytes)?.as_str(), told);
        }
        Ok(())
    }

    #[test]
    fn refuses_what_is_no_message(rt: HostRuntime) -> Result<(), Fail> {
        for text in REFUSED {
            let bytes = bytes_of(rt.alloc(), text)?;
            check_refused(&rt, rt.alloc(), text, &bytes);
        }
        Ok(())
    }

    #[test]
    fn reads_the_front(rt: HostRuntime) -> Result<(), Fail> {
        for (message, rest) in FRONTS {
            let message = bytes_of(rt.alloc(), message)?;
            let rest = bytes_of(rt.alloc(), rest)?;
            let mut whole = message.clone()?;
            whole.extend_from_slice(&rest)?;
            let front = read_front(&whole)?;
            assert_eq!(rt; front.message, message.as_slice());
            assert_eq!(rt; front.rest, rest.as_slice());
            assert_eq!(rt; is_message(&whole), rest.is_empty());
        }
        Ok(())
    }

    #[test]
    fn takes_apart(rt: HostRuntime) -> Result<(), Fail> {
        assert!(rt; matches!(take_apart(b"A\x07")?, Parts::Agent(7)));
        assert!(rt; matches!(take_apart(b"N\x01\x02")?, Parts::Nonce(258)));
        assert!(rt; matches!(take_apart(b"T\x02\x01")?, Parts::Text(513)));
        assert!(rt; matches!(take_apart(b"K\x03\x04")?, Parts::Key(3, 4)));
        let Parts::Pair { first, second } = take_apart(b"PPA\x01A\x02N\x00\x03")? else {
            return Err(Fail::new("no pair"));
        };
        assert_eq!(rt; first, b"PA\x01A\x02".as_slice());
        assert_eq!(rt; second, b"N\x00\x03".as_slice());
        let Parts::Seal { key, content } = take_apart(b"EK\x00\x01EK\x02\x03A\x04")? else {
            return Err(Fail::new("no seal"));
        };
        assert_eq!(rt; key, b"K\x00\x01".as_slice());
        assert_eq!(rt; content, b"EK\x02\x03A\x04".as_slice());
        Ok(())
    }

    #[test]
    fn builds_in_prefix_order(rt: HostRuntime) -> Result<(), Fail> {
        let mut built = Message::new();
        assert!(rt; built.as_bytes().is_empty());
        built.pair()?;
        built.key(5, 2)?;
        built.seal(1, 0)?;
        built.pair()?;
        built.atom(Atom::Agent(255))?;
        built.pair()?;
        built.atom(Atom::Nonce(258))?;
        built.atom(Atom::Text(65535))?;
        assert_eq!(rt;
            built.as_bytes(),
            b"PK\x02\x05EK\x00\x01PA\xFFPN\x01\x02T\xFF\xFF".as_slice()
        );
        Ok(())
    }

    #[test]
    fn refuses_numbers_out_of_range(rt: HostRuntime) -> Result<(), Fail> {
        let mut built = Message::new();
        built.pair()?;
        assert_eq!(rt; built.key(0, 256), Err(NotMessage));
        assert_eq!(rt; built.key(256, 0), Err(NotMessage));
        assert_eq!(rt; built.seal(65535, 255), Err(NotMessage));
        assert_eq!(rt; built.as_bytes(), b"P".as_slice());
        Ok(())
    }

    // That 94 bytes that lack one atom take an agent and then nothing more; and no nonce, whose last byte would be the 97th.
    fn check_ends_at_96(rt: &impl Abort, heap: Global, started: Message) -> Result<(), Fail> {
        let mut full = started;
        full.atom(Atom::Agent(2))?;
        assert_eq!(rt; full.as_bytes().len(), 96);
        assert!(rt; is_message(full.as_bytes()));
        let mut bytes = full.as_bytes().to_vec(heap)?;
        bytes.push(b'A')?;
        assert_eq!(rt; read_front(&bytes)?.message, full.as_bytes());
        assert_eq!(rt; full.pair(), Err(NotMessage));
        assert_eq!(rt; full.as_bytes().len(), 96);

        let mut over = started;
        assert_eq!(rt; over.atom(Atom::Nonce(2)), Err(NotMessage));
        assert_eq!(rt; over.as_bytes(), started.as_bytes());
        let mut bytes = started.as_bytes().to_vec(heap)?;
        bytes.extend_from_slice(b"N\x00\x02")?;
        assert_eq!(rt; bytes.len(), 97);
        check_refused(rt, heap, "97 bytes", &bytes);
        Ok(())
    }

    #[test]
    fn pairs_end_at_96_bytes(rt: HostRuntime) -> Result<(), Fail> {
        let mut built = Message::new();
        for number in 0..30 {
            built.pair()?;
            built.atom(Atom::Agent(number))?;
        }
        built.pair()?;
        built.atom(Atom::Nonce(1))?;
        check_ends_at_96(&rt, rt.alloc(), built)
    }

    #[test]
    fn seals_end_at_96_bytes(rt: HostRuntime) -> Result<(), Fail> {
        let mut built = Message::new();
        for owner in 0..22 {
            built.seal(owner, 22)?;
        }
        for number in 0..2 {
            built.pair()?;
            built.atom(Atom::Agent(number))?;
        }
        check_ends_at_96(&rt, rt.alloc(), built)
    }

    #[test]
    fn compares_messages(rt: HostRuntime) {
        assert!(rt; same_message(b"N\x00\x01", b"N\x00\x01"));
        assert!(rt; !same_message(b"N\x00\x01", b"N\x00\x02"));
        assert!(rt; !same_message(b"N\x00\x01", b"T\x00\x01"));
        assert!(rt; !same_message(b"A\x00", b"A\x00A\x00"));
        assert!(rt; !same_message(b"K\x01\x00", b"K\x01\x00"));
        assert!(rt; !same_message(b"", b""));
    }
}
