// Tests of ranks: those of messages and events under a sheet.
#![tactic(auto)]

#[cfg(test)]
mod tests {
    use message::Atom;
    use ranks::{event_rank, is_positive, is_valued, rank};
    use scale::{TwoValued, Whole};
    use sheet::Sheet;
    use std::alloc::Global;
    use std::test::Fail;

    const TEXT: &[u8] = b"link sheet 1\n\
        agents\n\
        agent ops\n\
        agent sat\n\
        agent eve enemy\n\
        texts\n\
        text date\n\
        text safe\n\
        text hot\n\
        text cold\n\
        roles\n\
        role ground ops\n\
        var word text\n\
        fresh tag\n\
        send pair self tag\n\
        recv seal self sat pair sat pair tag word\n\
        sig told self sat tag word\n\
        role craft\n\
        var peer agent\n\
        var tag nonce\n\
        var word text\n\
        recv pair peer tag\n\
        sig set self peer tag word\n\
        send seal self peer pair self pair tag word\n\
        nonces\n\
        nonce na ops ground tag\n\
        nonce nb ops ground tag\n\
        known\n\
        know pair eve key eve ops\n\
        know seal eve sat date\n\
        claim\n\
        holds told ops sat na date needs set sat ops na date\n\
        ranks\n\
        free any agent\n\
        free tag nonce\n\
        rank 0 key ops sat\n\
        rank -3 na\n\
        rank 7 date\n\
        seal 0 sat ops pair sat pair na date\n\
        seal 1 ops any tag\n\
        mark 0 told ops sat na date\n\
        mark 2 set sat ops na date\n\
        back 2 6 11 25 28 31 33\n";

    // The bytes of a message, and its rank on the whole scale.
    const RANKED: [(&[u8], Option<i16>); 12] = [
        (b"A\x00", Some(1)),
        (b"N\x00\x00", Some(-3)),
        (b"N\x00\x01", Some(1)),
        (b"T\x00\x00", Some(7)),
        (b"K\x00\x01", Some(0)),
        (b"K\x00\x05", Some(1)),
        (b"PN\x00\x00T\x00\x00", Some(-3)),
        (b"EK\x00\x01PA\x01PN\x00\x00T\x00\x00", Some(0)),
        (b"EK\x00\x05N\x00\x00", Some(1)),
        (b"EK\x00\x05T\x00\x00", Some(7)),
        (b"EK\x01\x01N\x00\x00", Some(-3)),
        (b"A", None),
    ];

    fn read(heap: Global) -> Result<Sheet, Fail> {
        let mut sheet = Sheet::new(heap);
        if sheet.read(TEXT).is_err() {
            return Err(Fail::new("the sheet is not read"));
        }
        Ok(sheet)
    }

    #[test]
    fn ranks_messages(rt: HostRuntime) -> Result<(), Fail> {
        let sheet = read(rt.alloc())?;
        let Some(contents) = sheet.contents() else {
            return Err(Fail::new("no contents"));
        };
        for (bytes, wanted) in &RANKED {
            assert!(rt; rank::<Whole>(contents, bytes) == *wanted, "{bytes:?}");
            assert!(rt;
                is_positive::<Whole>(contents, bytes) == wanted.is_some_and(|rank| rank > 0),
                "{bytes:?}"
            );
        }
        Ok(())
    }

    #[test]
    fn ranks_events(rt: HostRuntime) -> Result<(), Fail> {
        let sheet = read(rt.alloc())?;
        let Some(contents) = sheet.contents() else {
            return Err(Fail::new("no contents"));
        };
        let atoms = [
            Atom::Agent(0),
            Atom::Agent(1),
            Atom::Nonce(0),
            Atom::Text(0),
        ];
        assert!(rt;
            event_rank::<Whole>(contents, b"told", &atoms) == 0,
            "marked"
        );
        assert!(rt;
            event_rank::<Whole>(contents, b"set", &atoms) == 1,
            "not marked"
        );
        Ok(())
    }

    #[test]
    fn tells_values(rt: HostRuntime) -> Result<(), Fail> {
        let sheet = read(rt.alloc())?;
        let Some(contents) = sheet.contents() else {
            return Err(Fail::new("no contents"));
        };
        assert!(rt; is_valued::<Whole>(contents), "whole");
        assert!(rt; !is_valued::<TwoValued>(contents), "two-valued");
        Ok(())
    }
}
