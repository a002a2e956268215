// Tests of media: what the enemy opens, what a repeat costs, the last byte of space, and what a refusal leaves.
#![tactic(auto)]

ghost use Rattle.std.specs.Prelude.{◌≡◌, Decides, MatchResult};
ghost use Rattle.medium.specs.Media.{Offers, Takes};
ghost use Rattle.message.specs.Message.{Msg, Reads};

use medium::{Medium, NoSpace};

// Takes a message and asks for it. Of code over any medium this says what is known of both calls together.
pub fn take_and_ask<M: Medium>(medium: &mut M, bytes: &[u8]) -> Result<bool, NoSpace>
    ensures { MatchResult result (λ offered. (m : Msg) × Reads bytes.now m × Takes (M.meaning medium.old) (M.meaning medium.new) m × Decides offered (Offers (M.meaning medium.new) bytes.now)) (λ _. medium.new ≡ medium.old) }
{
    medium.take(bytes)?;
    Ok(medium.offers(bytes))
}

#[cfg(test)]
mod tests {
    use super::take_and_ask;
    use medium::*;
    use sheet::*;
    use std::alloc::Global;
    use std::process::Abort;
    use std::test::Fail;

    // Five honest agents, so that fifteen keys are not known at the start, a named nonce and a named text. The key of agents 0 and 2 is told under one that the enemy has.
    const SHEET: &[u8] =
        b"link sheet 1\nagents\nagent A\nagent B\nagent C\nagent D\nagent E\nagent X enemy\ntexts\ntext date\nroles\nrole r\nfresh n\nsend n\nnonces\nnonce na A r n\nknown\nknow seal A X key A C\nclaim\nholds done A needs begun A\nranks\nback 2 9 11 15 17 19 21\n";

    const NONCE: &[u8] = b"N\x00\x00";

    const KEY: &[u8] = b"K\x00\x01";

    // The nonce sealed under the key.
    const SEALED: &[u8] = b"EK\x00\x01N\x00\x00";

    // The key sealed under one that the enemy has, and one that it is told.
    const SEALED_KEY: &[u8] = b"EK\x00\x07K\x00\x01";

    const TOLD_KEY: &[u8] = b"K\x00\x02";

    fn read(heap: Global) -> Result<Sheet, Fail> {
        let mut sheet = Sheet::new(heap);
        sheet.read(SHEET)?;
        Ok(sheet)
    }

    // That an enemy which hears the messages in turn offers the wanted one after the last of them and not before.
    fn check_opens(
        rt: &impl Abort,
        heap: Global,
        messages: &[&[u8]],
        wanted: &[u8],
    ) -> Result<(), Fail> {
        let sheet = read(heap)?;
        let contents = sheet.contents().ok_or("the sheet is empty")?;
        let (mut area, mut marks) = ([0u8; 256], [0u8; 256]);
        let mut enemy = Enemy::new(heap, contents, &mut area, &mut marks)?;
        for message in messages {
            assert!(rt; !enemy.offers(wanted));
            assert!(rt; enemy.take(message).is_ok());
        }
        assert!(rt; enemy.offers(wanted));
        Ok(())
    }

    #[test]
    fn opens_with_a_key_heard_after(rt: HostRuntime) -> Result<(), Fail> {
        check_opens(&rt, rt.alloc(), &[SEALED, KEY], NONCE)
    }

    #[test]
    fn opens_with_a_key_heard_before(rt: HostRuntime) -> Result<(), Fail> {
        check_opens(&rt, rt.alloc(), &[KEY, SEALED], NONCE)
    }

    #[test]
    fn opens_with_a_key_inside_another_seal(rt: HostRuntime) -> Result<(), Fail> {
        check_opens(&rt, rt.alloc(), &[SEALED, SEALED_KEY], NONCE)?;
        check_opens(&rt, rt.alloc(), &[SEALED_KEY, SEALED], NONCE)
    }

    #[test]
    fn opens_what_is_told(rt: HostRuntime) -> Result<(), Fail> {
        check_opens(&rt, rt.alloc(), &[], TOLD_KEY)?;
        check_opens(&rt, rt.alloc(), &[b"EK\x00\x02N\x00\x00"], NONCE)
    }

    #[test]
    fn takes_a_pair_out_of_a_seal_in_a_pair(rt: HostRuntime) -> Result<(), Fail> {
        let nested: &[u8] = b"PA\x03PEK\x00\x07PT\x00\x00N\x00\x00A\x01";
        check_opens(&rt, rt.alloc(), &[nested], NONCE)?;
        check_opens(&rt, rt.alloc(), &[nested], b"T\x00\x00")
    }

    #[test]
    fn seals_what_it_has(rt: HostRuntime) -> Result<(), Fail> {
        check_opens(&rt, rt.alloc(), &[KEY, NONCE], SEALED)?;
        check_opens(&rt, rt.alloc(), &[NONCE], b"PN\x00\x00A\xff")
    }

    // Ten keys, each under the next, heard before it; the last one opens them all.
    #[test]
    fn opens_a_chain_of_ten(rt: HostRuntime) -> Result<(), Fail> {
        let chain: [&[u8]; 11] = [
            SEALED,
            b"EK\x00\x03K\x00\x01",
            b"EK\x00\x04K\x00\x03",
            b"EK\x01\x02K\x00\x04",
            b"EK\x01\x03K\x01\x02",
            b"EK\x01\x04K\x01\x03",
            b"EK\x02\x03K\x01\x04",
            b"EK\x02\x04K\x02\x03",
            b"EK\x03\x04K\x02\x04",
            b"EK\x00\x00K\x03\x04",
            b"K\x00\x00",
        ];
        check_opens(&rt, rt.alloc(), &chain, NONCE)
    }

    // How many times a relay over such an area takes the same message of two bytes, of ten.
    fn count_takings(heap: Global, area: &mut [u8]) -> Result<usize, Fail> {
        let sheet = read(heap)?;
        let contents = sheet.contents().ok_or("the sheet is empty")?;
        let mut relay = Relay::new(contents, area);
        let mut taken = 0usize;
        for _ in 0..10 {
            if relay.take(b"A\x01").is_ok() {
                taken = taken.saturating_add(1);
            }
        }
        Ok(taken)
    }

    #[test]
    fn relay_offers_what_it_heard_alone(rt: HostRuntime) -> Result<(), Fail> {
        let sheet = read(rt.alloc())?;
        let contents = sheet.contents().ok_or("the sheet is empty")?;
        let mut area = [0u8; 64];
        let mut relay = Relay::new(contents, &mut area);
        assert_eq!(rt; take_and_ask(&mut relay, SEALED), Ok(true));
        assert_eq!(rt; take_and_ask(&mut relay, KEY), Ok(true));
        assert!(rt; !relay.offers(NONCE));
        assert!(rt; !relay.offers(b"A\x01"));
        assert_eq!(rt; take_and_ask(&mut relay, b"A"), Err(NoSpace));
        assert_eq!(rt; NoSpace.number(), 42);
        Ok(())
    }

    #[test]
    fn takes_up_to_the_last_byte(rt: HostRuntime) -> Result<(), Fail> {
        assert_eq!(rt; count_takings(rt.alloc(), &mut [])?, 0);
        assert_eq!(rt; count_takings(rt.alloc(), &mut [0; 2])?, 0);
        assert_eq!(rt; count_takings(rt.alloc(), &mut [0; 3])?, 1);
        assert_eq!(rt; count_takings(rt.alloc(), &mut [0; 5])?, 1);
        assert_eq!(rt; count_takings(rt.alloc(), &mut [0; 6])?, 2);
        Ok(())
    }

    // An enemy over these areas takes a message and refuses others.
    fn take_one(
        rt: &impl Abort,
        heap: Global,
        area: &mut [u8],
        marks: &mut [u8],
    ) -> Result<(), Fail> {
        let sheet = read(heap)?;
        let contents = sheet.contents().ok_or("the sheet is empty")?;
        let mut enemy = Enemy::new(heap, contents, area, marks)?;
        assert!(rt; enemy.take(b"A\x01").is_ok());
        assert!(rt; enemy.take(SEALED).is_err());
        assert!(rt; enemy.take(b"A").is_err());
        assert!(rt; enemy.take(b"").is_err());
        Ok(())
    }

    #[test]
    fn leaves_areas_as_they_were_where_it_refuses(rt: HostRuntime) -> Result<(), Fail> {
        let (mut area, mut marks) = ([0xaau8; 12], [0xbbu8; 8]);
        take_one(&rt, rt.alloc(), &mut area, &mut marks)?;
        assert_eq!(rt; &area[0..3], b"\x02A\x01".as_slice());
        assert!(rt; area[3..].iter().all(|byte| *byte == 0xaa));
        assert_eq!(rt; &marks[0..3], b"\x00\x01\x00".as_slice());
        assert!(rt; marks[3..].iter().all(|byte| *byte == 0xbb));
        Ok(())
    }
}
