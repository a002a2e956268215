// Tests of the contact: how it ends over a relay and over an enemy, and where an area is one byte too short.
use super::*;
use board::{Event, Session};
use message::Atom;
use model::Name;
use sheet::Sheet;
use std::alloc::Global;
use std::process::Abort;
use std::test::Fail;

// The text of examples/silence.sheet.
const SHEET: &[u8] =
    b"link sheet 1\nagents\nagent G\nagent B\ntexts\ntext date\nroles\nrole bus B\nvar t text\nfresh n\nsend pair self n\nrecv seal self G pair G pair n t\nsig set self G n t\nrole ground G\nvar j agent\nvar c nonce\nvar t text\nrecv pair j c\nsig told self j c t\nsend seal self j pair self pair c t\nnonces\nnonce na B bus n\nknown\nclaim\nholds set B G na date needs told G B na date\nranks\nrank 0 key G B\nseal 0 G B pair G pair na date\nmark 0 set B G na date\nback 2 5 7 21 23 24 26\n";

fn read(heap: Global) -> Result<Sheet, Fail> {
    let mut sheet = Sheet::new(heap);
    sheet.read(SHEET)?;
    Ok(sheet)
}

fn event(word: &[u8], first: u8, second: u8) -> Event {
    Event {
        word: Name::new(word),
        atoms: [
            Some(Atom::Agent(first)),
            Some(Atom::Agent(second)),
            Some(Atom::Nonce(0)),
            Some(Atom::Text(0)),
        ],
    }
}

// G has told B, and B is set.
fn whole() -> Ending {
    Ending {
        declined: 0,
        logged: 2,
        first: Some(event(b"told", 0, 1)),
        second: Some(event(b"set", 1, 0)),
    }
}

// The answer is not sent, so that it is not received and nothing is completed.
fn cut_short() -> Ending {
    Ending {
        declined: 3,
        logged: 1,
        first: Some(event(b"told", 0, 1)),
        second: None,
    }
}

#[test]
fn reaches_the_completion_over_a_relay(rt: HostRuntime) -> Result<(), Fail> {
    let sheet = read(rt.alloc())?;
    let mut area = [0u8; 22];
    let (mut sessions, mut log) = ([Session::blank(); 2], [Event::blank(); 2]);
    let ending = over_relay(&sheet, &mut sessions, &mut log, &mut area);
    assert_eq!(rt; ending, Some(whole()));
    Ok(())
}

#[test]
fn is_cut_short_without_space(rt: HostRuntime) -> Result<(), Fail> {
    let sheet = read(rt.alloc())?;
    let mut area = [0u8; 21];
    let (mut sessions, mut log) = ([Session::blank(); 2], [Event::blank(); 2]);
    let ending = over_relay(&sheet, &mut sessions, &mut log, &mut area);
    assert_eq!(rt; ending, Some(cut_short()));
    Ok(())
}

#[test]
fn reaches_the_completion_over_an_enemy(rt: HostRuntime) -> Result<(), Fail> {
    let sheet = read(rt.alloc())?;
    let (mut area, mut marks) = ([0u8; 22], [0u8; 22]);
    let (mut sessions, mut log) = ([Session::blank(); 2], [Event::blank(); 2]);
    let ending = over_enemy(
        rt.alloc(),
        &sheet,
        &mut sessions,
        &mut log,
        &mut area,
        &mut marks,
    )?;
    assert_eq!(rt; ending, Some(whole()));
    Ok(())
}

#[test]
fn is_cut_short_without_marks(rt: HostRuntime) -> Result<(), Fail> {
    let sheet = read(rt.alloc())?;
    let (mut area, mut marks) = ([0u8; 22], [0u8; 21]);
    let (mut sessions, mut log) = ([Session::blank(); 2], [Event::blank(); 2]);
    let ending = over_enemy(
        rt.alloc(),
        &sheet,
        &mut sessions,
        &mut log,
        &mut area,
        &mut marks,
    )?;
    assert_eq!(rt; ending, Some(cut_short()));
    Ok(())
}

// A sheet that was not read has nothing to hold a contact on.
#[test]
fn holds_none_on_no_sheet(rt: HostRuntime) {
    let sheet = Sheet::new(rt.alloc());
    let mut area = [0u8; 22];
    let (mut sessions, mut log) = ([Session::blank(); 2], [Event::blank(); 2]);
    let ending = over_relay(&sheet, &mut sessions, &mut log, &mut area);
    assert_eq!(rt; ending, None);
}
