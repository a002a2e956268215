// What the calls come to, one by one and as a rehearsal, and whether a sheet is proved.
use super::calls::{CALLS, Call, EVENTS, SESSIONS, SHEET, SPACE, Wanted};
use board::*;
use checker::Unchecked;
use medium::*;
use message::*;
use model::Name;
use scale::Whole;
use sheet::*;
use std::alloc::{AllocError, Global};
use std::process::Abort;
use std::test::Fail;

fn event(word: &[u8], atoms: [Option<Atom>; 4]) -> Event {
    Event {
        word: Name::new(word),
        atoms,
    }
}

fn read(heap: Global, text: &str) -> Result<Sheet, Fail> {
    let mut sheet = Sheet::new(heap);
    sheet.read(text.as_bytes())?;
    Ok(sheet)
}

// What a call that is not declined comes to.
#[derive(Clone, Copy)]
enum Done {
    Started(usize),
    Sent(Message),
    Delivered,
    Logged,
}

fn make<M: Medium>(board: &mut Board, medium: &mut M, call: Call) -> Result<Done, Refusal> {
    match call {
        Call::Start(role, agent, values) => Ok(Done::Started(board.start(role, agent, values)?)),
        Call::Send(session) => Ok(Done::Sent(board.send(session, medium)?)),
        Call::Deliver(session, bytes) => {
            board.deliver(session, medium, bytes)?;
            Ok(Done::Delivered)
        }
        Call::Signal(session) => {
            board.signal(session)?;
            Ok(Done::Logged)
        }
    }
}

fn is_wanted(answer: &Result<Done, Refusal>, wanted: Wanted) -> bool {
    match (answer, wanted) {
        (Ok(Done::Started(number)), Wanted::Started(other)) => *number == other,
        (Ok(Done::Sent(message)), Wanted::Sent(bytes)) => message.as_bytes() == bytes,
        (Ok(Done::Delivered), Wanted::Delivered) | (Ok(Done::Logged), Wanted::Logged) => true,
        (Err(refusal), Wanted::Refused(number, row)) => {
            (refusal.number(), refusal.row(), refusal.place()) == (number, row, 0)
        }
        _ => false,
    }
}

// That each call comes to what is wanted.
fn check_calls<M: Medium>(rt: &impl Abort, board: &mut Board, medium: &mut M) {
    for (i, (call, wanted)) in CALLS.iter().enumerate() {
        let answer = make(board, medium, *call);
        assert!(rt; is_wanted(&answer, *wanted), "{}", i);
    }
}

#[test]
fn answers_each_call(rt: HostRuntime) -> Result<(), Fail> {
    let sheet = read(rt.alloc(), SHEET)?;
    let contents = sheet.contents().ok_or("the sheet is empty")?;
    let (mut area, mut marks) = ([0u8; SPACE], [0u8; SPACE]);
    let mut enemy = Enemy::new(rt.alloc(), contents, &mut area, &mut marks)?;
    let (mut sessions, mut log) = ([Session::blank(); SESSIONS], [Event::blank(); EVENTS]);
    let mut board = Board::new(&sheet, &mut sessions, &mut log);
    check_calls(&rt, &mut board, &mut enemy);
    // What is bound, and what the signals say of it.
    let bound = [
        Some(Atom::Agent(1)),
        Some(Atom::Nonce(65535)),
        Some(Atom::Agent(255)),
        Some(Atom::Nonce(65534)),
        Some(Atom::Text(65535)),
    ];
    let values = board.sessions().get(2).map(|session| session.values);
    assert_eq!(rt; values, Some(bound));
    let (ground, bus) = (Some(Atom::Agent(0)), Some(Atom::Agent(1)));
    let (nonce, date) = (Some(Atom::Nonce(0)), Some(Atom::Text(0)));
    let signalled = [
        event(b"told", [ground, bus, nonce, date]),
        event(b"set", [bus, ground, nonce, date]),
        event(b"met", [bus, bus, bus, None]),
    ];
    assert_eq!(rt; board.log(), signalled.as_slice());
    Ok(())
}

// What is on a board.
#[derive(Drop)]
struct Held {
    sessions: Vec<Session>,
    log: Vec<Event>,
}

impl Held {
    fn on(heap: Global, board: &Board) -> Result<Held, AllocError> {
        let mut sessions = Vec::new(heap);
        sessions.extend_from_slice(board.sessions())?;
        let mut log = Vec::new(heap);
        log.extend_from_slice(board.log())?;
        Ok(Held { sessions, log })
    }

    fn is(&self, other: &Held) -> bool {
        self.sessions.as_slice() == other.sessions.as_slice()
            && self.log.as_slice() == other.log.as_slice()
    }
}

// Makes a call, and answers whether it comes to something, or leaves what is on the board.
fn does_or_leaves<M: Medium>(
    heap: Global,
    board: &mut Board,
    medium: &mut M,
    call: Call,
) -> Result<bool, AllocError> {
    let before = Held::on(heap, board)?;
    let is_done = make(board, medium, call).is_ok();
    let after = Held::on(heap, board)?;
    Ok(is_done || after.is(&before))
}

// That a call which is declined leaves what is on the board.
fn check_declined<M: Medium>(
    rt: &impl Abort,
    heap: Global,
    board: &mut Board,
    medium: &mut M,
) -> Result<(), Fail> {
    for (i, (call, _)) in CALLS.iter().enumerate() {
        let stays = does_or_leaves(heap, board, medium, *call)?;
        assert!(rt; stays, "{}", i);
    }
    Ok(())
}

#[test]
fn declined_calls_change_nothing(rt: HostRuntime) -> Result<(), Fail> {
    let sheet = read(rt.alloc(), SHEET)?;
    let contents = sheet.contents().ok_or("the sheet is empty")?;
    let (mut area, mut marks) = ([0u8; SPACE], [0u8; SPACE]);
    let mut enemy = Enemy::new(rt.alloc(), contents, &mut area, &mut marks)?;
    let (mut sessions, mut log) = ([Session::blank(); SESSIONS], [Event::blank(); EVENTS]);
    let mut board = Board::new(&sheet, &mut sessions, &mut log);
    check_declined(&rt, rt.alloc(), &mut board, &mut enemy)
}

// Makes the calls one by one, and answers how many are declined.
fn count_declined<M: Medium>(board: &mut Board, medium: &mut M) -> usize {
    let mut declined = 0usize;
    for (call, _) in CALLS {
        if make(board, medium, call).is_err() {
            declined = declined.saturating_add(1);
        }
    }
    declined
}

// How many calls are declined that are made one by one over the medium, and what is then on the board.
fn make_each<M: Medium>(
    heap: Global,
    sheet: &Sheet,
    medium: &mut M,
) -> Result<(usize, Held), Fail> {
    let (mut sessions, mut log) = ([Session::blank(); SESSIONS], [Event::blank(); EVENTS]);
    let mut board = Board::new(sheet, &mut sessions, &mut log);
    let declined = count_declined(&mut board, medium);
    let held = Held::on(heap, &board)?;
    Ok((declined, held))
}

// The same of their rehearsal.
fn rehearse_all<M: Medium>(
    heap: Global,
    sheet: &Sheet,
    medium: &mut M,
) -> Result<(usize, Held), Fail> {
    let acts: Vec<Act> = CALLS.iter().map(|(call, _)| call.act()).collect(heap)?;
    let (mut sessions, mut log) = ([Session::blank(); SESSIONS], [Event::blank(); EVENTS]);
    let mut board = Board::new(sheet, &mut sessions, &mut log);
    let declined = rehearse::<Whole, M>(&mut board, medium, &acts);
    let held = Held::on(heap, &board)?;
    Ok((declined, held))
}

// The relay does not offer what nobody sent, so one call more is declined than over the enemy.
#[test]
fn rehearses_over_a_relay(rt: HostRuntime) -> Result<(), Fail> {
    let sheet = read(rt.alloc(), SHEET)?;
    let contents = sheet.contents().ok_or("the sheet is empty")?;
    let mut area = [0u8; SPACE];
    let mut relay = Relay::new(contents, &mut area);
    let (made, held) = make_each(rt.alloc(), &sheet, &mut relay)?;
    let mut area = [0u8; SPACE];
    let mut relay = Relay::new(contents, &mut area);
    let (rehearsed, other) = rehearse_all(rt.alloc(), &sheet, &mut relay)?;
    assert_eq!(rt; (made, rehearsed), (59, 59));
    assert!(rt; held.is(&other));
    Ok(())
}

#[test]
fn rehearses_over_an_enemy(rt: HostRuntime) -> Result<(), Fail> {
    let sheet = read(rt.alloc(), SHEET)?;
    let contents = sheet.contents().ok_or("the sheet is empty")?;
    let (mut area, mut marks) = ([0u8; SPACE], [0u8; SPACE]);
    let mut enemy = Enemy::new(rt.alloc(), contents, &mut area, &mut marks)?;
    let (made, held) = make_each(rt.alloc(), &sheet, &mut enemy)?;
    let (mut area, mut marks) = ([0u8; SPACE], [0u8; SPACE]);
    let mut enemy = Enemy::new(rt.alloc(), contents, &mut area, &mut marks)?;
    let (rehearsed, other) = rehearse_all(rt.alloc(), &sheet, &mut enemy)?;
    assert_eq!(rt; (made, rehearsed), (58, 58));
    assert!(rt; held.is(&other));
    Ok(())
}

// The text of examples/silence.sheet, and the two lines of it that another ground has in the other order.
const SILENCE: &str =
    "link sheet 1\nagents\nagent G\nagent B\ntexts\ntext date\nroles\nrole bus B\nvar t text\nfresh n\nsend pair self n\nrecv seal self G pair G pair n t\nsig set self G n t\nrole ground G\nvar j agent\nvar c nonce\nvar t text\nrecv pair j c\nsig told self j c t\nsend seal self j pair self pair c t\nnonces\nnonce na B bus n\nknown\nclaim\nholds set B G na date needs told G B na date\nranks\nrank 0 key G B\nseal 0 G B pair G pair na date\nmark 0 set B G na date\nback 2 5 7 21 23 24 26\n";

const TOLD_THEN_SENT: &str = "sig told self j c t\nsend seal self j pair self pair c t\n";

const SENT_THEN_TOLD: &str = "send seal self j pair self pair c t\nsig told self j c t\n";

#[test]
fn proves_the_silence_sheet_alone(rt: HostRuntime) -> Result<(), Fail> {
    let heap = rt.alloc();
    let sheet = read(heap, SILENCE)?;
    assert_eq!(rt; is_proved::<Whole, Relay>(heap, &sheet), Ok(true));
    let sheet = read(
        heap,
        &SILENCE.replace(heap, TOLD_THEN_SENT, SENT_THEN_TOLD)?,
    )?;
    assert_eq!(rt; is_proved::<Whole, Relay>(heap, &sheet), Ok(false));
    let unread = is_proved::<Whole, Relay>(heap, &Sheet::new(heap));
    assert_eq!(rt; unread, Err(Unchecked::Unread));
    assert_eq!(rt; unread.map_err(Unchecked::number), Err(Some(20)));
    Ok(())
}
