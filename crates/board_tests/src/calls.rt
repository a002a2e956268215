// The calls that are made on one board, in this order, and what each comes to.
use board::Act;
use message::MOST;

// The silence order, with an agent of the enemy's and two roles that any honest agent may play. Role `any` receives its own nonce first, and one
// agent twice. Role `twin` sends one of its keys and receives another.
pub const SHEET: &str =
    "link sheet 1\nagents\nagent G\nagent B\nagent E enemy\ntexts\ntext date\nroles\nrole bus B\nvar t text\nfresh n\nsend pair self n\nrecv seal self G pair G pair n t\nsig set self G n t\nrole ground G\nvar j agent\nvar c nonce\nvar t text\nrecv pair j c\nsig told self j c t\nsend seal self j pair self pair c t\nrole any\nvar p agent\nfresh m\nvar q agent\nfresh k\nvar x text\nrecv pair m pair p p\nsig seen self p q x\nsend pair q k\nrole twin\nvar a agent\nvar b agent\nsend key self a\nrecv key self b\nsig met self a b\nsend pair self b\nnonces\nnonce na B bus n\nnonce nb B any m\nknown\nclaim\nholds set B G na date needs told G B na date\nranks\nrank 0 key G B\nseal 0 G B pair G pair na date\nmark 0 set B G na date\nback 2 6 8 38 41 42 44\n";

// So many sessions and events have room on the board, and so many bytes in the medium.
pub const SESSIONS: usize = 6;

pub const EVENTS: usize = 3;

pub const SPACE: usize = 32;

// A call of a board. It is shorter to write than an `Act`.
#[derive(Clone, Copy)]
pub enum Call {
    Start(usize, u8, [u16; 5]),
    Send(usize),
    Deliver(usize, &'static [u8]),
    Signal(usize),
}

use Call::{Deliver, Send, Signal, Start};

impl Call {
    // The call as a rehearsal takes it.
    pub fn act(self) -> Act<'static> {
        match self {
            Start(role, agent, values) => Act::Start {
                role,
                agent,
                values,
            },
            Send(session) => Act::Send { session },
            Deliver(session, bytes) => Act::Deliver { session, bytes },
            Signal(session) => Act::Signal { session },
        }
    }
}

// What a call comes to: a session's number, the message that is sent, or the number and the row of a refusal.
#[derive(Clone, Copy)]
pub enum Wanted {
    Started(usize),
    Sent(&'static [u8]),
    Delivered,
    Logged,
    Refused(u8, &'static str),
}

use Wanted::{Delivered, Logged, Refused, Sent, Started};

// What the bus says of itself, and what it is told.
const HELLO: &[u8] = b"PA\x01N\x00\x00";

const ORDER: &[u8] = b"EK\x00\x01PA\x00PN\x00\x00T\x00\x00";

// Messages of the most bytes, of which the second has a nonce that the enemy does not know; and what would be one, had it not a byte more.
const LONG: &[u8] =
    b"PA\x01PA\x01PA\x01PA\x01PA\x01PA\x01PA\x01PA\x01PA\x01PA\x01PA\x01PA\x01PA\x01PA\x01PA\x01PA\x01PA\x01PA\x01PA\x01PA\x01PA\x01PA\x01PA\x01PA\x01PA\x01PA\x01PA\x01PA\x01PA\x01PA\x01PA\x01N\x00\x02";

const LONG_UNKNOWN: &[u8] =
    b"PA\x01PA\x01PA\x01PA\x01PA\x01PA\x01PA\x01PA\x01PA\x01PA\x01PA\x01PA\x01PA\x01PA\x01PA\x01PA\x01PA\x01PA\x01PA\x01PA\x01PA\x01PA\x01PA\x01PA\x01PA\x01PA\x01PA\x01PA\x01PA\x01PA\x01PA\x01N\x00\x00";

const TOO_LONG: &[u8] =
    b"PN\x00\x02PA\x01PA\x01PA\x01PA\x01PA\x01PA\x01PA\x01PA\x01PA\x01PA\x01PA\x01PA\x01PA\x01PA\x01PA\x01PA\x01PA\x01PA\x01PA\x01PA\x01PA\x01PA\x01PA\x01PA\x01PA\x01PA\x01PA\x01PA\x01PA\x01PA\x01N\x00\x02";

const _: () = prove!(LONG.len() == MOST);

const _: () = prove!(LONG_UNKNOWN.len() == MOST);

const _: () = prove!(TOO_LONG.len() == MOST + 1);

// Where two refusals hold, the earlier one is wanted.
pub const CALLS: [(Call, Wanted); 75] = [
    // No such role, whoever is to play it.
    (Start(4, 255, [9; 5]), Refused(30, "start")),
    (Start(usize::MAX, 1, [0; 5]), Refused(30, "start")),
    // Agents that have no name, are not the player or are the enemy's.
    (Start(0, 255, [9; 5]), Refused(31, "start")),
    (Start(0, 0, [0; 5]), Refused(31, "start")),
    (Start(2, 2, [0; 5]), Refused(31, "start")),
    (Start(2, 3, [0; 5]), Refused(31, "start")),
    // Numbers for a variable that is received, and past those that are declared.
    (Start(0, 1, [1, 0, 0, 0, 0]), Refused(32, "start")),
    (Start(0, 1, [0, 0, 1, 0, 0]), Refused(32, "start")),
    (Start(0, 1, [0, 0, 0, 0, 65535]), Refused(32, "start")),
    // Nonces with a name that is for another role, another agent or another variable.
    (Start(0, 1, [0, 1, 0, 0, 0]), Refused(32, "start")),
    (Start(2, 0, [0, 1, 0, 2, 0]), Refused(32, "start")),
    (Start(2, 1, [0, 2, 0, 1, 0]), Refused(32, "start")),
    // No agent has the number 256.
    (Start(2, 1, [0, 2, 256, 2, 0]), Refused(32, "start")),
    // The last of these takes the last place in the table.
    (Start(0, 1, [0; 5]), Started(0)),
    (Start(1, 0, [0; 5]), Started(1)),
    (Start(2, 1, [0, 65535, 255, 65534, 65535]), Started(2)),
    (Start(2, 1, [0, 1, 0, 2, 0]), Started(3)),
    (Start(3, 1, [1, 0, 0, 0, 0]), Started(4)),
    (Start(0, 1, [0, 65535, 0, 0, 0]), Started(5)),
    (Start(0, 1, [0, 65535, 0, 0, 0]), Refused(33, "start")),
    (Start(4, 1, [0; 5]), Refused(30, "start")),
    (Start(0, 0, [0; 5]), Refused(31, "start")),
    (Start(0, 1, [1, 0, 0, 0, 0]), Refused(32, "start")),
    // No such session, whatever the bytes.
    (Send(6), Refused(40, "send")),
    (Send(usize::MAX), Refused(40, "send")),
    (Deliver(6, b""), Refused(40, "deliver")),
    (Deliver(usize::MAX, LONG), Refused(40, "deliver")),
    (Signal(6), Refused(40, "signal")),
    (Signal(usize::MAX), Refused(40, "signal")),
    // The bus sends next and the ground receives.
    (Deliver(0, b""), Refused(41, "deliver")),
    (Signal(0), Refused(41, "signal")),
    (Send(1), Refused(41, "send")),
    (Signal(1), Refused(41, "signal")),
    // What is no message; what is not offered, though the last would do; and what is offered and is not received.
    (Deliver(1, b""), Refused(43, "deliver")),
    (Deliver(1, b"PA\x01N\x00\x00\x00"), Refused(43, "deliver")),
    (Deliver(1, TOO_LONG), Refused(43, "deliver")),
    (Deliver(1, LONG_UNKNOWN), Refused(44, "deliver")),
    (Deliver(1, LONG), Refused(45, "deliver")),
    (Deliver(1, b"N\x00\x00"), Refused(44, "deliver")),
    (Deliver(1, HELLO), Refused(44, "deliver")),
    // Where the text after it fails, the agent is not bound.
    (Send(0), Sent(HELLO)),
    (Send(0), Refused(41, "send")),
    (Deliver(1, b"PA\x00T\x00\x05"), Refused(45, "deliver")),
    (Deliver(1, HELLO), Delivered),
    (Send(1), Refused(41, "send")),
    (Deliver(0, ORDER), Refused(44, "deliver")),
    (Signal(1), Logged),
    (Send(1), Sent(ORDER)),
    // The ground is at its end.
    (Send(1), Refused(41, "send")),
    (Deliver(1, HELLO), Refused(41, "deliver")),
    (Signal(1), Refused(41, "signal")),
    // The bus receives the order alone.
    (Deliver(0, HELLO), Refused(45, "deliver")),
    (Deliver(0, ORDER), Delivered),
    (Signal(0), Logged),
    (Signal(0), Refused(41, "signal")),
    // A key of one agent twice, which has to be the one that plays. The event takes the last place in the log.
    (Send(4), Sent(b"K\x01\x01")),
    (Deliver(4, b"K\x02\x02"), Refused(45, "deliver")),
    (Deliver(4, b"K\x01\x01"), Delivered),
    (Signal(4), Logged),
    // The session's own nonce has to be received, and the same agent twice. A nonce that nobody sent is not offered, though it has a name.
    (Deliver(2, b"PN\x00\x02PA\x01A\x01"), Refused(45, "deliver")),
    (Deliver(2, b"PN\xff\xffPA\x00A\x01"), Refused(45, "deliver")),
    (Deliver(2, b"PN\xff\xffPA\x01A\x01"), Delivered),
    (Deliver(3, b"PN\x00\x01PA\x01A\x01"), Refused(44, "deliver")),
    // The log is full.
    (Signal(2), Refused(46, "signal")),
    (Signal(2), Refused(46, "signal")),
    (Signal(3), Refused(41, "signal")),
    (Signal(6), Refused(40, "signal")),
    // Six bytes of space are left: one too few for the bus, and just enough for the twin.
    (Send(5), Refused(42, "send")),
    (Send(4), Sent(b"PA\x01A\x01")),
    (Send(4), Refused(41, "send")),
    (Send(5), Refused(42, "send")),
    (Send(3), Refused(41, "send")),
    (Send(6), Refused(40, "send")),
    // A full medium still offers.
    (Deliver(5, HELLO), Refused(41, "deliver")),
    (Deliver(3, HELLO), Refused(45, "deliver")),
];
