// What the tables of a board hold.
ghost use Rattle.std.specs.Prelude.{◌≡◌, ◌<◌};

use message::Atom;
use model::Name;

// An agent that plays a role: the step that it does next, and what each variable stands for, in the order in which they are declared.
#[derive(Clone, Copy, Debug, PartialEq, Eq)]
pub struct Session {
    pub role: usize,
    pub agent: u8,
    pub next: usize,
    pub values: [Option<Atom>; 5],
}

// A signal word, and the atoms that follow it: one to four, and nothing behind them.
#[derive(Clone, Copy, Debug, PartialEq, Eq)]
pub struct Event {
    pub word: Name,
    pub atoms: [Option<Atom>; 4],
}

impl Event {
    ghost use Rattle.board.specs.Records.{blank_event};

    // What a table may be filled with before a board has it.
    pub fn blank() -> Event
        ensures { result ≡ blank_event }
    {
        Event {
            word: Name::new(b""),
            atoms: [None; 4],
        }
    }
}

impl Session {
    ghost use Rattle.board.specs.Records.{blank_session};
    ghost use Rattle.board.specs.Steps.{moved};

    // What a table may be filled with before a board has it.
    pub fn blank() -> Session
        ensures { result ≡ blank_session }
    {
        Session {
            role: 0,
            agent: 0,
            next: 0,
            values: [None; 5],
        }
    }

    // One step further.
    pub(super) fn moved(self) -> Session
        requires { self.next < usize.MAX }
        ensures { result ≡ moved self self.values }
    {
        self.moved_with(self.values)
    }

    // One step further, with these values.
    pub(super) fn moved_with(self, values: [Option<Atom>; 5]) -> Session
        requires { self.next < usize.MAX }
        ensures { result ≡ moved self values }
    {
        Session {
            next: self.next + 1,
            values,
            ..self
        }
    }
}
