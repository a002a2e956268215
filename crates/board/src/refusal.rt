// Why a call of a board is declined.
ghost use Rattle.std.specs.Prelude.{◌≡◌};
ghost use Rattle.board.specs.Refusals.{move_row, number_of, place_of, row_of};

use medium::NoSpace;
use tables::Full;
use thiserror::Error;

// The place of what lies in no byte of a text.
const NO_PLACE: usize = 0;

// The calls that move a session on.
#[derive(Clone, Copy, Debug, PartialEq, Eq)]
pub enum Move {
    Send,
    Deliver,
    Signal,
}

impl Move {
    // Its row in the table of refusals.
    fn row(self) -> &'static str
        ensures { result.now ≡ move_row self }
    {
        match self {
            Move::Send => "send",
            Move::Deliver => "deliver",
            Move::Signal => "signal",
        }
    }
}

#[derive(Clone, Copy, Debug, PartialEq, Eq, Error)]
#[error("refusal {}", self.number())]
pub enum Refusal {
    // The sheet has no such role.
    NoRole,
    // The agent may not play it.
    NotPlayer,
    // A variable may not stand for this.
    NotAllowed,
    // The table of sessions is full.
    SessionsFull,
    // There is no such session.
    NoSession(Move),
    // Its next step is another, or it has none.
    OtherStep(Move),
    // The medium has no space.
    NoSpace,
    // The bytes are no message.
    NotMessage,
    // The medium does not offer it.
    NotOffered,
    // It is not what the step receives.
    NoMatch,
    // The log is full.
    LogFull,
}

impl Refusal {
    // The refusal's number.
    pub fn number(self) -> u8
        ensures { result ≡ number_of self }
    {
        match self {
            Refusal::NoRole => 30,
            Refusal::NotPlayer => 31,
            Refusal::NotAllowed => 32,
            Refusal::SessionsFull => 33,
            Refusal::NoSession(_) => 40,
            Refusal::OtherStep(_) => 41,
            Refusal::NoSpace => 42,
            Refusal::NotMessage => 43,
            Refusal::NotOffered => 44,
            Refusal::NoMatch => 45,
            Refusal::LogFull => 46,
        }
    }

    // Its row in the table of refusals: the call that is declined.
    pub fn row(self) -> &'static str
        ensures { result.now ≡ row_of self }
    {
        match self {
            Refusal::NoRole | Refusal::NotPlayer | Refusal::NotAllowed | Refusal::SessionsFull => {
                "start"
            }
            Refusal::NoSession(call) | Refusal::OtherStep(call) => call.row(),
            Refusal::NoSpace => Move::Send.row(),
            Refusal::NotMessage | Refusal::NotOffered | Refusal::NoMatch => Move::Deliver.row(),
            Refusal::LogFull => Move::Signal.row(),
        }
    }

    // Where it lies.
    pub fn place(self) -> usize
        ensures { result ≡ place_of self }
    {
        NO_PLACE
    }
}

// Of the calls that move a session on, only `signal` puts anything into a table.
impl From<Full> for Refusal {
    ghost use Rattle.board.specs.declared.refusal.Refusal.TheVariants.{LogFull};

    ghost from_gives = { λ _ r. r ≡ LogFull };

    fn from(_: Full) -> Refusal {
        Refusal::LogFull
    }
}

impl From<NoSpace> for Refusal {
    ghost use Rattle.board.specs.declared.refusal.Refusal.TheVariants as refusal;

    ghost from_gives = { λ _ r. r ≡ refusal.NoSpace };

    fn from(_: NoSpace) -> Refusal {
        Refusal::NoSpace
    }
}
