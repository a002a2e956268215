// What the check answers of a sheet, and what it is declined for.
ghost use Rattle.std.specs.Prelude.{◌≡◌};
ghost use Rattle.std.specs.Option.{option_map};
ghost use Rattle.checker.specs.declared.verdict.Unchecked.TheVariants.{Memory};
ghost use Rattle.checker.specs.Kept.{number_of, place_of, row_of, verdict_of};
ghost use Rattle.checker.specs.Verdicts.{failing};

use message::Atom;
use std::alloc::{AllocError, AllocFailed};
use thiserror::Error;

// The sheet is accepted; or the first condition that fails, where, and for which values. Lines are counted from 0 among their like, and so are
// roles and a role's steps.
#[derive(Drop)]
pub enum Verdict {
    Accepted,
    // The first condition, at a `know` or a `rank` line.
    Known {
        line: usize,
    },
    Ranked {
        line: usize,
    },
    // The second, at a `seal` line, for the least values of the free variables that stand there.
    Sealed {
        line: usize,
        values: Vec<Option<Atom>>,
    },
    // The third.
    Completed,
    // The fourth, at a role's step, for the least agent as `self` and values of the role's variables.
    Acted {
        role: usize,
        step: usize,
        agent: u8,
        values: Vec<Option<Atom>>,
    },
}

impl Verdict {
    // The number of the condition that fails, if one does.
    pub fn condition(&self) -> Option<u8>
        ensures { result ≡ failing (verdict_of self.now) }
    {
        match self {
            Verdict::Accepted => None,
            Verdict::Known { line: _ } | Verdict::Ranked { line: _ } => Some(1),
            Verdict::Sealed { line: _, values: _ } => Some(2),
            Verdict::Completed => Some(3),
            Verdict::Acted {
                role: _,
                step: _,
                agent: _,
                values: _,
            } => Some(4),
        }
    }
}

// Where the refusals of the check stand in the table of refusals.
const ROW: &str = "check";

// Why a sheet is not checked: it was not read, the scale lacks a value that a line gives, or memory is wanting, which comes only by way of `?`
// from calls that allocate.
#[derive(Clone, Copy, Debug, PartialEq, Eq, Error)]
pub enum Unchecked {
    #[error("fault 20 at 0")]
    Unread,
    #[error("fault 21 at 0")]
    Lacking,
    #[error("out of memory")]
    Memory,
}

impl Unchecked {
    // The refusal's number; want of memory has none.
    pub fn number(self) -> Option<u8>
        ensures { result ≡ number_of self }
    {
        match self {
            Unchecked::Unread => Some(20),
            Unchecked::Lacking => Some(21),
            Unchecked::Memory => None,
        }
    }

    // Its row in the table of refusals.
    pub fn row(self) -> Option<&'static str>
        ensures { option_map (λ row. row.now) result ≡ row_of self }
    {
        self.number().map(|_| ROW)
    }

    // Where it lies: in no byte of the text, which counts as 0.
    pub fn place(self) -> Option<usize>
        ensures { result ≡ place_of self }
    {
        self.number().map(|_| 0)
    }
}

// These two are by hand, since what a derive writes has no `from_gives`, which says what `?` makes.
impl From<AllocError> for Unchecked {
    ghost from_gives = { λ _ r. r ≡ Memory };

    fn from(_e: AllocError) -> Unchecked {
        Unchecked::Memory
    }
}

impl<T: Drop> From<AllocFailed<T>> for Unchecked {
    ghost from_gives = { λ _ r. r ≡ Memory };

    fn from(_e: AllocFailed<T>) -> Unchecked {
        Unchecked::Memory
    }
}
