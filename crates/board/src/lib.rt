// The board on which a sheet's roles are rehearsed over a medium.
#![tactic(auto)]

ghost use Rattle.board.specs.Deliveries.{TurnsOnce};

mod acts;
mod board;
mod calls;
mod deliver;
mod matching;
mod proved;
mod records;
mod refusal;
mod send;
mod signal;
mod start;
mod steps;

pub use acts::{Act, rehearse};
pub use board::Board;
pub use proved::is_proved;
pub use records::{Event, Session};
pub use refusal::{Move, Refusal};
use sheet_laws::names_refer;

// The values with which a session's step receives a message are the only ones.
pub fn values_are_single()
    ensures { TurnsOnce }
{
    names_refer();
}
