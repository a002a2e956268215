// Ranks of messages and events, and the conditions under which they prove a claim.
#![tactic(auto)]

ghost use Rattle.ranks.specs.Laws.{EnemyStaysPositive, RanksAreSingle, SecondConditionIsExact};

mod compute;
mod event;
mod matching;
mod piece;
mod pieces;
mod signal;
mod stack;
mod valued;

pub use compute::{gives_bytes, is_positive, rank};
pub use event::event_rank;
pub use matching::{is_atom, is_kind};
pub use piece::Piece;
pub use pieces::Pieces;
use scale::Scale;
pub use signal::{lists_signal, signal_rank};
pub use valued::is_valued;

// Every message has exactly one rank, and so has every event.
pub fn ranks_are_single<S: Scale>()
    ensures { RanksAreSingle S.meaning }
{}

// The second condition says exactly that generation keeps messages positive.
pub fn second_condition_is_exact<S: Scale>()
    ensures { SecondConditionIsExact S.meaning }
{}

// Under the first two conditions the enemy generates only positive messages from positive ones.
#[tactic(auto, using(crate::proofs::Generation::enemy_positive))]
pub fn enemy_stays_positive<S: Scale>()
    ensures { EnemyStaysPositive S.meaning }
{}
