// The link sheet as it is kept: names, terms, roles, and what else a sheet has.
#![tactic(auto)]

ghost use Rattle.model.specs.Laws.{PrefixOrder};

mod name;
mod node;
mod stored;
mod term;
mod variables;

pub use name::{Name, is_name};
pub use node::{Field, Node, Sort};
pub use stored::{Agent, Claim, Nonce, Ranked, Role, Sealed, Signal, Step, Variable};
pub use term::Term;

// A term and its nodes in prefix order determine each other.
#[tactic(auto, using(crate::proofs::Trees::prefix_order))]
pub fn prefix_order_is_exact()
    ensures { PrefixOrder }
{}
