// The least row of numbers that breaks a test, over all numbers of each kind.
#![tactic(auto)]

mod least_row;
mod place;

pub use least_row::{Test, canonical_suffices, least, strangers_are_met};
pub use place::{Counts, Place};
