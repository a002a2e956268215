// Rank scales: what a scale is, and the two that are built.
#![tactic(auto)]

mod scale;
mod two_valued;
mod whole;

pub use scale::Scale;
pub use two_valued::TwoValued;
pub use whole::Whole;
