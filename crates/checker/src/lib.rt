// The check of a sheet's ranks.
#![tactic(auto)]

mod answer;
mod completion;
mod knowledge;
mod laws;
mod meaning;
mod roles;
mod rows;
mod seals;
mod steps;
mod verdict;

pub use answer::check;
pub use laws::{one_verdict_is_right, some_verdict_is_right};
pub use verdict::{Unchecked, Verdict};
