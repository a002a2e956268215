// The link sheet and its exact reader.
#![tactic(auto)]

mod contents;
mod line_numbers;
mod sheet;

pub use contents::Contents;
pub use sheet::Sheet;
