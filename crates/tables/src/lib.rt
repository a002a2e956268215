// A list over a table that the caller lends, written once for every kind of entry.
#![tactic(auto)]

mod list;

pub use list::{Full, List, MOST_ENTRIES};

#[cfg(test)]
mod tests;
