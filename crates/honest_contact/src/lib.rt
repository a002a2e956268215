// An honest contact of the example sheet, over any medium that carries its messages: it reaches the completion, so that what is guaranteed of
// every log is said of more than empty ones.
#![tactic(auto)]

mod calls;
mod ending;
mod over;

pub use calls::contact;
pub use ending::Ending;
pub use over::{hold, over_enemy, over_relay};

#[cfg(test)]
mod tests;
