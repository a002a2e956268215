// What carries messages between the sessions of a link.
#![tactic(auto)]

mod analysis;
mod enemy;
mod making;
mod medium;
mod relay;
mod store;
mod told;

pub use enemy::Enemy;
pub use medium::{Medium, NoSpace};
pub use relay::Relay;
