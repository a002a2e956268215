// A sheet as far as it is read, line by line.
#![tactic(auto)]

mod cast;
mod draft;
mod script;
mod table;

pub use cast::{Cast, Title};
pub use draft::{Draft, Part};
pub use script::Script;
pub use table::Table;
