// The words of a sheet's lines: what a name stands for in its place, terms, signals, values, and where variables stand.
#![tactic(auto)]

mod expect;
mod named;
mod reader;
mod same;
mod scope;
mod usages;
mod value;

pub use named::{Named, find};
pub use reader::{read_signal, read_term};
pub use same::{same_atom, same_signal};
pub use scope::Scope;
pub use usages::{First, Usage, Variables};
pub use value::read_value;
