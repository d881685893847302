//! The names of a plan's segments and transactions.
#![tactic(auto)]

mod laws;
mod names;
mod table;

pub use laws::names_are_found;
pub use names::Names;
