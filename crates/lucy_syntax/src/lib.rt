//! The grammar of plans: the tree of a text, or the place of its fault.
#![tactic(auto)]

mod conditions;
mod cursor;
mod error;
mod laws;
mod listed;
mod objects;
mod parsing;
mod plans;
mod terms;

pub use error::SyntaxError;
pub use laws::{read_is_spelled, read_is_within, spelled_is_read};
pub use lucy_tree::Tree;
pub use parsing::parse;
