//! Derivations: lines that show that a clause holds within the ranges of its variables.
#![tactic(auto)]

mod causes;
mod derivations;
mod lines;

pub use causes::{Cause, CutError, Fault};
pub use derivations::{derive, unjustified_line};
