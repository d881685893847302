//! Clauses, the atoms that are true under assumptions, and what follows from them by clauses of which one atom is left.
#![tactic(auto)]

mod propagating;
mod store;
mod truths;

pub use propagating::{Found, Look};
pub use store::Store;
pub use truths::{State, is_false, is_known, opposite, state_of};
