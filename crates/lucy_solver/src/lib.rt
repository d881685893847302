//! A model of a formula, or a proof that it has none.
#![tactic(auto)]

mod boxes;
mod decision;
mod denials;
mod empty;
mod halves;
mod leaves;
mod searching;
mod testing;

pub use decision::{Decision, decide, decide_by};
