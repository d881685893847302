//! The checker of proofs: whether a proof refutes a formula, and else its first step that is not justified.
#![tactic(auto)]

mod checker;
mod falses;
mod held;
mod laws;
mod lookup;
mod progress;
mod propagation;
mod rules;
mod testing;
mod verdict;

pub use checker::{Checker, check};
pub use held::Held;
pub use laws::{checkers_are_exact, refuted_has_no_model};
pub use lookup::{Earlier, Lookup};
pub use progress::{Fault, Progress, begun, progressed, verdict_of};
pub use propagation::rup_fault;
pub use testing::step_fault;
pub use verdict::Verdict;
