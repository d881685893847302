//! Proofs that let go of each clause that no later step needs.
#![tactic(auto)]

mod copies;
mod counting;
mod laws;
mod parting;
#[cfg(test)]
mod tests;
mod trimming;
mod uses;

pub use laws::{more_live_refutes, trimmed_is_writable, trimmed_refutes};
pub use trimming::trim;
