//! The audit of what threads left behind.
//!
//! It reads the plan, the work, the table of records and the replicas, once no thread works any more,
//! and tells whether the outcome is legal. The opening of each record is computed again from what the
//! replicas kept.
#![tactic(auto)]

mod auditing;
mod counts;
mod differences;
mod kept;
mod laws;
mod openings;
mod records;
mod seats;
mod tallies;

pub use auditing::audit;
pub use differences::{Audit, Difference};
pub use laws::agreed_is_not_apart;
