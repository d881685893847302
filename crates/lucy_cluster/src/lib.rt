//! Replicas on threads: each stands behind a lock of its own.
//!
//! What happens under one lock is one step of the core. A change takes all locks, from that of replica
//! 0 upwards, and each replica acts by what was decided before its lock is let go.
#![tactic(auto)]

mod clusters;
mod deciding;
mod error;
mod freezing;
mod gates;
mod sections;

pub use clusters::Cluster;
pub use deciding::Changed;
pub use error::ClusterError;
pub use gates::{Gate, NoGate, Point};
