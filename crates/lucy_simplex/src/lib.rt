//! The simplex method over exact fractions: a point of linear inequalities within bounds, or multipliers that refute
//! them, or that a fraction passed its limit or all pivots were made.
#![tactic(auto)]

mod first;
mod laws;
mod lines;
mod multipliers;
mod numbers;
mod pivoting;
mod pointing;
mod quotients;
mod rows;
mod runs;
mod solving;
mod stops;

pub use laws::{multipliers_refute, pivot_keeps_solutions, runs_are_one};
pub use multipliers::Multipliers;
pub use rows::{Row, is_system};
pub use solving::{Answer, solve};
