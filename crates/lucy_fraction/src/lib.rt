//! Fractions that are exact, or say that they are too wide. No call takes memory.
#![tactic(auto)]

mod fraction;
mod laws;
mod reducing;

pub use fraction::{Fraction, Wide};
pub use laws::{product_keeps_same, quotient_times_divisor, reduced_is_unique, sum_keeps_same};
