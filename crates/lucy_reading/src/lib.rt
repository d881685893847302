//! What an input says, or the line that tells where it is at fault.
#![tactic(auto)]

mod calls;
mod faults;
mod lines;
mod plans;
mod refusal;

pub use calls::{read_steps, read_work};
pub use faults::too_long;
pub use plans::read_plan;
pub use refusal::Refusal;
