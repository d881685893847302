//! Inputs that are made from a seed: plans, work and steps.
#![tactic(auto)]

mod drills;
mod laws;
mod plan_text;
mod plans;
mod steps;
mod works;

pub use drills::{DRILL_CALLS, DRILL_REPLICAS, DRILL_ROUNDS, Drill, drill_text};
pub use laws::{made_plan_is_laid, made_steps_name_replicas, made_work_fits};
pub use plans::make_plan;
pub use steps::make_steps;
pub use works::make_work;

#[cfg(test)]
mod tests;
