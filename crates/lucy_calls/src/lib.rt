//! Work and steps: what each replica has to do, and what happens in a run.
#![tactic(auto)]

mod error;
mod fields;
mod laws;
mod lines;
mod numbers;
mod step_lines;
mod step_text;
mod steps;
mod work_lines;
mod work_text;
mod works;

pub use error::CallsError;
pub use laws::{steps_are_read_back, steps_name_replicas, work_fits, work_is_read_back};
pub use step_lines::read_steps;
pub use step_text::write_steps;
pub use steps::Step;
pub use work_lines::read_work;
pub use work_text::write_work;
pub use works::Work;
