//! What is printed: states, steps, worlds, outcomes, what a certificate is found to be, and faults.
#![tactic(auto)]

mod expression_lines;
mod fault_lines;
mod finding_lines;
mod label_lines;
mod outcome_lines;
mod step_lines;
mod texts;
mod verdict_lines;
mod world_lines;
mod writing;

pub use expression_lines::{expr_text, write_expression};
pub use fault_lines::{bad_certificate, bad_words, long_input, no_input, read_fault, source_fault};
pub use finding_lines::findings_text;
pub use label_lines::{
    write_confluent, write_found_lines, write_not_confluent, write_pair_line, write_refused_line,
    write_undecided,
};
pub use outcome_lines::outcome_text;
pub use step_lines::{shows_state, write_step_line};
pub use texts::{state_text, step_line, world_text};
pub use verdict_lines::{write_accepted, write_refusal, write_start_breaks};
pub use world_lines::write_world;
pub use writing::{write_counted, write_id, write_numbered, write_state};
