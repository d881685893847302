//! The formulas that tell whether a plan is sound: their models are the states that break it.
//!
//! The formula of a segment has a model exactly where two states of the segment have a merge outside it. The formula of
//! the whole invariant has one exactly where two of its states, none of them a given point, have a merge outside it.
//! The formula of the cover has one exactly where a state of the invariant is in no segment.
#![tactic(auto)]

mod formulas;
mod inside;
mod laws;
mod merges;
mod points;
mod reading;

pub use formulas::{closure_formula, cover_formula, whole_closure};
pub use laws::{
    closure_model_is_escape, cover_model_is_uncovered, escape_is_closure_model,
    escape_is_whole_model, uncovered_is_cover_model, whole_model_is_escape,
};
pub use reading::{read_pair, read_state};
