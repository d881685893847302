//! Plans: an object, its invariant, its transactions and its segments.
#![tactic(auto)]

mod calls;
mod checks;
mod counts;
mod equality;
mod laws;
mod name;
mod parts;
mod plans;
mod refusal;
mod rules;
mod segments;
mod sizes;
mod terms;

pub use calls::{apply, fits};
pub use laws::{
    call_keeps_length, call_without_branch_stays, first_segment_is_first, merge_stays_in_segment,
    no_first_segment_is_none, segment_is_whole, set_leaf_gets_its_term, unset_leaf_stays,
    whole_numbers_are_state_numbers,
};
pub use name::Name;
pub use parts::{Branch, Call, Limits, PlanParts, Segment, Set, Txn};
pub use plans::Plan;
pub use refusal::{PlanError, What};
pub use segments::{first_segment, in_segment, settle, whole};
pub use sizes::{
    FIRST_VERSION, LEAST_DEPTH, MOST_ARGUMENTS, MOST_CALLS, MOST_DEPTH, MOST_NAME, MOST_NESTING,
    MOST_NODES, MOST_PLAN_BYTES, MOST_POINTS, MOST_SEGMENTS, MOST_STEP_BYTES, MOST_TXNS,
    MOST_WORK_BYTES, SECOND_VERSION, USUAL_DEPTH, most_leaves, most_replicas,
};
