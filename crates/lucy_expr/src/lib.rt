//! Expressions: how a replica's state was made from an opening state, by calls and by merges.
//!
//! Contracts see an expression as a tree. In memory the nodes of a tree are shared, so an
//! expression that is used again is not copied. Beside the tree an expression keeps its depth, and
//! for each replica the count up to which its ids reach.
#![tactic(auto)]

mod counting;
mod expressions;
mod ids;
mod laws;
mod nodes;
mod turns;

pub use expressions::Expr;
pub use ids::Id;
pub use laws::{
    closed_segment_holds_values, closed_whole_holds_values, merge_keeps_ids, reach_covers_ids,
    reach_is_reached, spine_begins_with_itself, spine_ends_with_start, spine_is_in_tree,
};
pub use turns::Turn;
