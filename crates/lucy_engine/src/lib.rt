//! The engine of the search. It proposes clauses, models and decisions; nothing is sure of what it proposes, and the
//! search tests it.
#![tactic(auto)]

mod answers;
mod bounds;
mod choosing;
mod conflicts;
mod cuts;
mod differences;
mod drafts;
mod engine;
mod looking;
mod making;
mod numbers;
mod pairs;
mod points;
mod rows;
mod settling;
mod store;
mod systems;
mod table;

pub use answers::{Answer, Proposed};
pub use engine::{Engine, Mark};
