//! From the syntax tree of a plan to the plan and its names, or the first refusal in text order.
#![tactic(auto)]

mod changes;
mod given;
mod limits;
mod objects;
mod plans;
mod segments;
mod starts;
mod txns;

pub use lucy_gather::ElabError;
pub use plans::elaborate;
