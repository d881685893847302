//! A session of labels: two states are shown whose merge breaks the invariant, and labels tell of each of them that it
//! is never reached, or by which expression it is. The session goes on until no two further states are left, or both
//! states that are shown have an expression.
#![tactic(auto)]

mod answers;
mod cursor;
mod drawing;
mod evaluation;
mod expressions;
mod labels;
mod laws;
mod reached;
mod session;
#[cfg(test)]
mod test_plan;
#[cfg(test)]
mod tests;

pub use answers::{LabelError, Next, SessionError};
pub use laws::{broken_is_not_confluent, closed_is_confluent};
pub use reached::{Pair, Reached};
pub use session::Session;
