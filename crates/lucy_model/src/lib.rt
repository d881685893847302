//! Objects, their states and the merge of states; terms and conditions over them.
//!
//! An object is a list of leaves. A state has one whole number for each leaf. States are merged
//! leaf by leaf, so merging is commutative, associative and idempotent. A term is a sum of leaves
//! and arguments, each times a factor, and a constant. A condition is made of comparisons of
//! terms with 0.
#![tactic(auto)]

mod conditions;
mod equality;
mod holding;
mod laws;
mod leaves;
mod merging;
mod negation;
mod numbers;
mod ranges;
mod raws;
mod states;
mod terms;
mod values;

pub use conditions::{Condition, Op};
pub use holding::{holds, holds_raw};
pub use laws::{
    empty_and_holds, empty_or_fails, merge_associates, merge_commutes, merge_is_idempotent,
    merge_stays_in_range,
};
pub use leaves::{Kind, Leaf, MOST_BOUND};
pub use merging::merge;
pub use negation::{negate, opposite};
pub use ranges::{MOST_CONSTANT, MOST_FACTOR, is_condition, is_term};
pub use raws::Raw;
pub use states::State;
pub use terms::{Share, Term};
pub use values::eval;
