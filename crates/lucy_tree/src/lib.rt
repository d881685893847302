//! The syntax tree of a plan: a node for each rule of the grammar, which keeps every token's place.
#![tactic(auto)]

mod conditions;
mod marks;
mod objects;
mod plans;
mod terms;

pub use conditions::{Cond, Conj, Disj, Unary};
pub use marks::{Bounds, Chain, Int, Name, Number, Path, Span, Then};
pub use objects::{Extreme, Field, FlagKind, Object, Setting, Start, Value};
pub use plans::{
    Assigned, Branch, Change, Depth, Except, Invariant, Param, Point, Segment, Tree, Txn,
};
pub use terms::{Added, Factor, Product, Relation, Sign, Term};
