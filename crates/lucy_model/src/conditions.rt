use crate::terms::Term;
use sqlite_items::{Boxed, Items};

/// A relation of a number to 0.
#[derive(Clone, Copy, Debug, PartialEq, Eq)]
pub enum Op {
    /// At most 0.
    Le,
    /// Below 0.
    Lt,
    /// At least 0.
    Ge,
    /// Above 0.
    Gt,
    /// Equal to 0.
    Eq,
    /// Not equal to 0.
    Ne,
}

/// A condition on the numbers of leaves and on the arguments of a call.
#[derive(Debug, Drop)]
pub enum Condition {
    /// It holds always.
    True,
    /// It holds never.
    False,
    /// The term stands in this relation to 0.
    Compare { term: Term, op: Op },
    /// The leaf of this number is at least 1.
    Is(u32),
    /// The part does not hold.
    Not(Boxed<Condition>),
    /// All parts hold.
    And(Items<Condition>),
    /// Some part holds.
    Or(Items<Condition>),
    /// The second holds if the first does.
    Implies(Boxed<Condition>, Boxed<Condition>),
}
