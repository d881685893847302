ghost use Rattle.std.specs.Prelude.{◌≡◌, ◌↔◌, IfOk, ◌≤ℤ◌, neg_ℤ, pos, IsSome, IfSome};
ghost use Rattle.lucy_plan.specs.Sizes.{most_bound};

use crate::name::Name;
use lucy_model::{Condition, Leaf, MOST_BOUND, State, Term};
use sqlite_items::Items;
use std::alloc::{AllocError, Global};

/// A change: one leaf gets the value of a term.
#[derive(Debug, Drop)]
pub struct Set {
    /// The place of the leaf in the object.
    pub leaf: u32,
    /// What it is set to, read in the state before the call.
    pub to: Term,
}

/// The changes that a transaction makes where a condition holds.
#[derive(Debug, Drop)]
pub struct Branch {
    /// Over the state before the call and the call's arguments.
    pub when: Condition,
    /// At most one for each leaf.
    pub sets: Items<Set>,
}

/// The numbers that an argument may be: `lo` to `hi`, both at most 2^40 in size.
#[derive(Clone, Copy, Debug, PartialEq, Eq)]
pub struct Limits {
    /// The least one.
    pub lo: i64,
    /// The greatest one.
    pub hi: i64,
    ghost ordered: { lo ≤ℤ hi },
    ghost low: { neg_ℤ (pos most_bound) ≤ℤ lo },
    ghost high: { hi ≤ℤ pos most_bound },
}

impl Limits {
    /// `None` where `lo` is above `hi`, or one of them is above 2^40 in size.
    pub fn new(lo: i64, hi: i64) -> Option<Limits>
        ensures some { IsSome result ↔ ((neg_ℤ (pos most_bound) ≤ℤ lo) × (lo ≤ℤ hi) × (hi ≤ℤ pos most_bound)) }
        ensures value { IfSome result (λ l. (l.lo ≡ lo) × (l.hi ≡ hi)) }
    {
        if -MOST_BOUND <= lo && lo <= hi && hi <= MOST_BOUND {
            Some(Limits { lo, hi })
        } else {
            None
        }
    }
}

/// A transaction: for each call the first branch whose condition holds.
#[derive(Debug, Drop)]
pub struct Txn {
    /// Its name. A plan does not ask that names differ.
    pub name: Name,
    /// The ranges of its arguments, in order.
    pub params: Items<Limits>,
    /// Its branches, in order.
    pub branches: Items<Branch>,
}

/// A part of the invariant, and the transactions that run in it by themselves.
#[derive(Debug, Drop)]
pub struct Segment {
    /// Its name. A plan does not ask that names differ.
    pub name: Name,
    /// Over states alone.
    pub condition: Condition,
    /// The states that it leaves out.
    pub excepts: Items<State>,
    /// The places of its transactions in the plan.
    pub txns: Items<u32>,
}

/// What a plan is made of.
#[derive(Debug, Drop)]
pub struct PlanParts {
    /// The leaves, in order.
    pub object: Items<Leaf>,
    /// The state that all replicas start from.
    pub start: State,
    /// The declared invariant, over states alone.
    pub invariant: Condition,
    /// The transactions, in order.
    pub txns: Items<Txn>,
    /// The segments, in order: the first that fits is taken.
    pub segments: Items<Segment>,
    /// The greatest depth of an expression before a change is needed.
    pub depth: u32,
}

/// A call of a transaction.
#[derive(Debug, Drop)]
pub struct Call {
    /// The place of the transaction in the plan.
    pub txn: u32,
    /// One number for each of its parameters, in order.
    pub arguments: Items<i64>,
}

impl Call {
    /// The same call again.
    pub fn copied(&self, alloc: Global) -> Result<Call, AllocError>
        ensures { IfOk result (λ call. call ≡ self.now) }
    {
        Ok(Call {
            txn: self.txn,
            arguments: Items::from_slice(alloc, self.arguments.as_slice())?,
        })
    }
}
