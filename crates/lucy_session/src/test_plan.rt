//! A plan over two numbers, x of 0 and 1 and y of 0 up to a top. The invariant is that one of them is 0. Two
//! transactions set x and y to 1.

use lucy_model::{Condition, Kind, Leaf, Op, Share, State, Term};
use lucy_plan::{Branch, Name, Plan, PlanParts, Segment, Set, Txn, USUAL_DEPTH};
use sqlite_items::Items;
use std::alloc::{AllocError, Global};

fn object_of(alloc: Global, top: u16) -> Result<Items<Leaf>, AllocError> {
    let mut object = Items::new(alloc);
    if let Some(leaf) = Leaf::new(Kind::Max, 0, 1) {
        object.push(leaf)?;
    }
    if let Some(leaf) = Leaf::new(Kind::Max, 0, i64::from(top)) {
        object.push(leaf)?;
    }
    Ok(object)
}

// `top * x + y <= top`.
fn invariant_of(alloc: Global, top: u16) -> Result<Condition, AllocError> {
    let top = i64::from(top);
    let shares = [Share { slot: 0, by: top }, Share { slot: 1, by: 1 }];
    let leaves = Items::from_slice(alloc, &shares)?;
    let term = Term {
        leaves,
        arguments: Items::new(alloc),
        constant: -top,
    };
    Ok(Condition::Compare { term, op: Op::Le })
}

// A transaction that sets a number to 1.
fn txn_of(alloc: Global, name: &str, leaf: u32) -> Result<Txn, AllocError> {
    let to = Term {
        leaves: Items::new(alloc),
        arguments: Items::new(alloc),
        constant: 1,
    };
    let mut sets = Items::new(alloc);
    sets.push(Set { leaf, to })?;
    let mut branches = Items::new(alloc);
    branches.push(Branch {
        when: Condition::True,
        sets,
    })?;
    Ok(Txn {
        name: Name::new(alloc, name)?,
        params: Items::new(alloc),
        branches,
    })
}

fn txns_of(alloc: Global) -> Result<Items<Txn>, AllocError> {
    let mut txns = Items::new(alloc);
    let first = txn_of(alloc, "setx", 0)?;
    txns.push(first)?;
    let second = txn_of(alloc, "sety", 1)?;
    txns.push(second)?;
    Ok(txns)
}

fn segments_of(alloc: Global) -> Result<Items<Segment>, AllocError> {
    let mut segments = Items::new(alloc);
    segments.push(Segment {
        name: Name::new(alloc, "main")?,
        condition: Condition::True,
        excepts: Items::new(alloc),
        txns: Items::from_slice(alloc, &[0, 1])?,
    })?;
    Ok(segments)
}

fn parts_of(alloc: Global, top: u16, start: &[i64]) -> Result<PlanParts, AllocError> {
    let invariant = invariant_of(alloc, top)?;
    let object = object_of(alloc, top)?;
    let start = State::new(alloc, start)?;
    let txns = txns_of(alloc)?;
    let segments = segments_of(alloc)?;
    Ok(PlanParts {
        object,
        start,
        invariant,
        txns,
        segments,
        depth: USUAL_DEPTH,
    })
}

/// The plan with this top and this start, if it is one.
pub(crate) fn plan_of(alloc: Global, top: u16, start: &[i64]) -> Option<Plan> {
    let parts = parts_of(alloc, top, start).ok()?;
    Plan::new(parts).ok()
}
