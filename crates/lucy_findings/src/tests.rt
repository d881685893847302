//! Two plans over two leaves of 0 and 1, whose sum has a limit.

use crate::certifying::certificate;
use crate::examining::examine;
use crate::findings::{Findings, SegmentFinding};
use crate::soundness::is_sound;
use lucy_model::{Condition, Kind, Leaf, Op, Share, State, Term};
use lucy_plan::{Name, Plan, PlanParts, Segment, Txn, USUAL_DEPTH};
use sqlite_items::Items;
use std::alloc::{AllocError, Global};

#[derive(Clone, Copy)]
enum Limit {
    One,
    Two,
}

impl Limit {
    // What is added to the sum, which is then at most 0.
    fn constant(self) -> i64 {
        match self {
            Limit::One => -1,
            Limit::Two => -2,
        }
    }
}

fn object_of(alloc: Global) -> Result<Items<Leaf>, AllocError> {
    let mut object = Items::new(alloc);
    if let Some(leaf) = Leaf::new(Kind::Max, 0, 1) {
        object.push(leaf)?;
        object.push(leaf)?;
    }
    Ok(object)
}

// The sum of the two leaves is at most 1 or 2.
fn invariant_of(alloc: Global, limit: Limit) -> Result<Condition, AllocError> {
    let shares = [Share { slot: 0, by: 1 }, Share { slot: 1, by: 1 }];
    let leaves = Items::from_slice(alloc, &shares)?;
    let term = Term {
        leaves,
        arguments: Items::new(alloc),
        constant: limit.constant(),
    };
    Ok(Condition::Compare { term, op: Op::Le })
}

// One transaction, which does nothing.
fn txns_of(alloc: Global) -> Result<Items<Txn>, AllocError> {
    let mut txns = Items::new(alloc);
    txns.push(Txn {
        name: Name::new(alloc, "stay")?,
        params: Items::new(alloc),
        branches: Items::new(alloc),
    })?;
    Ok(txns)
}

fn segments_of(alloc: Global) -> Result<Items<Segment>, AllocError> {
    let mut segments = Items::new(alloc);
    segments.push(Segment {
        name: Name::new(alloc, "all")?,
        condition: Condition::True,
        excepts: Items::new(alloc),
        txns: Items::from_slice(alloc, &[0])?,
    })?;
    Ok(segments)
}

fn parts_of(alloc: Global, limit: Limit) -> Result<PlanParts, AllocError> {
    let invariant = invariant_of(alloc, limit)?;
    let object = object_of(alloc)?;
    let start = State::new(alloc, &[0, 0])?;
    let txns = txns_of(alloc)?;
    let segments = segments_of(alloc)?;
    Ok(PlanParts {
        object,
        start,
        invariant,
        txns,
        segments,
        depth: USUAL_DEPTH,
    })
}

fn plan_of(alloc: Global, limit: Limit) -> Result<Option<Plan>, AllocError> {
    let parts = parts_of(alloc, limit)?;
    Ok(Plan::new(parts).ok())
}

// The first number of each state of the first pair, 0 and 1 where the smaller state stands first.
fn pair_of(findings: &Findings) -> Option<(i64, i64)> {
    match findings.segments.get(0) {
        Some(SegmentFinding::Open { first, second }) => {
            let first = first.as_slice().first().copied()?;
            let second = second.as_slice().first().copied()?;
            Some((first, second))
        }
        _ => None,
    }
}

// How many parts the certificate has, where the plan is found sound; the pair, where it is not.
fn found(alloc: Global, plan: &Plan) -> Result<(usize, Option<(i64, i64)>), AllocError> {
    let findings = examine(alloc, plan)?;
    if !is_sound(&findings) {
        return Ok((0, pair_of(&findings)));
    }
    let certificate = certificate(alloc, plan, &findings)?;
    Ok((certificate.parts.len(), None))
}

fn found_of(
    alloc: Global,
    limit: Limit,
) -> Result<Option<(usize, Option<(i64, i64)>)>, AllocError> {
    match plan_of(alloc, limit)? {
        Some(plan) => {
            let found = found(alloc, &plan)?;
            Ok(Some(found))
        }
        None => Ok(None),
    }
}

#[test]
fn a_sum_within_its_ranges_is_closed(rt: HostRuntime) -> Result<(), AllocError> {
    assert_eq!(rt; found_of(rt.alloc(), Limit::Two)?, Some((2, None)));
    Ok(())
}

#[test]
fn a_smaller_sum_is_open(rt: HostRuntime) -> Result<(), AllocError> {
    assert_eq!(rt; found_of(rt.alloc(), Limit::One)?, Some((0, Some((0, 1)))));
    Ok(())
}
