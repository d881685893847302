//! Parts that are put together by hand, of which some are no plan: what each has, and the places that it names.

use lucy_model::{Condition, Kind, Leaf, Op, Share, State, Term};
use lucy_plan::{Branch, Limits, Name, PlanParts, Segment, Set, Txn};
use sqlite_items::Items;
use std::alloc::{AllocError, Global};

/// How much of each thing they have.
#[derive(Clone, Copy)]
pub struct Sizes {
    /// At most 65.
    pub leaves: usize,
    /// The factor of the invariant.
    pub factor: i64,
    /// Its constant.
    pub constant: i64,
    /// The nodes of the invariant beside three.
    pub nodes: usize,
    /// All of one name.
    pub txns: usize,
    /// Of each transaction, at most 5.
    pub params: usize,
    /// All of one name.
    pub segments: usize,
    /// Those that the first segment leaves out.
    pub points: usize,
    /// The limit of depth.
    pub depth: u32,
}

/// Their start and the places that they name.
#[derive(Clone, Copy)]
pub struct Places {
    /// The second number of the start; all others are 0.
    pub start: i64,
    /// How many numbers the start has, at most 65.
    pub numbers: usize,
    /// The leaf of the invariant.
    pub leaf: u32,
    /// The second leaf of each term of a transaction; the first is 2.
    pub second: u32,
    /// The second leaf that each branch sets; the first is 3.
    pub again: u32,
    /// The first number of each left-out point; all others are 0.
    pub point: i64,
}

/// The greatest sizes of a plan.
pub const MOST: Sizes = Sizes {
    leaves: 64,
    factor: -1_000_000,
    constant: 1 << 62,
    nodes: 4096 - 2 - 64 - 16,
    txns: 64,
    params: 4,
    segments: 16,
    points: 256,
    depth: 2048,
};

/// The least ones, but for four leaves.
pub const LEAST: Sizes = Sizes {
    leaves: 4,
    factor: 0,
    constant: -(1 << 62),
    nodes: 0,
    txns: 1,
    params: 0,
    segments: 1,
    points: 0,
    depth: 16,
};

/// The places of a plan of so many leaves.
pub fn places_of(sizes: Sizes) -> Places {
    Places {
        start: 0,
        numbers: sizes.leaves,
        leaf: 0,
        second: 3,
        again: 0,
        point: 0,
    }
}

fn share(slot: u32, by: i64) -> Share {
    Share { slot, by }
}

fn term(alloc: Global, shares: &[Share], constant: i64) -> Result<Term, AllocError> {
    let leaves = Items::from_slice(alloc, shares)?;
    Ok(Term {
        leaves,
        arguments: Items::new(alloc),
        constant,
    })
}

fn bound(alloc: Global, sizes: Sizes, places: Places) -> Result<Condition, AllocError> {
    let term = term(alloc, &[share(places.leaf, sizes.factor)], sizes.constant)?;
    Ok(Condition::Compare { term, op: Op::Le })
}

fn add_nodes(conditions: &mut Items<Condition>, nodes: usize) -> Result<(), AllocError> {
    for _ in 0..nodes {
        conditions.push(Condition::True)?;
    }
    Ok(())
}

// The leaf compared with 0, beside as many `true`.
fn invariant(alloc: Global, sizes: Sizes, places: Places) -> Result<Condition, AllocError> {
    let mut conditions = Items::new(alloc);
    conditions.push(bound(alloc, sizes, places)?)?;
    add_nodes(&mut conditions, sizes.nodes)?;
    Ok(Condition::And(conditions))
}

fn add_set(
    sets: &mut Items<Set>,
    alloc: Global,
    leaf: u32,
    shares: &[Share],
) -> Result<(), AllocError> {
    let to = term(alloc, shares, 0)?;
    sets.push(Set { leaf, to })
}

fn branch(alloc: Global, places: Places) -> Result<Branch, AllocError> {
    let mut sets = Items::new(alloc);
    add_set(&mut sets, alloc, 3, &[share(2, 1), share(places.second, 1)])?;
    add_set(&mut sets, alloc, places.again, &[])?;
    Ok(Branch {
        when: Condition::True,
        sets,
    })
}

fn branches(alloc: Global, places: Places) -> Result<Items<Branch>, AllocError> {
    let mut branches = Items::new(alloc);
    branches.push(branch(alloc, places)?)?;
    Ok(branches)
}

fn txn(alloc: Global, params: &[Limits], places: Places) -> Result<Txn, AllocError> {
    let name = Name::new(alloc, "t")?;
    let params = Items::from_slice(alloc, params)?;
    let branches = branches(alloc, places)?;
    Ok(Txn {
        name,
        params,
        branches,
    })
}

// Numbers that are 0 but for one.
fn state(alloc: Global, length: usize, place: usize, number: i64) -> Result<State, AllocError> {
    let mut numbers = [0; 65];
    if place < 65 {
        numbers[place] = number;
    }
    State::new(alloc, &numbers[..length.min(65)])
}

// So many points.
fn points(
    alloc: Global,
    count: usize,
    leaves: usize,
    first: i64,
) -> Result<Items<State>, AllocError> {
    let mut points = Items::new(alloc);
    for _ in 0..count {
        points.push(state(alloc, leaves, 0, first)?)?;
    }
    Ok(points)
}

fn segment(alloc: Global, excepts: Items<State>) -> Result<Segment, AllocError> {
    let name = Name::new(alloc, "s")?;
    let txns = Items::from_slice(alloc, &[0])?;
    Ok(Segment {
        name,
        condition: Condition::True,
        excepts,
        txns,
    })
}

// The first segment leaves out all points.
fn add_segments(
    segments: &mut Items<Segment>,
    alloc: Global,
    sizes: Sizes,
    places: Places,
) -> Result<(), AllocError> {
    for at in 0..sizes.segments {
        let count = if at == 0 { sizes.points } else { 0 };
        let excepts = points(alloc, count, sizes.leaves, places.point)?;
        segments.push(segment(alloc, excepts)?)?;
    }
    Ok(())
}

fn add_txns(
    txns: &mut Items<Txn>,
    alloc: Global,
    count: usize,
    params: &[Limits],
    places: Places,
) -> Result<(), AllocError> {
    for _ in 0..count {
        txns.push(txn(alloc, params, places)?)?;
    }
    Ok(())
}

// The parts without transactions and segments.
fn bare(alloc: Global, sizes: Sizes, places: Places) -> Option<PlanParts> {
    let leaves = [Leaf::new(Kind::Max, 0, 9)?; 65];
    let object = Items::from_slice(alloc, &leaves[..sizes.leaves.min(65)]).ok()?;
    let start = state(alloc, places.numbers, 1, places.start).ok()?;
    let invariant = invariant(alloc, sizes, places).ok()?;
    Some(PlanParts {
        object,
        start,
        invariant,
        txns: Items::new(alloc),
        segments: Items::new(alloc),
        depth: sizes.depth,
    })
}

fn fill(alloc: Global, parts: &mut PlanParts, sizes: Sizes, places: Places) -> Option<()> {
    let params = [Limits::new(0, 9)?; 5];
    let params = &params[..sizes.params.min(5)];
    add_txns(&mut parts.txns, alloc, sizes.txns, params, places).ok()?;
    add_segments(&mut parts.segments, alloc, sizes, places).ok()
}

/// Parts of these sizes and places.
pub fn parts(alloc: Global, sizes: Sizes, places: Places) -> Option<PlanParts> {
    let mut parts = bare(alloc, sizes, places)?;
    fill(alloc, &mut parts, sizes, places).map(|()| parts)
}
