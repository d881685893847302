ghost use Rattle.std.specs.Prelude.{◌≡◌, ◌≤◌, IfOk};
ghost use Rattle.lucy_expr.specs.Trees.{depth};

use crate::making::call;
use lucy_expr::{Expr, Id, Turn};
use std::alloc::{AllocError, Global};

const MANY: u32 = 10_000;

// How many nodes of each kind: starts, applied calls, merges.
fn kinds(turns: &[Turn]) -> [usize; 3] {
    let mut starts = 0usize;
    let mut calls = 0usize;
    let mut merges = 0usize;
    for turn in turns {
        match turn {
            Turn::Start => starts = starts.saturating_add(1),
            Turn::Apply { .. } => calls = calls.saturating_add(1),
            Turn::Merge => merges = merges.saturating_add(1),
        }
    }
    [starts, calls, merges]
}

// The nodes of each kind of a flat expression.
fn kinds_of(alloc: Global, expr: &Expr) -> Option<[usize; 3]> {
    let turns = expr.flat(alloc).ok()?;
    Some(kinds(turns.as_slice()))
}

// Two replicas with a call each, merged at a third one.
fn two_calls(alloc: Global) -> Option<Expr> {
    let start = Expr::start(alloc, 4).ok()?;
    let first = start.applied(alloc, FIRST, call(alloc, 3).ok()?).ok()?;
    let second = start.applied(alloc, SECOND, call(alloc, 5).ok()?).ok()?;
    if first.depth() != 1 || second.depth() != 1 {
        return None;
    }
    first.merged(alloc, &second).ok()?.share().ok()
}

const FIRST: Id = Id {
    replica: 0,
    count: 0,
};

const SECOND: Id = Id {
    replica: 1,
    count: 4,
};

// The depth of the merge, and what it reaches of the replicas 0, 1, 2 and 9.
fn told_of_merge(alloc: Global) -> Option<[u32; 5]> {
    let merged = two_calls(alloc)?;
    Some([
        merged.depth(),
        merged.reach(0),
        merged.reach(1),
        merged.reach(2),
        merged.reach(9),
    ])
}

// Whether a turn is of this kind, and a call of this replica.
fn is_turn(turn: &Turn, kind: &str) -> bool {
    match turn {
        Turn::Start => kind == "start",
        Turn::Apply { id, .. } => match id.replica {
            0 => kind == "call 0",
            1 => kind == "call 1",
            _ => false,
        },
        Turn::Merge => kind == "merge",
    }
}

const TURNS: &str = "merge
call 0
start
call 1
start";

fn are_told(turns: &[Turn]) -> bool {
    for (turn, kind) in turns.iter().zip(TURNS.lines()) {
        if !is_turn(turn, kind) {
            return false;
        }
    }
    turns.len() == 5
}

fn is_flat(alloc: Global) -> Option<bool> {
    let merged = two_calls(alloc)?;
    let turns = merged.flat(alloc).ok()?;
    Some(are_told(turns.as_slice()))
}

// So many calls of one replica, one on the other.
fn chain(alloc: Global, calls: u32) -> Result<Expr, AllocError>
    requires { calls ≤ 10000 }
    ensures { IfOk result (λ e. depth e.tree ≡ calls) }
{
    let mut expr = Expr::start(alloc, 1)?;
    for count in 0..calls {
        let call = call(alloc, 1)?;
        expr = expr.applied(alloc, Id { replica: 0, count }, call)?;
    }
    Ok(expr)
}

// The depth of a long chain, and what it reaches of its replica.
fn told_of_chain(alloc: Global) -> Option<[u32; 2]> {
    let expr = chain(alloc, MANY).ok()?;
    Some([expr.depth(), expr.reach(0)])
}

fn kinds_of_chain(alloc: Global) -> Option<[usize; 3]> {
    let expr = chain(alloc, MANY).ok()?;
    kinds_of(alloc, &expr)
}

// Merges one on the other, with a start as the right part of each, or as the left part.
fn leaning(alloc: Global, merges: u32, to_left: bool) -> Result<Expr, AllocError> {
    let start = Expr::start(alloc, 1)?;
    let mut expr = start.share()?;
    for _ in 0..merges {
        if start.depth() < merges && expr.depth() < merges {
            expr = if to_left {
                expr.merged(alloc, &start)?
            } else {
                start.merged(alloc, &expr)?
            };
        }
    }
    Ok(expr)
}

// The nodes of an expression of this depth, and none where it has another.
fn kinds_at(alloc: Global, expr: &Expr, depth: u32) -> Option<[usize; 3]> {
    if expr.depth() != depth {
        return None;
    }
    kinds_of(alloc, expr)
}

fn kinds_of_leaning(alloc: Global, to_left: bool) -> Option<[usize; 3]> {
    let expr = leaning(alloc, MANY / 2, to_left).ok()?;
    kinds_at(alloc, &expr, 5_000)
}

// Thirteen merges of an expression with itself.
fn doubled(alloc: Global) -> Option<Expr> {
    let mut expr = Expr::start(alloc, 1).ok()?;
    for _ in 0..13 {
        if expr.depth() >= 13 {
            return None;
        }
        expr = expr.merged(alloc, &expr).ok()?;
    }
    Some(expr)
}

fn kinds_of_doubled(alloc: Global) -> Option<[usize; 3]> {
    let expr = doubled(alloc)?;
    kinds_at(alloc, &expr, 13)
}

// A merge of two calls: its depth, what it reaches of the replicas 0, 1, 2 and 9, and its turns. A chain of 10,000 calls.
fn told(alloc: Global) -> [bool; 3] {
    [
        told_of_merge(alloc) == Some([2, 1, 5, 0, 0]),
        is_flat(alloc) == Some(true),
        told_of_chain(alloc) == Some([MANY, MANY]),
    ]
}

#[test]
fn expressions_tell_what_they_are(rt: HostRuntime) {
    assert_eq!(rt; told(rt.alloc()), [true; 3]);
}

// The nodes of the chain; of two merges of 10,001 nodes, one of left parts and one of right parts; and of a merge of 16,383 nodes in
// which each node but the start is shared twice. All are made, flattened and let go of.
fn kinds_of_all(alloc: Global) -> [Option<[usize; 3]>; 4] {
    [
        kinds_of_chain(alloc),
        kinds_of_leaning(alloc, true),
        kinds_of_leaning(alloc, false),
        kinds_of_doubled(alloc),
    ]
}

#[test]
fn large_expressions_are_flattened(rt: HostRuntime) {
    let want = [
        Some([1, 10_000, 0]),
        Some([5_001, 0, 5_000]),
        Some([5_001, 0, 5_000]),
        Some([8_192, 0, 8_191]),
    ];
    assert_eq!(rt; kinds_of_all(rt.alloc()), want);
}
