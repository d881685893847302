//! The fronts of a certificate, and the certificate in two pieces.

use crate::making::{BELOW, KEPT, shared_plan};
use lucy_judge::Checked;
use lucy_plan::Plan;
use lucy_stream::{Stream, StreamError, verify};
use std::alloc::Global;
use std::sync::Arc;

// The line that is told as bad.
fn bad_line(answer: Result<Checked, StreamError>) -> Option<u64> {
    match answer {
        Err(StreamError::BadLine(line)) => Some(line),
        _ => None,
    }
}

fn front_line(alloc: Global, plan: &Arc<Plan>, front: &[u8]) -> Option<u64> {
    let plan = plan.clone().ok()?;
    bad_line(verify(alloc, plan, front))
}

// The length of the first proper front that is not told bad at the line that is not ended in it, or that is missing.
fn wrong_front(alloc: Global) -> Option<usize> {
    let Some(plan) = shared_plan(alloc, BELOW) else {
        return Some(0);
    };
    let mut line = 1u64;
    for at in 0..KEPT.len() {
        if front_line(alloc, &plan, &KEPT.as_bytes()[..at]) != Some(line) {
            return Some(at);
        }
        if KEPT.as_bytes()[at] == b'\n' {
            line = line.saturating_add(1);
        }
    }
    None
}

fn is_accepted(alloc: Global, plan: &Arc<Plan>, front: &[u8], rest: &[u8]) -> Option<bool> {
    let mut stream = Stream::new(alloc, plan.clone().ok()?).ok()?;
    stream.feed(alloc, front).ok()?;
    stream.feed(alloc, rest).ok()?;
    Some(stream.finish().is_ok())
}

// The first place at which the text is cut in two and not accepted.
fn wrong_cut(alloc: Global) -> Option<usize> {
    let Some(plan) = shared_plan(alloc, BELOW) else {
        return Some(0);
    };
    for at in 0..KEPT.len() {
        let (front, rest) = KEPT.as_bytes().split_at(at);
        if is_accepted(alloc, &plan, front, rest) != Some(true) {
            return Some(at);
        }
    }
    None
}

#[test]
fn fronts_are_bad_at_their_last_line(rt: HostRuntime) {
    assert_eq!(rt; wrong_front(rt.alloc()), None);
}

#[test]
fn two_pieces_are_accepted(rt: HostRuntime) {
    assert_eq!(rt; wrong_cut(rt.alloc()), None);
}
