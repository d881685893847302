ghost use Rattle.std.specs.Prelude.{◌≡◌, ◌<◌, ◌≤◌, ◌↔◌, IsTrue, IfOk, OnSome, length};
ghost use Rattle.std.specs.Bool.{OnTrue};
ghost use Rattle.std.specs.Ordering.{int_eq};
ghost use Rattle.std.specs.Cmp.Lexicographic.{pointwise};
ghost use Rattle.lucy_model.specs.Ranges.{all_allowed};
ghost use Rattle.lucy_plan.specs.Plans as plans;
ghost use Rattle.lucy_plan.specs.Segments as segments;
ghost use Rattle.lucy_plan.specs.Sizes.{first_version, most_leaves};

use crate::parts::Segment;
use crate::plans::Plan;
use lucy_model::{Leaf, Raw, State, holds_raw};
use std::alloc::{AllocError, Global};

/// Whether each number is in its leaf's range.
fn are_allowed(object: &[Leaf], raw: &Raw) -> bool
    requires even { length raw.now ≡ length object.now }
    requires few { length object.now ≤ most_leaves first_version }
    ensures { result ≡ all_allowed object.now raw.now }
{
    for (i, leaf) in object.iter().enumerate() {
        if !leaf.allows(raw.get(i as u32)) {
            return false;
        }
    }
    true
}

/// Whether numbers satisfy the invariant: each is in its leaf's range, and the declared invariant
/// holds. They are then a state's. It takes no memory.
pub fn whole(plan: &Plan, raw: &Raw) -> bool
    requires { length raw.now ≡ length plan.now.object }
    ensures whole { IsTrue result ↔ segments.IsWhole plan.now raw.now }
    ensures fits { OnTrue result (segments.AreStateNumbers raw.now) }
{
    let parts = plan.parts();
    if !are_allowed(parts.object.as_slice(), raw) {
        return false;
    }
    holds_raw(&parts.invariant, raw)
}

/// Whether the numbers are those of a point.
fn is_point(point: &State, raw: &Raw) -> bool
    ensures { result ≡ pointwise int_eq point.now raw.now }
{
    raw.is_state(point)
}

/// Whether the numbers are one of the points.
fn is_among(points: &[State], raw: &Raw) -> bool
    ensures { result ≡ segments.is_among points.now raw.now }
{
    for point in points {
        if is_point(point, raw) {
            return true;
        }
    }
    false
}

/// Whether numbers are in a segment of the plan.
fn is_in(plan: &Plan, segment: &Segment, raw: &Raw) -> bool
    requires even { length raw.now ≡ length plan.now.object }
    requires segment { IsTrue (plans.is_segment (length plan.now.object) (length plan.now.txns) segment.now) }
    ensures segment { IsTrue result ↔ IsTrue (segments.is_in plan.now segment.now raw.now) }
    ensures fits { OnTrue result (segments.AreStateNumbers raw.now) }
{
    whole(plan, raw)
        && holds_raw(&segment.condition, raw)
        && !is_among(segment.excepts.as_slice(), raw)
}

/// Whether numbers are in a segment: they satisfy the invariant and the segment's condition, and are
/// none of its left-out points. It takes no memory.
pub fn in_segment(plan: &Plan, segment: u32, raw: &Raw) -> bool
    requires even { length raw.now ≡ length plan.now.object }
    requires segment { segment < length plan.now.segments }
    ensures segment { IsTrue result ↔ segments.IsInSegment plan.now segment raw.now }
    ensures fits { OnTrue result (segments.AreStateNumbers raw.now) }
{
    match plan.parts().segments.get(segment as usize) {
        None => false,
        Some(segment) => is_in(plan, segment, raw),
    }
}

/// The first segment in which the numbers are, or `None` where there is none. It takes no memory.
pub fn first_segment(plan: &Plan, raw: &Raw) -> Option<u32>
    requires { length raw.now ≡ length plan.now.object }
    ensures first { result ≡ segments.first_segment plan.now raw.now }
    ensures fits { OnSome result (segments.AreStateNumbers raw.now) }
{
    let parts = plan.parts();
    for (i, segment) in parts.segments.as_slice().iter().enumerate() {
        if is_in(plan, segment, raw) {
            return Some(i as u32);
        }
    }
    None
}

/// The state with these numbers, which are those of a state.
pub fn settle(alloc: Global, raw: &Raw) -> Result<State, AllocError>
    requires { segments.AreStateNumbers raw.now }
    ensures { IfOk result (λ state. state ≡ raw.now) }
{
    let mut numbers = Vec::with_capacity(alloc, raw.length())?;
    for leaf in 0..raw.length() as u32 {
        let number = raw.get(leaf) as i64;
        numbers.push(number)?;
    }
    Ok(State::from(numbers))
}
