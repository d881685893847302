//! The evaluation of expressions.

ghost use Rattle.std.specs.Prelude.{◌≡◌, ◌+◌, ◌<◌, ◌≤◌, ◌^◌, IsTrue, IfOk, length};
ghost use Rattle.lucy_io.specs.Outcomes.{Answers};
ghost use Rattle.lucy_plan.specs.Calls.{Fits};
ghost use Rattle.lucy_plan.specs.Segments.{IsWhole};
ghost use Rattle.lucy_expr.specs.Trees.{Start};
ghost use Rattle.lucy_walks.specs.Sketches.{tree_of, size};
ghost use Rattle.lucy_walks.specs.Walks.{ResultIs};
ghost use Rattle.lucy_session.specs.declared.answers.LabelError.TheVariants.{OutOfMemory};
ghost use Rattle.lucy_session.specs.Labels.{all_fit};
ghost use Rattle.lucy_session.specs.Evaluation as spec;

use crate::answers::LabelError;
use lucy_model::{Raw, State, merge};
use lucy_plan::{Call, Plan, apply, settle, whole};
use lucy_walks::Sketch;
use std::alloc::{AllocError, Global};

// What a call makes of a state, if the result satisfies the invariant.
fn result_of(
    alloc: Global,
    plan: &Plan,
    call: &Call,
    state: &State,
) -> Result<Option<State>, AllocError>
    requires fits { Fits plan.now call.now }
    requires state { length state.now ≡ length plan.now.object }
    ensures { IfOk result (ResultIs plan.now call.now state.now) }
{
    let mut raw = Raw::new(alloc, state.length())?;
    apply(plan, call, state, &mut raw);
    if !whole(plan, &raw) {
        return Ok(None);
    }
    let state = settle(alloc, &raw)?;
    Ok(Some(state))
}

// The result of the call of this number, which satisfies the invariant, and the number of the next one; else
// `NotReached`.
fn called(
    alloc: Global,
    plan: &Plan,
    call: &Call,
    state: &State,
    number: u64,
) -> Result<(State, u64), LabelError>
    requires fits { Fits plan.now call.now }
    requires state { length state.now ≡ length plan.now.object }
    requires few { number + 1 < 2 ^ 64 }
    ensures value { Answers OutOfMemory (λ p. p) (spec.called plan.now call.now state.now number) result }
    ensures even { IfOk result (λ p. length p.0 ≡ length plan.now.object) }
    ensures few { IfOk result (λ p. p.1 ≤ number + 1) }
{
    match result_of(alloc, plan, call, state)? {
        Some(state) => Ok((state, number + 1)),
        None => Err(LabelError::NotReached { at: number }),
    }
}

// The start.
fn start_of(alloc: Global, plan: &Plan) -> Result<State, AllocError>
    requires { IsWhole plan.now plan.now.start }
    ensures value { IfOk result (λ s. s ≡ plan.now.start) }
    ensures even { IfOk result (λ s. length s ≡ length plan.now.object) }
{
    let state = State::new(alloc, plan.parts().start.as_slice())?;
    Ok(state)
}

// The value of the start, and the number of the next call.
fn value_of_start(alloc: Global, plan: &Plan, number: u64) -> Result<(State, u64), LabelError>
    requires { IsWhole plan.now plan.now.start }
    ensures value { Answers OutOfMemory (λ p. p) (spec.evaluated plan.now Start number) result }
    ensures even { IfOk result (λ p. length p.0 ≡ length plan.now.object) }
    ensures few { IfOk result (λ p. p.1 ≡ number) }
{
    let state = start_of(alloc, plan)?;
    Ok((state, number))
}

// The value of a call on an expression, and the number of the next call.
#[cycle(evaluation)]
fn value_of_call(
    alloc: Global,
    plan: &Plan,
    call: &Call,
    inner: &Sketch,
    number: u64,
) -> Result<(State, u64), LabelError>
    requires start { IsWhole plan.now plan.now.start }
    requires fit { IsTrue (all_fit plan.now (tree_of inner.now)) }
    requires fits { Fits plan.now call.now }
    requires few { number + size (tree_of inner.now) + 1 < 2 ^ 64 }
    ensures value { Answers OutOfMemory (λ p. p) (spec.called_on plan.now call.now (tree_of inner.now) number) result }
    ensures even { IfOk result (λ p. length p.0 ≡ length plan.now.object) }
    ensures few { IfOk result (λ p. p.1 ≤ number + size (tree_of inner.now) + 1) }
{
    let (state, next) = value_of(alloc, plan, inner, number)?;
    called(alloc, plan, call, &state, next)
}

// The value of the merge of two expressions, and the number of the next call.
#[cycle(evaluation)]
fn value_of_merge(
    alloc: Global,
    plan: &Plan,
    left: &Sketch,
    right: &Sketch,
    number: u64,
) -> Result<(State, u64), LabelError>
    requires start { IsWhole plan.now plan.now.start }
    requires left { IsTrue (all_fit plan.now (tree_of left.now)) }
    requires right { IsTrue (all_fit plan.now (tree_of right.now)) }
    requires few { number + size (tree_of left.now) + size (tree_of right.now) + 1 < 2 ^ 64 }
    ensures value { Answers OutOfMemory (λ p. p) (spec.merged_on plan.now (tree_of left.now) (tree_of right.now) number) result }
    ensures even { IfOk result (λ p. length p.0 ≡ length plan.now.object) }
    ensures few { IfOk result (λ p. p.1 ≤ number + size (tree_of left.now) + size (tree_of right.now) + 1) }
{
    let (first, next) = value_of(alloc, plan, left, number)?;
    let (second, last) = value_of(alloc, plan, right, next)?;
    let object = plan.parts().object.as_slice();
    let state = merge(alloc, object, &first, &second)?;
    Ok((state, last))
}

/// The value of an expression, and the number of the call that comes next, where its own first call has this number.
/// `NotReached` tells the first call whose result breaks the invariant.
#[cycle(evaluation)]
pub fn value_of(
    alloc: Global,
    plan: &Plan,
    sketch: &Sketch,
    number: u64,
) -> Result<(State, u64), LabelError>
    requires start { IsWhole plan.now plan.now.start }
    requires fit { IsTrue (all_fit plan.now (tree_of sketch.now)) }
    requires few { number + size (tree_of sketch.now) < 2 ^ 64 }
    ensures value { Answers OutOfMemory (λ p. p) (spec.evaluated plan.now (tree_of sketch.now) number) result }
    ensures even { IfOk result (λ p. length p.0 ≡ length plan.now.object) }
    ensures few { IfOk result (λ p. p.1 ≤ number + size (tree_of sketch.now)) }
{
    match sketch {
        Sketch::Start => value_of_start(alloc, plan, number),
        Sketch::Apply { call, inner, .. } => value_of_call(alloc, plan, call, inner, number),
        Sketch::Merge { left, right } => value_of_merge(alloc, plan, left, right, number),
    }
}
