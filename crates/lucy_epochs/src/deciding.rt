//! How a change is decided from the parts of all replicas.
ghost use Rattle.std.specs.Prelude.{◌≡◌, ◌≤◌, ◌<◌, ◌+◌, ◌^◌, fold, map, length, Some, IsTrue, IfSome, IfOk, unwrap_or};
ghost use Rattle.std.specs.Option.{option_map};
ghost use Rattle.std.specs.Arc.{arc_value};
ghost use Rattle.lucy_model.specs.Merging as merging;
ghost use Rattle.lucy_plan.specs.Calls.{Fits};
ghost use Rattle.lucy_plan.specs.Segments as segments;
ghost use Rattle.lucy_epochs.specs.Records.{next_opening};
ghost use Rattle.lucy_epochs.specs.Contributions.{AreFrom, AreEven, trees_of};
ghost use Rattle.lucy_epochs.specs.Collections.{is_full, parts_of};
ghost use Rattle.lucy_plan.specs.declared.parts.Call.{Call};
ghost use Rattle.lucy_epochs.specs.declared.causes.By.{By};
ghost use Rattle.lucy_epochs.specs.Rulings as decided;
ghost use Rattle.lucy_epochs.specs.Sharing.{ruling_of};

use crate::causes::By;
use crate::collecting::Collect;
use crate::epochs::Epoch;
use crate::parts::{Part, Parts};
use crate::rulings::Ruling;
use lucy_model::{Leaf, Raw, State, merge};
use lucy_plan::{
    Call, Plan, apply, first_segment, first_segment_is_first, segment_is_whole, settle, whole,
};
use std::alloc::{AllocError, Global};
use std::sync::Arc;

/// Decides a change of which all parts were collected, for the call that is wanted, if one is, and
/// the name that a record will give it. `Nothing` where no call is wanted. Else the call is applied to
/// the merge of all parts: `Broken` with the parts where the result breaks the invariant, and else
/// `Opened` with the next record.
pub fn rule(
    alloc: Global,
    collect: &Collect,
    wanted: Option<(&Call, By)>,
) -> Result<Ruling, AllocError>
    requires full { IsTrue (is_full collect.now.seats) }
    requires some { 1 ≤ length collect.now.seats }
    requires fits { IfSome wanted (λ w. Fits collect.now.epoch.plan w.0.now) }
    requires covered { decided.IsCovered collect.now.epoch.plan }
    requires number { collect.now.epoch.number + 1 < 2 ^ 64 }
    ensures { IfOk result (λ ruling. ruling_of ruling ≡ decided.rule collect.now.epoch (parts_of collect.now.seats) (option_map (λ (w : _). let named : Call × By = (w.0.now, w.1) in named) wanted.entry)) }
{
    match wanted {
        None => Ok(Ruling::Nothing),
        Some((call, by)) => rule_on(alloc, collect, call, by),
    }
}

// Decides a change for a call.
fn rule_on(alloc: Global, collect: &Collect, call: &Call, by: By) -> Result<Ruling, AllocError>
    requires full { IsTrue (is_full collect.now.seats) }
    requires some { 1 ≤ length collect.now.seats }
    requires fits { Fits collect.now.epoch.plan call.now }
    requires covered { decided.IsCovered collect.now.epoch.plan }
    requires number { collect.now.epoch.number + 1 < 2 ^ 64 }
    ensures { IfOk result (λ ruling. ruling_of ruling ≡ decided.rule collect.now.epoch (parts_of collect.now.seats) (Some (call.now, by))) }
{
    let epoch = collect.epoch();
    let parts = collect.parts(alloc)?;
    let raw = made(alloc, epoch, &parts, call)?;
    if !is_whole(epoch.plan(), &raw) {
        return Ok(Ruling::Broken(Arc::new(alloc, parts)?));
    }
    let next = next(alloc, epoch, &raw, by)?;
    Ok(Ruling::Opened(next))
}

// Whether numbers satisfy the invariant.
fn is_whole(plan: &Plan, raw: &Raw) -> bool
    requires { length raw.now ≡ length plan.now.object }
    ensures { result ≡ segments.is_whole plan.now raw.now }
{
    whole(plan, raw)
}

// What a call makes of the merge of the parts of this record.
fn made(alloc: Global, epoch: &Epoch, parts: &Parts, call: &Call) -> Result<Raw, AllocError>
    requires some { 1 ≤ length parts.now }
    requires of_one { AreFrom 0 epoch.now parts.now }
    requires fits { Fits epoch.now.plan call.now }
    ensures value { IfOk result (λ raw. raw ≡ next_opening epoch.now (trees_of parts.now) call.now) }
    ensures length { IfOk result (λ raw. length raw ≡ length epoch.now.plan.object) }
{
    segment_is_whole();
    let plan = epoch.plan();
    let state = merged(alloc, plan.parts().object.as_slice(), parts.list())?;
    let mut raw = Raw::new(alloc, state.length())?;
    apply(plan, call, &state, &mut raw);
    Ok(raw)
}

// The merge of the states of some parts.
fn merged(alloc: Global, object: &[Leaf], parts: &[Part]) -> Result<State, AllocError>
    requires some { 1 ≤ length parts.now }
    requires even { AreEven object.now parts.now }
    ensures state { IfOk result (λ state. state ≡ merging.merged_all object.now (map (λ part. part.state) parts.now)) }
    ensures even { IfOk result (λ state. length state ≡ length object.now) }
{
    match parts {
        [] => unreachable!(),
        [first, rest @ ..] => merged_onto(alloc, object, first.state(), rest),
    }
}

// The merge of a state and those of parts, one after another.
fn merged_onto(
    alloc: Global,
    object: &[Leaf],
    first: &State,
    rest: &[Part],
) -> Result<State, AllocError>
    requires first { length first.now ≡ length object.now }
    requires even { AreEven object.now rest.now }
    ensures state { IfOk result (λ state. state ≡ fold (merging.merged object.now) first.now (map (λ part. part.state) rest.now)) }
    ensures even { IfOk result (λ state. length state ≡ length object.now) }
{
    let mut state = first.clone()?;
    for part in rest {
        state = merge(alloc, object, &state, part.state())?;
    }
    Ok(state)
}

// The record after another, with this opening, which satisfies the invariant.
fn next(alloc: Global, before: &Epoch, raw: &Raw, by: By) -> Result<Arc<Epoch>, AllocError>
    requires length { length raw.now ≡ length before.now.plan.object }
    requires whole { segments.IsWhole before.now.plan raw.now }
    requires covered { decided.IsCovered before.now.plan }
    requires number { before.now.number + 1 < 2 ^ 64 }
    ensures { IfOk result (λ next. arc_value next ≡ record {
      number = before.now.number + 1;
      segment = unwrap_or (segments.first_segment before.now.plan raw.now) 0;
      opening = raw.now;
      plan = before.now.plan;
      by = Some by;
    }) }
{
    first_segment_is_first();
    let plan = before.plan();
    let Some(segment) = first_segment(plan, raw) else {
        unreachable!()
    };
    let opening = Arc::new(alloc, settle(alloc, raw)?)?;
    let number = before.number() + 1;
    let epoch = Epoch::new(number, segment, opening, plan.clone()?, Some(by));
    Ok(Arc::new(alloc, epoch)?)
}
