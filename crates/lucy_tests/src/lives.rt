//! Checked plans, calls and replicas for the tests.

ghost use Rattle.std.specs.Prelude.{◌≡◌, ℕ, IsTrue, Some, slice_get, IfOk};
ghost use Rattle.std.specs.Arc.{arc_value};
ghost use Rattle.lucy_plan.specs.Calls.{Fits};
ghost use Rattle.lucy_epochs.specs.Records.{first_record};

use crate::making::{call, shared_plan};
use lucy_epochs::Epoch;
use lucy_findings::{certificate, examine, is_sound};
use lucy_judge::{Checked, judge};
use lucy_plan::{Call, Plan, fits};
use lucy_replica::Life;
use std::alloc::{AllocError, Global};
use std::sync::Arc;

// The plan as a checked one, by the certificate that is found for it.
fn judged(alloc: Global, plan: Arc<Plan>) -> Option<Checked> {
    let findings = examine(alloc, &plan).ok()?;
    if !is_sound(&findings) {
        return None;
    }
    let certificate = certificate(alloc, &plan, &findings).ok()?;
    judge(alloc, plan, &certificate).ok()
}

/// The plan of one `max` leaf from 0 to 1000 that starts at 0, with this bound as its invariant and
/// this limit of depth.
pub fn checked(alloc: Global, bound: i64, depth: u32) -> Option<Arc<Checked>> {
    let text = format!(in alloc;
        "lucy 1 object {{ max x in 0..1000; }} start {{ }} invariant x <= {}; txn add(n in 0..10) {{ when true {{ x := x + n; }} }} segment main when true do add; depth {}; end",
        bound, depth
    );
    let plan = shared_plan(alloc, &text.ok()?)?;
    let checked = judged(alloc, plan)?;
    Arc::new(alloc, checked).ok()
}

// An amount, and how many calls add it: `AMOUNT`, or `AMOUNT*COUNT`.
fn amount_of(word: &str) -> Option<(i64, u32)> {
    let (amount, count) = match word.split_once('*') {
        Some((amount, count)) => (amount, count.parse::<u32>().ok()?),
        None => (word, 1),
    };
    Some((amount.parse::<i64>().ok()?, count))
}

fn add_calls(
    calls: &mut Vec<Call>,
    alloc: Global,
    amount: i64,
    count: u32,
) -> Result<(), AllocError> {
    for _ in 0..count {
        calls.push(call(alloc, amount)?)?;
    }
    Ok(())
}

/// Calls that add the amounts of a text, with a space between two.
pub fn calls(alloc: Global, text: &str) -> Option<Vec<Call>> {
    let mut calls = Vec::new(alloc);
    for word in text.split_terminator(' ') {
        let (amount, count) = amount_of(word)?;
        add_calls(&mut calls, alloc, amount, count).ok()?;
    }
    Some(calls)
}

// The first record of a plan.
fn first(alloc: Global, checked: &Checked) -> Result<Arc<Epoch>, AllocError>
    ensures { IfOk result (λ epoch. arc_value epoch ≡ first_record checked.now) }
{
    let plan = checked.plan().clone()?;
    Ok(Arc::new(alloc, Epoch::first(alloc, plan)?)?)
}

// Whether all calls fit a plan.
fn all_fit(plan: &Plan, calls: &[Call]) -> bool
    ensures { IsTrue result → (place : ℕ) (call : _) → slice_get calls.now place ≡ Some call → Fits plan.now call }
{
    calls.iter().all(|call| fits(plan, call))
}

// With calls that it may have.
fn life_of(
    alloc: Global,
    checked: &Arc<Checked>,
    replica: u32,
    work: Vec<Call>,
) -> Result<Option<Life>, AllocError> {
    if replica >= 2 || work.len() > 4096 || !all_fit(checked.plan(), work.as_slice()) {
        return Ok(None);
    }
    let checked = checked.clone()?;
    let record = first(alloc, &checked)?;
    Ok(Some(Life::new(alloc, checked, replica, 2, record, work)?))
}

/// Replica 0 or 1 of two, at the first record, with calls of these amounts.
pub fn life(alloc: Global, checked: &Arc<Checked>, replica: u32, amounts: &str) -> Option<Life> {
    let work = calls(alloc, amounts)?;
    life_of(alloc, checked, replica, work).ok()?
}
