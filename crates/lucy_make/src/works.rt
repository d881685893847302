//! Made work.

ghost use Rattle.std.specs.Prelude.{◌≡◌, ◌≤◌, ◌+◌, ◌^◌, ◌<◌, pos, ◌+ℤ◌, ◌≤ℤ◌, [], length, slice_get, IfOk};
ghost use Rattle.lucy_calls.specs.Laws.{IsWorkOf};
ghost use Rattle.lucy_calls.specs.Work.{params_of};
ghost use Rattle.lucy_make.specs.Work as spec;

use lucy_calls::Work;
use lucy_net::Chaos;
use lucy_plan::{Call, Limits, Plan, Txn};
use sqlite_items::{Items, at};
use std::alloc::{AllocError, Global};

// How many numbers a parameter takes, or 2^32 - 1 where that is less.
fn span(limits: Limits) -> u32
    ensures value { result ≡ spec.span limits }
    ensures some { 0 < result }
{
    let size = (limits.hi - limits.lo).unsigned_abs() + 1;
    size.min(u64::from(u32::MAX)) as u32
}

// A number above the least that a parameter takes.
fn above_least(limits: Limits, drawn: u32) -> i64
    ensures { result ≡ limits.lo +ℤ pos drawn }
{
    limits.lo + i64::from(drawn)
}

fn draw_argument(chaos: &mut Chaos, limits: Limits) -> i64
    ensures { (result, chaos.new) ≡ spec.argument limits chaos.old }
{
    above_least(limits, chaos.draw(span(limits)))
}

// An argument for each parameter.
fn draw_arguments(
    alloc: Global,
    chaos: &mut Chaos,
    params: &[Limits],
) -> Result<Items<i64>, AllocError>
    ensures { IfOk result (λ found. (found, chaos.new) ≡ spec.arguments params.now [] chaos.old) }
{
    let mut found = Items::new(alloc);
    for limits in params {
        found.push(draw_argument(chaos, *limits))?;
    }
    Ok(found)
}

// The parameters of the transaction at a place.
fn params_at(txns: &[Txn], place: u32) -> &[Limits]
    ensures { result.now ≡ params_of (slice_get txns.now place) }
{
    match at(txns, place as usize) {
        Some(txn) => txn.params.as_slice(),
        None => &[],
    }
}

fn draw_call(alloc: Global, chaos: &mut Chaos, txns: &[Txn]) -> Result<Call, AllocError>
    requires some { 0 < length txns.now }
    requires few { length txns.now < 2 ^ 32 }
    ensures { IfOk result (λ call. (call, chaos.new) ≡ spec.call txns.now chaos.old) }
{
    let txn = chaos.draw(txns.len() as u32);
    let arguments = draw_arguments(alloc, chaos, params_at(txns, txn))?;
    Ok(Call { txn, arguments })
}

// So many calls.
fn draw_calls(
    alloc: Global,
    chaos: &mut Chaos,
    txns: &[Txn],
    count: u32,
) -> Result<Items<Call>, AllocError>
    requires some { 0 < length txns.now }
    requires few { length txns.now < 2 ^ 32 }
    ensures { IfOk result (λ calls. (calls, chaos.new) ≡ spec.calls_of txns.now count chaos.old) }
{
    let mut calls = Items::new(alloc);
    for _place in 0..count {
        let call = draw_call(alloc, chaos, txns)?;
        calls.push(call)?;
    }
    Ok(calls)
}

// The calls of one replica; where there are no transactions, none.
fn draw_list(
    alloc: Global,
    chaos: &mut Chaos,
    txns: &[Txn],
    count: u32,
) -> Result<Items<Call>, AllocError>
    requires { length txns.now < 2 ^ 32 }
    ensures { IfOk result (λ calls. (calls, chaos.new) ≡ spec.calls_of txns.now count chaos.old) }
{
    if txns.is_empty() {
        Ok(Items::new(alloc))
    } else {
        draw_calls(alloc, chaos, txns, count)
    }
}

// The calls of each replica.
fn draw_lists(
    alloc: Global,
    chaos: &mut Chaos,
    txns: &[Txn],
    replicas: u32,
    count: u32,
) -> Result<Items<Items<Call>>, AllocError>
    requires { length txns.now < 2 ^ 32 }
    ensures { IfOk result (λ lists. (lists, chaos.new) ≡ spec.lists_of txns.now replicas count chaos.old) }
{
    let mut lists = Items::new(alloc);
    for _replica in 0..replicas {
        let calls = draw_list(alloc, chaos, txns, count)?;
        lists.push(calls)?;
    }
    Ok(lists)
}

/// The work of a plan, a seed, and numbers of replicas and of calls of each: calls of drawn transactions with drawn
/// arguments. Where the plan has no transactions, the lists are empty.
pub fn make_work(
    alloc: Global,
    plan: &Plan,
    seed: u64,
    replicas: u32,
    calls: u32,
) -> Result<Work, AllocError>
    ensures made { IfOk result (λ work. work.lists ≡ spec.made_work plan.now seed replicas calls) }
    ensures fits { 1 ≤ replicas → replicas ≤ 16 → calls ≤ 4096 → IfOk result (λ work. IsWorkOf plan.now work.lists) }
{
    let mut chaos = Chaos::new(seed);
    let txns = plan.parts().txns.as_slice();
    let lists = draw_lists(alloc, &mut chaos, txns, replicas, calls)?;
    Ok(Work { lists })
}
