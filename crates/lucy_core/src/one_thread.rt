//! One thread alone, without threads to wait for: it works all calls of one replica after another.

ghost use Rattle.std.specs.Prelude.{◌≡◌, ◌<◌, ◌≤◌, ◌++◌, false, IfOk, OnOk, length, map};
ghost use Rattle.std.specs.Arc.{arc_value};
ghost use Rattle.lucy_core.specs.Alone as definition;
ghost use Rattle.lucy_core.specs.Worlds.{IsWorkOf};
ghost use Rattle.lucy_replica.specs.Legal.{IsLegal};

use crate::laws::{alone_is_legal, work_stays};
use crate::outcome::Outcome;
use crate::worlds::World;
use lucy_calls::{Step, Work};
use lucy_judge::Checked;
use lucy_plan::Call;
use lucy_replica::Event;
use sqlite_items::Items;
use std::alloc::{AllocError, Global};
use std::sync::Arc;

// Freezes the replicas, so many in all, in the order of their numbers.
fn push_freezes(steps: &mut Vec<Step>, replicas: u32) -> Result<(), AllocError>
    ensures { OnOk result (steps.new.items ≡ steps.old.items ++ definition.freezes 0 replicas) }
{
    for number in 0..replicas {
        steps.push(Step::Freeze(number))?;
    }
    Ok(())
}

// Thaws them, the last one first.
fn push_thaws(steps: &mut Vec<Step>, replicas: u32) -> Result<(), AllocError>
    ensures { OnOk result (steps.new.items ≡ steps.old.items ++ definition.thaws replicas) }
{
    let mut left = replicas;
    while left > 0 {
        left -= 1;
        steps.push(Step::Thaw(left))?;
    }
    Ok(())
}

// A whole change among so many replicas, for one of them.
fn whole_change(alloc: Global, replicas: u32, coordinator: u32) -> Result<Vec<Step>, AllocError>
    ensures { IfOk result (λ steps. steps.items ≡ definition.whole_change replicas coordinator) }
{
    let mut steps = Vec::new(alloc);
    steps.push(Step::Begin(coordinator))?;
    push_freezes(&mut steps, replicas)?;
    steps.push(Step::OpenEpoch)?;
    push_thaws(&mut steps, replicas)?;
    Ok(steps)
}

// Whether a submit wants a change.
fn is_wanting(event: Event) -> bool
    ensures { result ≡ definition.is_wanting event }
{
    matches!(event, Event::Wants)
}

// Lets a replica, one of so many, try its next call. Where that one wants a change, it gets a whole one
// at once.
fn call_next(alloc: Global, world: &mut World, replicas: u32, number: u32) -> Result<(), AllocError>
    requires many { length world.old.replicas ≡ replicas }
    requires below { number < replicas }
    ensures { OnOk result (world.new ≡ definition.after_call world.old number) }
{
    work_stays();
    let event = world.step(alloc, Step::Submit(number))?;
    if is_wanting(event) {
        let steps = whole_change(alloc, replicas, number)?;
        let _events = world.run(alloc, &steps)?;
    }
    Ok(())
}

// Lets a replica try so many calls, one after another.
fn call_all(
    alloc: Global,
    world: &mut World,
    replicas: u32,
    number: u32,
    calls: usize,
) -> Result<(), AllocError>
    requires many { length world.old.replicas ≡ replicas }
    requires below { number < replicas }
    ensures { OnOk result (world.new ≡ definition.after_calls calls world.old number) }
{
    for _ in 0..calls {
        call_next(alloc, world, replicas, number)?;
    }
    Ok(())
}

// Lets each replica of a work try all its calls, one replica after another.
fn call_lists(alloc: Global, world: &mut World, work: &[Items<Call>]) -> Result<(), AllocError>
    requires many { length world.old.replicas ≡ length work.now }
    requires few { length work.now ≤ 16 }
    ensures { OnOk result (world.new ≡ definition.after_lists work.now world.old 0) }
{
    let replicas = work.len() as u32;
    for (number, calls) in work.iter().enumerate() {
        call_all(alloc, world, replicas, number as u32, calls.len())?;
    }
    Ok(())
}

/// What one thread alone comes to: replica after replica, each call is tried, and one that wants a
/// change gets a whole one before the next call. Each call has a reply in the end, and the outcome is
/// legal. Each call fits the plan, and there are 1 to 16 replicas with at most 4,096 calls each.
pub fn alone(alloc: Global, checked: Arc<Checked>, work: &Work) -> Result<Outcome, AllocError>
    requires { IsWorkOf (arc_value checked) work.now.lists }
    ensures threads { IfOk result (λ outcome. outcome.threads ≡ false) }
    ensures lives { IfOk result (λ outcome. map (λ life. life.replica) outcome.lives.items ≡ (definition.alone_world (arc_value checked) work.now.lists).replicas) }
    ensures legal { IfOk result (λ outcome. IsLegal (arc_value checked) work.now.lists (map (λ life. life.replica) outcome.lives.items)) }
{
    alone_is_legal();
    let _plan = checked.plan();
    let mut world = World::new(alloc, checked, work)?;
    call_lists(alloc, &mut world, work.lists.as_slice())?;
    Ok(Outcome {
        threads: false,
        lives: world.into_lives(),
    })
}
