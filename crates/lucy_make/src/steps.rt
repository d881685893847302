//! Made steps.

ghost use Rattle.std.specs.Prelude.{◌≡◌, ◌≤◌, ◌+◌, ◌-◌, ◌^◌, ◌<◌, OnOk, IfOk};
ghost use Rattle.std.specs.List.{All};
ghost use Rattle.lucy_calls.specs.Laws.{IsStepOf};
ghost use Rattle.lucy_make.specs.Steps as spec;

use lucy_calls::Step;
use lucy_net::Chaos;
use sqlite_items::Items;
use std::alloc::{AllocError, Global};

/// A script that is being made.
#[derive(Drop)]
pub struct Script {
    /// Its steps so far.
    pub steps: Items<Step>,
    /// How many of them send a packet.
    pub sent: u32,
}

// A step that sends nothing.
fn put(script: &mut Script, step: Step) -> Result<(), AllocError>
    ensures { OnOk result (script.new ≡ spec.with_step step script.old) }
{
    script.steps.push(step)
}

// A submit of a drawn replica.
fn submit(script: &mut Script, chaos: &mut Chaos, replicas: u32) -> Result<(), AllocError>
    requires { 0 < replicas }
    ensures { OnOk result ((script.new, chaos.new) ≡ spec.submits replicas script.old chaos.old) }
{
    put(script, Step::Submit(chaos.draw(replicas)))
}

// A send of a drawn replica.
fn send(script: &mut Script, chaos: &mut Chaos, replicas: u32) -> Result<(), AllocError>
    requires some { 0 < replicas }
    requires room { script.old.sent + 1 < 2 ^ 32 }
    ensures { OnOk result ((script.new, chaos.new) ≡ spec.sends replicas script.old chaos.old) }
{
    script.steps.push(Step::Send(chaos.draw(replicas)))?;
    script.sent += 1;
    Ok(())
}

// A delivery to a drawn replica of a drawn packet. There is a packet.
fn deliver_drawn(script: &mut Script, chaos: &mut Chaos, replicas: u32) -> Result<(), AllocError>
    requires some { 0 < replicas }
    requires one { 0 < script.old.sent }
    ensures { OnOk result ((script.new, chaos.new) ≡ spec.delivers replicas script.old chaos.old) }
{
    let to = chaos.draw(replicas);
    let packet = u64::from(chaos.draw(script.sent));
    put(script, Step::Deliver { to, packet })
}

// A delivery; where no packet was sent, a send in its place.
fn deliver(script: &mut Script, chaos: &mut Chaos, replicas: u32) -> Result<(), AllocError>
    requires some { 0 < replicas }
    requires room { script.old.sent + 1 < 2 ^ 32 }
    ensures { OnOk result ((script.new, chaos.new) ≡ spec.delivers replicas script.old chaos.old) }
{
    if script.sent == 0 {
        send(script, chaos, replicas)
    } else {
        deliver_drawn(script, chaos, replicas)
    }
}

// A submit of a drawn replica, and then a freeze of this one.
fn submit_and_freeze(
    script: &mut Script,
    chaos: &mut Chaos,
    replicas: u32,
    replica: u32,
) -> Result<(), AllocError>
    requires { 0 < replicas }
    ensures { OnOk result ((script.new, chaos.new) ≡ spec.freeze_at replica (spec.submits replicas script.old chaos.old)) }
{
    submit(script, chaos, replicas)?;
    put(script, Step::Freeze(replica))
}

fn freeze_all(script: &mut Script, chaos: &mut Chaos, replicas: u32) -> Result<(), AllocError>
    requires { 0 < replicas }
    ensures { OnOk result ((script.new, chaos.new) ≡ spec.freezes replicas replicas 0 (script.old, chaos.old)) }
{
    for replica in 0..replicas {
        submit_and_freeze(script, chaos, replicas, replica)?;
    }
    Ok(())
}

fn thaw_all(script: &mut Script, replicas: u32) -> Result<(), AllocError>
    ensures { OnOk result (script.new ≡ spec.thaws replicas 0 script.old) }
{
    for replica in 0..replicas {
        put(script, Step::Thaw(replica))?;
    }
    Ok(())
}

fn begin(script: &mut Script, replica: u32) -> Result<(), AllocError>
    ensures { OnOk result (script.new ≡ spec.begun replica script.old) }
{
    put(script, Step::Submit(replica))?;
    put(script, Step::Begin(replica))
}

fn open_and_thaw(script: &mut Script, replicas: u32) -> Result<(), AllocError>
    ensures { OnOk result (script.new ≡ spec.opened replicas script.old) }
{
    put(script, Step::OpenEpoch)?;
    thaw_all(script, replicas)
}

// A whole change that a drawn replica begins.
#[tactic(auto, unfolding(crate::specs::Steps::changes))]
fn change(script: &mut Script, chaos: &mut Chaos, replicas: u32) -> Result<(), AllocError>
    requires { 0 < replicas }
    ensures { OnOk result ((script.new, chaos.new) ≡ spec.changes replicas script.old chaos.old) }
{
    let replica = chaos.draw(replicas);
    begin(script, replica)?;
    freeze_all(script, chaos, replicas)?;
    open_and_thaw(script, replicas)
}

// What a drawn number from 0 to 15 makes.
fn round_by(
    script: &mut Script,
    chaos: &mut Chaos,
    replicas: u32,
    drawn: u32,
) -> Result<(), AllocError>
    requires some { 0 < replicas }
    requires room { script.old.sent + 1 < 2 ^ 32 }
    ensures { OnOk result ((script.new, chaos.new) ≡ spec.round_by replicas script.old (drawn, chaos.old)) }
{
    match drawn {
        0..=6 => submit(script, chaos, replicas),
        7..=9 => send(script, chaos, replicas),
        10..=13 => deliver(script, chaos, replicas),
        _ => change(script, chaos, replicas),
    }
}

#[tactic(auto, unfolding(crate::specs::Steps::round))]
fn round(script: &mut Script, chaos: &mut Chaos, replicas: u32) -> Result<(), AllocError>
    requires some { 0 < replicas }
    requires room { script.old.sent + 1 < 2 ^ 32 }
    ensures { OnOk result ((script.new, chaos.new) ≡ spec.round replicas script.old chaos.old) }
{
    let drawn = chaos.draw(16);
    round_by(script, chaos, replicas, drawn)
}

/// The steps of a number of replicas, a seed and a number of rounds: in each round a submit, a send, a delivery or a whole
/// change, as it is drawn.
pub fn make_steps(
    alloc: Global,
    replicas: u32,
    seed: u64,
    rounds: u32,
) -> Result<Items<Step>, AllocError>
    requires { 1 ≤ replicas }
    ensures made { IfOk result (λ steps. steps ≡ spec.made_steps replicas seed rounds) }
    ensures replicas { IfOk result (All (IsStepOf replicas)) }
{
    let mut chaos = Chaos::new(seed);
    let mut script = Script {
        steps: Items::new(alloc),
        sent: 0,
    };
    for _round in 0..rounds {
        round(&mut script, &mut chaos, replicas)?;
    }
    Ok(script.steps)
}
