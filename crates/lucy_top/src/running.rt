ghost use Rattle.std.specs.Prelude.{◌≡◌, ◌++◌, All, IfOk, OnOk, length, map, option_map, slice_get};
ghost use Rattle.std.specs.Arc.{arc_value};
ghost use Rattle.lucy_calls.specs.Laws.{IsStepOf};
ghost use Rattle.lucy_core.specs.Worlds.{IsWorkOf};
ghost use Rattle.lucy_core.specs.Steps.{step_of};
ghost use Rattle.lucy_names.specs.Plans.{AreNamesOf};
ghost use Rattle.lucy_top.specs.Replays.{named_replica, shown_state, line_after, replay_text};

use lucy_calls::{Step, Work};
use lucy_core::{Event, World, records_stay, work_stays};
use lucy_judge::Checked;
use lucy_model::State;
use lucy_names::Names;
use lucy_replica::Life;
use lucy_report::{shows_state, write_step_line, write_world};
use std::alloc::{AllocError, Global};
use std::sync::Arc;

fn life_at(lives: &[Life], number: u32) -> Option<&Life>
    ensures { option_map (λ life. life.now.replica) result ≡ slice_get (map (λ life. life.replica) lives.now) number }
{
    lives.get(number as usize)
}

// The replica that a step names.
fn named_life(lives: &[Life], step: Step) -> Option<&Life>
    ensures { option_map (λ life. life.now.replica) result ≡ named_replica (map (λ life. life.replica) lives.now) step }
{
    match step {
        Step::Submit(number) => life_at(lives, number),
        Step::Send(number) => life_at(lives, number),
        Step::Deliver { to, .. } => life_at(lives, to),
        Step::Begin(number) => life_at(lives, number),
        Step::Freeze(number) => life_at(lives, number),
        Step::OpenEpoch => None,
        Step::Thaw(number) => life_at(lives, number),
    }
}

// The state of that replica, where the event shows it.
fn state_after(lives: &[Life], step: Step, event: Event) -> Option<&State>
    ensures { option_map (λ state. state.now) result ≡ shown_state (map (λ life. life.replica) lives.now) step event }
{
    if shows_state(event) {
        let life = named_life(lives, step)?;
        Some(life.state())
    } else {
        None
    }
}

// Takes a step, and writes its line.
#[tactic(auto, unfolding(crate::specs::Replays::line_after))]
fn take_step(
    alloc: Global,
    world: &mut World,
    step: Step,
    text: &mut Vec<u8>,
) -> Result<(), AllocError>
    requires { IsStepOf (length world.old.replicas) step }
    ensures world { OnOk result (world.new ≡ (step_of world.old step).1) }
    ensures text { OnOk result (text.new.items ≡ text.old.items ++ line_after step (step_of world.old step)) }
{
    let event = world.step(alloc, step)?;
    let state = state_after(world.lives(), step, event);
    write_step_line(text, step, event, state)
}

/// The text of a replay: the line of each step, and the world after them.
#[tactic(auto, unfolding(crate::specs::Replays::replay_text))]
pub fn replay_steps(
    alloc: Global,
    checked: Arc<Checked>,
    names: &Names,
    work: &Work,
    steps: &[Step],
) -> Result<Vec<u8>, AllocError>
    requires names { AreNamesOf (arc_value checked) names.now }
    requires work { IsWorkOf (arc_value checked) work.now.lists }
    requires steps { All (IsStepOf (length work.now.lists)) steps.now }
    ensures { IfOk result (λ text. text.items ≡ replay_text (arc_value checked) work.now.lists steps.now) }
{
    records_stay();
    work_stays();
    let mut world = World::new(alloc, checked, work)?;
    let mut text = Vec::new(alloc);
    for step in steps {
        take_step(alloc, &mut world, *step, &mut text)?;
    }
    world.facts();
    write_world(&mut text, names, world.epochs(), world.lives())?;
    Ok(text)
}
