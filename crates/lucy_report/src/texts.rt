//! Texts by themselves.

ghost use Rattle.std.specs.Prelude.{◌≡◌, IfOk, map, option_map};
ghost use Rattle.std.specs.Arc.{arc_value};
ghost use Rattle.lucy_report.specs.StepTexts as step_texts;
ghost use Rattle.lucy_report.specs.WorldTexts as world_texts;

use crate::step_lines::write_step_line;
use crate::world_lines::write_world;
use crate::writing::write_state;
use lucy_calls::Step;
use lucy_epochs::Epoch;
use lucy_model::State;
use lucy_names::Names;
use lucy_replica::{Event, Life};
use std::alloc::{AllocError, Global};
use std::sync::Arc;

/// The numbers of a state, in parentheses.
pub fn state_text(alloc: Global, state: &State) -> Result<Vec<u8>, AllocError>
    ensures { IfOk result (λ text. text.items ≡ step_texts.state_text state.now) }
{
    let mut text = Vec::new(alloc);
    write_state(&mut text, state.as_slice())?;
    Ok(text)
}

/// The line of a step: the step, the event, and the state after it, which is given exactly where
/// it is shown.
pub fn step_line(
    alloc: Global,
    step: &Step,
    event: &Event,
    state: Option<&State>,
) -> Result<Vec<u8>, AllocError>
    ensures { IfOk result (λ text. text.items ≡ step_texts.step_line step.now event.now (option_map (λ s. s.now) state.entry)) }
{
    let mut text = Vec::new(alloc);
    write_step_line(&mut text, *step, *event, state)?;
    Ok(text)
}

/// The text of a world: its records, its replicas, and the line `end`. The names have one for the
/// segment of each record.
pub fn world_text(
    alloc: Global,
    names: &Names,
    epochs: &[Arc<Epoch>],
    lives: &[Life],
) -> Result<Vec<u8>, AllocError>
    requires { world_texts.AreNamed names.now.segments (map arc_value epochs.now) }
    ensures { IfOk result (λ text. text.items ≡ world_texts.world_text names.now.segments (map arc_value epochs.now) (map (λ life. life.replica) lives.now)) }
{
    let mut text = Vec::new(alloc);
    write_world(&mut text, names, epochs, lives)?;
    Ok(text)
}
