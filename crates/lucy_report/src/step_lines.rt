ghost use Rattle.std.specs.Prelude.{◌≡◌, ◌++◌, OnOk, codes, decimal, option_map};
ghost use Rattle.lucy_report.specs.StepTexts.{id_text, step_text, stage_text, event_text, shown, step_line};
ghost use Rattle.lucy_report.specs.StepTexts as step_texts;

use crate::writing::{write_counted, write_id, write_numbered, write_state};
use lucy_calls::Step;
use lucy_expr::Id;
use lucy_io::write_text;
use lucy_model::State;
use lucy_replica::{Event, Stage};
use std::alloc::AllocError;

fn write_delivery(out: &mut Vec<u8>, to: u32, packet: u64) -> Result<(), AllocError>
    ensures { OnOk result (out.new.items ≡ out.old.items ++ codes "deliver " ++ decimal to ++ codes " " ++ decimal packet) }
{
    write_numbered(out, "deliver ", to)?;
    write_counted(out, " ", packet)?;
    Ok(())
}

// A step as it stands in its script.
#[tactic(auto, unfolding(crate::specs::StepTexts::step_text))]
fn write_step(out: &mut Vec<u8>, step: Step) -> Result<(), AllocError>
    ensures { OnOk result (out.new.items ≡ out.old.items ++ step_text step) }
{
    match step {
        Step::Submit(replica) => write_numbered(out, "submit ", replica),
        Step::Send(replica) => write_numbered(out, "send ", replica),
        Step::Deliver { to, packet } => write_delivery(out, to, packet),
        Step::Begin(replica) => write_numbered(out, "begin ", replica),
        Step::Freeze(replica) => write_numbered(out, "freeze ", replica),
        Step::OpenEpoch => write_text(out, "open"),
        Step::Thaw(replica) => write_numbered(out, "thaw ", replica),
    }
}

fn write_stage(out: &mut Vec<u8>, stage: Stage) -> Result<(), AllocError>
    ensures { OnOk result (out.new.items ≡ out.old.items ++ codes "busy " ++ stage_text stage) }
{
    match stage {
        Stage::Freezing => write_text(out, "busy freezing"),
        Stage::Decided => write_text(out, "busy decided"),
    }
}

// A text, and an id behind it.
fn write_named(out: &mut Vec<u8>, text: &str, id: Id) -> Result<(), AllocError>
    ensures { OnOk result (out.new.items ≡ out.old.items ++ text.now ++ id_text id.replica id.count) }
{
    write_text(out, text)?;
    write_id(out, id.replica, id.count)?;
    Ok(())
}

#[tactic(auto, unfolding(crate::specs::StepTexts::event_text))]
fn write_event(out: &mut Vec<u8>, event: Event) -> Result<(), AllocError>
    ensures { OnOk result (out.new.items ≡ out.old.items ++ event_text event) }
{
    match event {
        Event::Done(id) => write_named(out, "done ", id),
        Event::Broken => write_text(out, "broken"),
        Event::Wants => write_text(out, "wants"),
        Event::Ended => write_text(out, "ended"),
        Event::Sent(packet) => write_counted(out, "packet ", packet),
        Event::Merged => write_text(out, "merged"),
        Event::Stale => write_text(out, "stale"),
        Event::Deep => write_text(out, "deep"),
        Event::NoPacket => write_text(out, "no packet"),
        Event::Held => write_text(out, "held"),
        Event::Free => write_text(out, "free"),
        Event::Idle => write_text(out, "idle"),
        Event::Busy(stage) => write_stage(out, stage),
        Event::Nothing => write_text(out, "nothing"),
        Event::Begun => write_text(out, "begun"),
        Event::Frozen => write_text(out, "frozen"),
        Event::Opened(number) => write_counted(out, "epoch ", number),
        Event::RuledBroken => write_text(out, "broken"),
        Event::RuledNothing => write_text(out, "nothing"),
        Event::Adopted => write_text(out, "adopted"),
        Event::Moved(id) => write_named(out, "moved ", id),
        Event::Refused => write_text(out, "refused"),
        Event::Kept => write_text(out, "kept"),
    }
}

/// Whether the state of a step's replica is shown after the event.
pub fn shows_state(event: Event) -> bool
    ensures { result ≡ step_texts.shows_state event }
{
    match event {
        Event::Sent(_)
        | Event::NoPacket
        | Event::Idle
        | Event::Busy(_)
        | Event::Begun
        | Event::Opened(_)
        | Event::RuledBroken
        | Event::RuledNothing => false,
        _ => true,
    }
}

// A state behind a space, where one is shown.
fn write_shown(out: &mut Vec<u8>, state: Option<&State>) -> Result<(), AllocError>
    ensures { OnOk result (out.new.items ≡ out.old.items ++ shown (option_map (λ s. s.now) state.entry)) }
{
    match state {
        None => Ok(()),
        Some(state) => {
            write_text(out, " ")?;
            write_state(out, state.as_slice())?;
            Ok(())
        }
    }
}

/// Appends the line of a step: the step, the event, and the state after it where
/// one is shown.
#[tactic(auto, unfolding(crate::specs::StepTexts::step_line))]
pub fn write_step_line(
    out: &mut Vec<u8>,
    step: Step,
    event: Event,
    state: Option<&State>,
) -> Result<(), AllocError>
    ensures { OnOk result (out.new.items ≡ out.old.items ++ step_line step event (option_map (λ s. s.now) state.entry)) }
{
    write_step(out, step)?;
    write_text(out, ": ")?;
    write_event(out, event)?;
    write_shown(out, state)?;
    write_text(out, "\n")?;
    Ok(())
}
