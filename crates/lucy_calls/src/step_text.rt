//! The text of a step script.

ghost use Rattle.std.specs.Prelude.{◌≡◌, ◌++◌, ◌∷◌, [], OnOk, IfOk, decimal};
ghost use Rattle.lucy_calls.specs.declared.steps.Step.TheVariants.{Deliver};
ghost use Rattle.lucy_calls.specs.Texts.{step_line, step_lines, steps_text};

use crate::steps::Step;
use lucy_io::{write_count, write_text};
use std::alloc::{AllocError, Global};

// A word with its space, and a replica.
fn write_act(out: &mut Vec<u8>, word: &str, replica: u32) -> Result<(), AllocError>
    ensures { OnOk result (out.new.items ≡ out.old.items ++ (word.now ++ decimal replica)) }
{
    write_text(out, word)?;
    write_count(out, u64::from(replica))
}

fn write_delivery(out: &mut Vec<u8>, to: u32, packet: u64) -> Result<(), AllocError>
    ensures { OnOk result (out.new.items ≡ out.old.items ++ step_line (Deliver to packet)) }
{
    write_act(out, "deliver ", to)?;
    write_text(out, " ")?;
    write_count(out, packet)
}

fn write_step(out: &mut Vec<u8>, step: Step) -> Result<(), AllocError>
    ensures { OnOk result (out.new.items ≡ out.old.items ++ step_line step) }
{
    match step {
        Step::Submit(replica) => write_act(out, "submit ", replica),
        Step::Send(replica) => write_act(out, "send ", replica),
        Step::Deliver { to, packet } => write_delivery(out, to, packet),
        Step::Begin(replica) => write_act(out, "begin ", replica),
        Step::Freeze(replica) => write_act(out, "freeze ", replica),
        Step::OpenEpoch => write_text(out, "open"),
        Step::Thaw(replica) => write_act(out, "thaw ", replica),
    }
}

fn write_line(out: &mut Vec<u8>, step: Step) -> Result<(), AllocError>
    ensures { OnOk result (out.new.items ≡ out.old.items ++ (step_line step ++ 10 ∷ [])) }
{
    write_step(out, step)?;
    write_text(out, "\n")
}

fn write_lines(out: &mut Vec<u8>, steps: &[Step]) -> Result<(), AllocError>
    ensures { OnOk result (out.new.items ≡ out.old.items ++ step_lines steps.now) }
{
    for step in steps {
        write_line(out, *step)?;
    }
    Ok(())
}

/// The text of a script with these steps: the line `steps 1`, a line for each step, the line `end`.
#[tactic(auto, unfolding(crate::specs::Texts::steps_text))]
pub fn write_steps(alloc: Global, steps: &[Step]) -> Result<Vec<u8>, AllocError>
    ensures { IfOk result (λ v. v.items ≡ steps_text steps.now) }
{
    let mut out = Vec::new(alloc);
    write_text(&mut out, "steps 1\n")?;
    write_lines(&mut out, steps)?;
    write_text(&mut out, "end\n")?;
    Ok(out)
}
