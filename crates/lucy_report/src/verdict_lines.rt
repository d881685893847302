//! What a certificate is found to be.

ghost use Rattle.std.specs.Prelude.{◌≡◌, ◌++◌, OnOk, codes, decimal};
ghost use Rattle.lucy_report.specs.VerdictLines as spec;

use crate::writing::{write_counted, write_numbered, write_state};
use lucy_cert::{PartName, Why};
use lucy_io::write_text;
use lucy_judge::Refusal;
use lucy_model::State;
use lucy_plan::Plan;
use std::alloc::AllocError;

#[tactic(auto, unfolding(crate::specs::VerdictLines::part_text))]
fn write_part(out: &mut Vec<u8>, part: PartName) -> Result<(), AllocError>
    ensures { OnOk result (out.new.items ≡ out.old.items ++ spec.part_text part) }
{
    match part {
        PartName::Closure(segment) => write_numbered(out, "closure ", segment),
        PartName::Cover => write_text(out, "cover"),
    }
}

fn why_text(why: Why) -> &'static str
    ensures { result.now ≡ spec.why_text why }
{
    match why {
        Why::Unknown => "unknown",
        Why::TooWide => "too wide",
        Why::NoConflict => "no conflict",
        Why::NoEmpty => "no empty clause",
        Why::TooMany => "too many",
    }
}

/// Appends that the certificate is accepted.
#[tactic(auto, unfolding(crate::specs::VerdictLines::accepted))]
pub fn write_accepted(out: &mut Vec<u8>) -> Result<(), AllocError>
    ensures { OnOk result (out.new.items ≡ out.old.items ++ spec.accepted) }
{
    write_text(out, "accepted\n")
}

/// Appends that the start breaks the invariant.
#[tactic(auto, unfolding(crate::specs::VerdictLines::start_breaks))]
pub fn write_start_breaks(out: &mut Vec<u8>, start: &State) -> Result<(), AllocError>
    ensures { OnOk result (out.new.items ≡ out.old.items ++ spec.start_breaks start.now) }
{
    write_text(out, "start breaks ")?;
    write_state(out, start.as_slice())?;
    write_text(out, "\n")?;
    Ok(())
}

// Appends that a part which is needed is missing.
#[tactic(auto, unfolding(crate::specs::VerdictLines::missing))]
fn write_missing(out: &mut Vec<u8>, part: PartName) -> Result<(), AllocError>
    ensures { OnOk result (out.new.items ≡ out.old.items ++ spec.missing part) }
{
    write_text(out, "missing ")?;
    write_part(out, part)?;
    write_text(out, "\n")?;
    Ok(())
}

// A step, and why it is not justified.
fn write_step_fault(out: &mut Vec<u8>, step: u64, why: Why) -> Result<(), AllocError>
    ensures { OnOk result (out.new.items ≡ out.old.items ++ codes " step " ++ decimal step ++ codes " " ++ spec.why_text why ++ codes "\n") }
{
    write_counted(out, " step ", step)?;
    write_text(out, " ")?;
    write_text(out, why_text(why))?;
    write_text(out, "\n")?;
    Ok(())
}

// Appends that a part is rejected: its first step that is not justified, and why.
#[tactic(auto, unfolding(crate::specs::VerdictLines::rejected))]
fn write_rejected(out: &mut Vec<u8>, part: PartName, step: u64, why: Why) -> Result<(), AllocError>
    ensures { OnOk result (out.new.items ≡ out.old.items ++ spec.rejected part step why) }
{
    write_text(out, "rejected ")?;
    write_part(out, part)?;
    write_step_fault(out, step, why)?;
    Ok(())
}

/// Appends why a certificate is refused for a plan.
pub fn write_refusal(out: &mut Vec<u8>, plan: &Plan, refusal: Refusal) -> Result<(), AllocError>
    ensures { OnOk result (out.new.items ≡ out.old.items ++ spec.refusal_text plan.now refusal) }
{
    match refusal {
        Refusal::StartBreaks => write_start_breaks(out, &plan.parts().start),
        Refusal::Missing(part) => write_missing(out, part),
        Refusal::Rejected { part, step, why } => write_rejected(out, part, step, why),
        Refusal::OutOfMemory => Err(AllocError),
    }
}
