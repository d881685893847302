//! The certificate of an input, judged for a plan.

ghost use Rattle.std.specs.Prelude.{◌≡◌, ◌≢◌, ℕ, List, Option, None, Ok, Err, IfOk};
ghost use Rattle.std.specs.Arc.{arc_value};
ghost use Rattle.lucy_io.specs.Inputs.{Told};
ghost use Rattle.lucy_reading.specs.Outcomes.{Reads, Tells};
ghost use Rattle.lucy_report.specs.FaultLines as lines;
ghost use Rattle.lucy_stream.specs.Verifying.{verified};
ghost use Rattle.lucy_stream.specs.Verifying as stream;
ghost use Rattle.lucy_top.specs.Commands.{asks_certificate};
ghost use Rattle.lucy_top.specs.Fetching.{Takes, Loads};
ghost use Rattle.lucy_stream.specs.declared.error.StreamError.TheVariants as cause;
ghost use Rattle.lucy_top.specs.Judging.{refusal_in, plan_in, told_as};
ghost use Rattle.lucy_top.specs.Reading as reading;

use crate::fetching::{fetch_input, or_refused};
use crate::said::Stop;
use lucy_io::Inputs;
use lucy_judge::Checked;
use lucy_judge::Refusal::{Missing, Rejected, StartBreaks};
use lucy_plan::Plan;
use lucy_reading::{Refusal, too_long};
use lucy_report::bad_certificate;
use lucy_stream::{StreamError, verify};
use std::alloc::Global;
use std::sync::Arc;

// The most bytes of a certificate.
const MOST_CERTIFICATE: u32 = 1 << 26;

/// What a certificate was found to be for a plan.
#[derive(Drop)]
pub enum Judged {
    /// It is accepted, so the plan is sound.
    Accepted(Arc<Checked>),
    /// It is refused for this plan.
    Refused(Arc<Plan>, lucy_judge::Refusal),
}

// The refusal of a text that is no certificate.
fn refuse_line(alloc: Global, name: &str, line: u64) -> Refusal
    ensures { Tells (lines.bad_certificate name.now line) result }
{
    match bad_certificate(alloc, name, line) {
        Ok(line) => Refusal::Bad(line),
        Err(_) => Refusal::OutOfMemory,
    }
}

// A plan for which a certificate is accepted.
fn accept(alloc: Global, checked: Checked) -> Result<Judged, Refusal>
    ensures read { Reads refusal_in (Ok None) result }
    ensures plan { IfOk result (λ judged. plan_in judged ≡ checked) }
{
    let checked = Arc::new(alloc, checked)?;
    Ok(Judged::Accepted(checked))
}

// An answer of a text that is not accepted, told in its turn: a text that is no certificate is
// refused, and a certificate that is refused is not.
fn tell_error(
    alloc: Global,
    name: &str,
    plan: Arc<Plan>,
    error: StreamError,
) -> Result<Judged, Refusal>
    ensures read { error ≢ cause.OutOfMemory → Reads refusal_in (told_as name.now error) result }
    ensures wanting { error ≡ cause.OutOfMemory → result ≡ Err Refusal.OutOfMemory }
    ensures plan { IfOk result (λ judged. plan_in judged ≡ arc_value plan) }
{
    match error {
        StreamError::TooLong => Err(too_long(alloc, name, MOST_CERTIFICATE)),
        StreamError::BadLine(line) => Err(refuse_line(alloc, name, line)),
        StreamError::StartBreaks => Ok(Judged::Refused(plan, StartBreaks)),
        StreamError::Missing(part) => Ok(Judged::Refused(plan, Missing(part))),
        StreamError::Rejected { part, step, why } => {
            Ok(Judged::Refused(plan, Rejected { part, step, why }))
        }
        StreamError::OutOfMemory => Err(Refusal::OutOfMemory),
    }
}

// What a text is answered, told as that of a certificate which is read in its turn and judged.
fn tell_answer(
    alloc: Global,
    name: &str,
    plan: Arc<Plan>,
    answer: Result<Checked, StreamError>,
) -> Result<Judged, Refusal>
    requires { IfOk answer (λ checked. checked ≡ arc_value plan) }
    ensures read { (text : List ℕ) → stream.Tells (arc_value plan) (verified (arc_value plan) text) answer → Reads refusal_in (reading.judged name.now (arc_value plan) text) result }
    ensures plan { IfOk result (λ judged. plan_in judged ≡ arc_value plan) }
{
    match answer {
        Ok(checked) => accept(alloc, checked),
        Err(error) => tell_error(alloc, name, plan, error),
    }
}

// The certificate of a text, judged: it is fed in pieces of 4,096 bytes.
fn judge_text(alloc: Global, name: &str, plan: &Arc<Plan>, text: &[u8]) -> Result<Judged, Refusal>
    ensures read { Reads refusal_in (reading.judged name.now (arc_value plan.now) text.now) result }
    ensures plan { IfOk result (λ judged. plan_in judged ≡ arc_value plan.now) }
{
    let given = plan.clone()?;
    let kept = plan.clone()?;
    let answer = verify(alloc, given, text);
    tell_answer(alloc, name, kept, answer)
}

fn take_certificate(
    alloc: Global,
    name: &str,
    plan: &Arc<Plan>,
    text: &[u8],
) -> Result<Judged, Stop>
    ensures takes { Takes refusal_in (reading.judged name.now (arc_value plan.now) text.now) result }
    ensures plan { IfOk result (λ judged. plan_in judged ≡ arc_value plan.now) }
{
    let read = judge_text(alloc, name, plan, text);
    or_refused(read)
}

/// A certificate, judged for a plan. A fault of its text ends the command; that it is refused does
/// not.
#[tactic(auto, unfolding(crate::specs::Commands::asks_certificate))]
pub fn load_certificate<I: Inputs>(
    alloc: Global,
    inputs: &mut I,
    name: &str,
    plan: &Arc<Plan>,
) -> Result<Judged, Stop>
    ensures told { I.told inputs.new ≡ I.told inputs.old }
    ensures loads { (told : Option Told) → told ≡ I.told inputs.old
        → Loads refusal_in (asks_certificate name.now (arc_value plan.now)) told (I.journal inputs.old) (I.journal inputs.new) result }
    ensures plan { IfOk result (λ judged. plan_in judged ≡ arc_value plan.now) }
{
    let text = fetch_input(alloc, inputs, name, MOST_CERTIFICATE)?;
    take_certificate(alloc, name, plan, &text)
}
