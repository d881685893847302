//! `verify`.

ghost use Rattle.std.specs.Prelude.{◌≡◌, Option, IfOk};
ghost use Rattle.std.specs.Arc.{arc_value};
ghost use Rattle.lucy_io.specs.Inputs.{Told};
ghost use Rattle.lucy_top.specs.Commands.{verify_script};
ghost use Rattle.lucy_top.specs.Ends.{Follows};
ghost use Rattle.lucy_top.specs.Judging.{plan_in, refusal_in};
ghost use Rattle.lucy_top.specs.Verdicts.{Says, verifies, IsAccepted, IsRefused};

use crate::fetching::conclude;
use crate::judging::{Judged, load_certificate};
use crate::loading::load_plan;
use crate::said::{Said, Stop};
use lucy_io::Inputs;
use lucy_judge::{Checked, Refusal};
use lucy_plan::Plan;
use lucy_report::{write_accepted, write_refusal};
use std::alloc::{AllocError, Global};

/// That a certificate is refused.
pub fn say_refusal(alloc: Global, plan: &Plan, refusal: Refusal) -> Result<Said, AllocError>
    ensures { IfOk result (λ s. IsRefused plan.now refusal s.status s.text.items) }
{
    let mut text = Vec::new(alloc);
    write_refusal(&mut text, plan, refusal)?;
    Ok(Said { status: 1, text })
}

// That a certificate is accepted.
fn say_accepted(alloc: Global, checked: &Checked) -> Result<Said, AllocError>
    ensures { IfOk result (λ s. IsAccepted checked.now s.status s.text.items) }
{
    let _plan = checked.plan();
    let mut text = Vec::new(alloc);
    write_accepted(&mut text)?;
    Ok(Said { status: 0, text })
}

fn say_judged(alloc: Global, judged: &Judged) -> Result<Said, AllocError>
    ensures { IfOk result (λ s. Says (verifies (plan_in judged.now) (refusal_in judged.now)) s.status s.text.items) }
{
    match judged {
        Judged::Accepted(checked) => say_accepted(alloc, checked),
        Judged::Refused(plan, refusal) => say_refusal(alloc, plan, *refusal),
    }
}

/// `verify PLAN CERT`: that the certificate is accepted, or why it is refused.
#[tactic(auto, unfolding(crate::specs::Commands::verify_script))]
pub fn verify<I: Inputs>(
    alloc: Global,
    inputs: &mut I,
    plan_name: &str,
    certificate_name: &str,
) -> Result<Said, Stop>
    ensures told { I.told inputs.new ≡ I.told inputs.old }
    ensures follows { (told : Option Told) → told ≡ I.told inputs.old → Follows (verify_script plan_name.now certificate_name.now) told (I.journal inputs.old) (I.journal inputs.new) result }
{
    let (plan, _names) = load_plan(alloc, inputs, plan_name)?;
    let judged = load_certificate(alloc, inputs, certificate_name, &plan)?;
    conclude(say_judged(alloc, &judged))
}
