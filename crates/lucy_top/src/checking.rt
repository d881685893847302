//! `check` and `certify`.

ghost use Rattle.std.specs.Prelude.{◌≡◌, true, false, if◌then◌else◌, Option, IfOk};
ghost use Rattle.lucy_io.specs.Inputs.{Told};
ghost use Rattle.lucy_findings.specs.Findings.{AreFindings, is_sound};
ghost use Rattle.lucy_top.specs.Commands.{check_script, certify_script};
ghost use Rattle.lucy_top.specs.Ends.{Follows};
ghost use Rattle.lucy_top.specs.Verdicts.{Says, finds, certifies, AreTold, IsCertified, IsUnsound};

use crate::fetching::conclude;
use crate::loading::load_plan;
use crate::said::{Said, Stop};
use lucy_findings::{Findings, certificate, examine, is_sound, sound_is_sound};
use lucy_io::Inputs;
use lucy_plan::Plan;
use lucy_report::findings_text;
use std::alloc::{AllocError, Global};

fn status_by(sound: bool) -> u8
    ensures { result ≡ (if sound then 0 else 1) }
{
    if sound { 0 } else { 1 }
}

/// Findings of a plan, told with the status 0 exactly where the plan is sound.
pub fn tell(alloc: Global, plan: &Plan, findings: &Findings) -> Result<Said, AllocError>
    requires { AreFindings plan.now findings.now }
    ensures { IfOk result (λ s. AreTold plan.now s.status s.text.items) }
{
    sound_is_sound();
    let _parts = plan.parts();
    let text = findings_text(alloc, plan, findings)?;
    let status = status_by(is_sound(findings));
    Ok(Said { status, text })
}

fn say_findings(alloc: Global, plan: &Plan) -> Result<Said, AllocError>
    ensures { IfOk result (λ s. Says (finds plan.now) s.status s.text.items) }
{
    let findings = examine(alloc, plan)?;
    tell(alloc, plan, &findings)
}

// The certificate of findings, as it is written.
fn say_certified(alloc: Global, plan: &Plan, findings: &Findings) -> Result<Said, AllocError>
    requires findings { AreFindings plan.now findings.now }
    requires sound { is_sound findings.now ≡ true }
    ensures { IfOk result (λ s. IsCertified plan.now s.status s.text.items) }
{
    sound_is_sound();
    let _parts = plan.parts();
    let certificate = certificate(alloc, plan, findings)?;
    let text = lucy_cert::write(alloc, &certificate)?;
    Ok(Said { status: 0, text })
}

/// Findings of a plan that is found not to be sound.
pub fn tell_unsound(alloc: Global, plan: &Plan, findings: &Findings) -> Result<Said, AllocError>
    requires findings { AreFindings plan.now findings.now }
    requires unsound { is_sound findings.now ≡ false }
    ensures { IfOk result (λ s. IsUnsound plan.now s.status s.text.items) }
{
    sound_is_sound();
    let _parts = plan.parts();
    tell(alloc, plan, findings)
}

fn say_certificate(alloc: Global, plan: &Plan) -> Result<Said, AllocError>
    ensures { IfOk result (λ s. Says (certifies plan.now) s.status s.text.items) }
{
    let findings = examine(alloc, plan)?;
    if is_sound(&findings) {
        say_certified(alloc, plan, &findings)
    } else {
        tell_unsound(alloc, plan, &findings)
    }
}

/// `check PLAN`: what the plan is found to be.
#[tactic(auto, unfolding(crate::specs::Commands::check_script))]
pub fn check<I: Inputs>(alloc: Global, inputs: &mut I, plan_name: &str) -> Result<Said, Stop>
    ensures told { I.told inputs.new ≡ I.told inputs.old }
    ensures follows { (told : Option Told) → told ≡ I.told inputs.old → Follows (check_script plan_name.now) told (I.journal inputs.old) (I.journal inputs.new) result }
{
    let (plan, _names) = load_plan(alloc, inputs, plan_name)?;
    conclude(say_findings(alloc, &plan))
}

/// `certify PLAN`: a certificate of the plan, or what the plan is found to be where it is not sound.
#[tactic(auto, unfolding(crate::specs::Commands::certify_script))]
pub fn certify<I: Inputs>(alloc: Global, inputs: &mut I, plan_name: &str) -> Result<Said, Stop>
    ensures told { I.told inputs.new ≡ I.told inputs.old }
    ensures follows { (told : Option Told) → told ≡ I.told inputs.old → Follows (certify_script plan_name.now) told (I.journal inputs.old) (I.journal inputs.new) result }
{
    let (plan, _names) = load_plan(alloc, inputs, plan_name)?;
    conclude(say_certificate(alloc, &plan))
}
