//! A whole certificate.

ghost use Rattle.std.specs.Prelude.{◌≡◌, fold, IfOk};
ghost use Rattle.std.specs.Arc.{arc_value};
ghost use Rattle.lucy_plan.specs.declared.parts.PlanParts.{PlanParts};
ghost use Rattle.lucy_judge.specs.Judging.{Judges, refusal_of};
ghost use Rattle.lucy_judge.specs.Keeping.{IsTrial};
ghost use Rattle.lucy_judge.specs.Trials as spec;

use crate::answering::answered;
use crate::checked::Checked;
use crate::laws::judged_in_parts;
use crate::refusal::Refusal;
use crate::trial::{Trial, opening, part_taken, step_taken};
use lucy_cert::{Certificate, PartName, Proof, ProofStep};
use lucy_plan::Plan;
use std::alloc::{AllocError, Global};
use std::sync::Arc;

fn steps_taken(alloc: Global, trial: Trial, steps: &[ProofStep]) -> Result<Trial, AllocError>
    ensures value { IfOk result (λ next. next ≡ fold spec.step_taken trial steps.now) }
    ensures kept { (plan : PlanParts) → IsTrial plan trial → IfOk result (λ next. IsTrial plan next) }
{
    let mut trial = trial;
    for step in steps {
        trial = step_taken(alloc, trial, step)?;
    }
    Ok(trial)
}

fn whole_part_taken(
    alloc: Global,
    plan: &Plan,
    live: Option<u64>,
    trial: &Trial,
    part: &(PartName, Proof),
) -> Result<Trial, AllocError>
    requires { IsTrial plan.now trial.now }
    ensures value { IfOk result (λ next. next ≡ spec.whole_part_taken plan.now live trial.now part.now) }
    ensures kept { IfOk result (λ next. IsTrial plan.now next) }
{
    let begun = part_taken(alloc, plan, live, trial, part.0)?;
    steps_taken(alloc, begun, part.1.steps.as_slice())
}

fn parts_taken(
    alloc: Global,
    plan: &Plan,
    live: Option<u64>,
    trial: Trial,
    parts: &[(PartName, Proof)],
) -> Result<Trial, AllocError>
    requires { IsTrial plan.now trial }
    ensures value { IfOk result (λ next. next ≡ fold (spec.whole_part_taken plan.now live) trial parts.now) }
    ensures kept { IfOk result (λ next. IsTrial plan.now next) }
{
    let mut trial = trial;
    for part in parts {
        trial = whole_part_taken(alloc, plan, live, &trial, part)?;
    }
    Ok(trial)
}

// What the parts of a certificate come to.
fn trial_of(alloc: Global, plan: &Plan, certificate: &Certificate) -> Result<Trial, AllocError>
    ensures value { IfOk result (λ trial. trial ≡ spec.trial_of plan.now certificate.now.live certificate.now.parts) }
    ensures kept { IfOk result (λ trial. IsTrial plan.now trial) }
{
    let trial = opening(alloc, plan)?;
    parts_taken(
        alloc,
        plan,
        certificate.live,
        trial,
        certificate.parts.as_slice(),
    )
}

/// The plan as a checked one, where the certificate is not refused. The needed parts are the closure of each segment
/// with a transaction, ascending, then the cover. `StartBreaks` exactly where the start breaks the invariant; else the
/// first needed part, in order, that is missing, or whose proof does not refute its formula with the certificate's
/// number of live clauses. Parts that are not needed are not read.
pub fn judge(alloc: Global, plan: Arc<Plan>, certificate: &Certificate) -> Result<Checked, Refusal>
    ensures { Judges (arc_value plan) (refusal_of (arc_value plan) certificate.now) result }
{
    judged_in_parts();
    certificate.facts();
    let trial = trial_of(alloc, &plan, certificate)?;
    answered(plan, &trial)
}
