//! What is answered where all parts of a certificate are over.

ghost use Rattle.std.specs.Prelude.{◌≡◌, None};
ghost use Rattle.std.specs.Arc.{arc_value};
ghost use Rattle.lucy_plan.specs.Plans.{IsPlan};
ghost use Rattle.lucy_judge.specs.Judging.{answer_of};
ghost use Rattle.lucy_judge.specs.Keeping.{IsTrial};
ghost use Rattle.lucy_judge.specs.Trials.{refusal_at_end};

use crate::checked::Checked;
use crate::refusal::Refusal;
use crate::trial::{Trial, refusal_at_end};
use lucy_cert::refutes_exactly;
use lucy_checker::{checkers_are_exact, refuted_has_no_model};
use lucy_closure::{escape_is_closure_model, uncovered_is_cover_model};
use lucy_plan::Plan;
use std::sync::Arc;

fn is_plan(plan: &Plan)
    ensures { IsPlan plan.now }
{
    let _parts = plan.parts();
}

// A plan of which nothing is refused is sound.
fn checked(plan: Arc<Plan>, trial: &Trial) -> Checked
    requires kept { IsTrial (arc_value plan) trial.now }
    requires accepted { refusal_at_end trial.now ≡ None }
    ensures { result ≡ arc_value plan }
{
    refutes_exactly();
    checkers_are_exact();
    refuted_has_no_model();
    escape_is_closure_model();
    uncovered_is_cover_model();
    is_plan(&plan);
    Checked::of(plan)
}

/// The plan as a checked one, or the first refusal.
pub(crate) fn answered(plan: Arc<Plan>, trial: &Trial) -> Result<Checked, Refusal>
    requires { IsTrial (arc_value plan) trial.now }
    ensures { result ≡ answer_of (arc_value plan) (refusal_at_end trial.now) }
{
    match refusal_at_end(trial) {
        Some(refusal) => Err(refusal),
        None => Ok(checked(plan, trial)),
    }
}
