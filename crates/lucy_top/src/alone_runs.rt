//! `run`, worked by one thread alone.

ghost use Rattle.std.specs.Prelude.{◌≡◌, Option, Some, None, false, IfOk, IfSome};
ghost use Rattle.std.specs.Arc.{arc_value};
ghost use Rattle.lucy_core.specs.Worlds.{IsWorkOf};
ghost use Rattle.lucy_io.specs.Inputs.{Told};
ghost use Rattle.lucy_names.specs.Plans.{AreNamesOf};
ghost use Rattle.lucy_top.specs.Commands.{run_script, run_made_script};
ghost use Rattle.lucy_top.specs.Ends.{Follows};
ghost use Rattle.lucy_top.specs.Judging.{plan_in, refusal_in};
ghost use Rattle.lucy_top.specs.Outcomes.{Choice, Suits, HasRun};
ghost use Rattle.lucy_top.specs.Verdicts.{Says, runs, runs_if_sound};

use crate::checking::tell_unsound;
use crate::fetching::conclude;
use crate::judging::{Judged, load_certificate};
use crate::loading::{load_plan, load_work};
use crate::replaying::judge_made;
use crate::said::{Said, Stop};
use crate::verifying::say_refusal;
use lucy_calls::Work;
use lucy_core::{Outcome, alone};
use lucy_findings::{examine, is_sound};
use lucy_io::Inputs;
use lucy_judge::Checked;
use lucy_names::Names;
use lucy_plan::Plan;
use lucy_report::outcome_text;
use std::alloc::{AllocError, Global};
use std::sync::Arc;

// What one thread alone comes to under a plan that is sound. The outcome is kept.
fn say_alone(
    alloc: Global,
    checked: Arc<Checked>,
    names: &Names,
    work: &Work,
    slot: &mut Option<Outcome>,
) -> Result<Said, AllocError>
    requires empty { slot.old ≡ None }
    requires names { AreNamesOf (arc_value checked) names.now }
    requires work { IsWorkOf (arc_value checked) work.now.lists }
    ensures says { (choice : Choice) → Suits choice slot.new → IfOk result (λ s. HasRun choice (arc_value checked) work.now.lists s.status s.text.items) }
    ensures no_threads { IfSome slot.new (λ outcome. outcome.threads ≡ false) }
{
    let _plan = checked.plan();
    let outcome = alone(alloc, checked, work)?;
    let text = outcome_text(alloc, names, &outcome)?;
    *slot = Some(outcome);
    Ok(Said { status: 0, text })
}

fn say_judged_alone(
    alloc: Global,
    judged: Judged,
    names: &Names,
    work: &Work,
    slot: &mut Option<Outcome>,
) -> Result<Said, AllocError>
    requires empty { slot.old ≡ None }
    requires names { AreNamesOf (plan_in judged) names.now }
    requires work { IsWorkOf (plan_in judged) work.now.lists }
    ensures says { (choice : Choice) → Suits choice slot.new → IfOk result (λ s. Says (runs choice (plan_in judged) (refusal_in judged) work.now.lists) s.status s.text.items) }
    ensures no_threads { IfSome slot.new (λ outcome. outcome.threads ≡ false) }
{
    match judged {
        Judged::Accepted(checked) => say_alone(alloc, checked, names, work, slot),
        Judged::Refused(plan, refusal) => say_refusal(alloc, &plan, refusal),
    }
}

fn say_made_alone(
    alloc: Global,
    plan: &Arc<Plan>,
    names: &Names,
    work: &Work,
    slot: &mut Option<Outcome>,
) -> Result<Said, AllocError>
    requires empty { slot.old ≡ None }
    requires names { AreNamesOf (arc_value plan.now) names.now }
    requires work { IsWorkOf (arc_value plan.now) work.now.lists }
    ensures says { (choice : Choice) → Suits choice slot.new → IfOk result (λ s. Says (runs_if_sound choice (arc_value plan.now) work.now.lists) s.status s.text.items) }
    ensures no_threads { IfSome slot.new (λ outcome. outcome.threads ≡ false) }
{
    let findings = examine(alloc, plan)?;
    if is_sound(&findings) {
        let checked = judge_made(alloc, plan, &findings)?;
        say_alone(alloc, checked, names, work, slot)
    } else {
        tell_unsound(alloc, plan, &findings)
    }
}

/// `run PLAN CERT WORK SEED`, worked by one thread alone: its outcome, which is kept; or why the
/// certificate is refused, once all inputs are read.
#[tactic(auto, unfolding(crate::specs::Commands::run_script))]
pub fn run_alone<I: Inputs>(
    alloc: Global,
    inputs: &mut I,
    plan_name: &str,
    certificate_name: &str,
    work_name: &str,
    slot: &mut Option<Outcome>,
) -> Result<Said, Stop>
    requires { slot.old ≡ None }
    ensures told { I.told inputs.new ≡ I.told inputs.old }
    ensures follows { (told : Option Told) (choice : Choice) → told ≡ I.told inputs.old → Suits choice slot.new
        → Follows (run_script choice plan_name.now certificate_name.now work_name.now) told (I.journal inputs.old) (I.journal inputs.new) result }
    ensures no_threads { IfSome slot.new (λ outcome. outcome.threads ≡ false) }
{
    let (plan, names) = load_plan(alloc, inputs, plan_name)?;
    let judged = load_certificate(alloc, inputs, certificate_name, &plan)?;
    let work = load_work(alloc, inputs, work_name, &plan, &names)?;
    conclude(say_judged_alone(alloc, judged, &names, &work, slot))
}

/// `run PLAN - WORK SEED`, worked by one thread alone: its outcome, which is kept; or what the plan is
/// found to be where it is not sound, once all inputs are read.
#[tactic(auto, unfolding(crate::specs::Commands::run_made_script))]
pub fn run_made_alone<I: Inputs>(
    alloc: Global,
    inputs: &mut I,
    plan_name: &str,
    work_name: &str,
    slot: &mut Option<Outcome>,
) -> Result<Said, Stop>
    requires { slot.old ≡ None }
    ensures told { I.told inputs.new ≡ I.told inputs.old }
    ensures follows { (told : Option Told) (choice : Choice) → told ≡ I.told inputs.old → Suits choice slot.new
        → Follows (run_made_script choice plan_name.now work_name.now) told (I.journal inputs.old) (I.journal inputs.new) result }
    ensures no_threads { IfSome slot.new (λ outcome. outcome.threads ≡ false) }
{
    let (plan, names) = load_plan(alloc, inputs, plan_name)?;
    let work = load_work(alloc, inputs, work_name, &plan, &names)?;
    conclude(say_made_alone(alloc, &plan, &names, &work, slot))
}
