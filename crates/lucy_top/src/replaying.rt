//! `replay`.

ghost use Rattle.std.specs.Prelude.{◌≡◌, length, Option, All, IfOk, true};
ghost use Rattle.std.specs.Arc.{arc_value};
ghost use Rattle.lucy_calls.specs.Laws.{IsStepOf};
ghost use Rattle.lucy_core.specs.Worlds.{IsWorkOf};
ghost use Rattle.lucy_findings.specs.Findings.{AreFindings, is_sound};
ghost use Rattle.lucy_io.specs.Inputs.{Told};
ghost use Rattle.lucy_names.specs.Plans.{AreNamesOf};
ghost use Rattle.lucy_top.specs.Commands.{replay_script, replay_made_script};
ghost use Rattle.lucy_top.specs.Ends.{Follows};
ghost use Rattle.lucy_top.specs.Judging.{plan_in, refusal_in};
ghost use Rattle.lucy_top.specs.Verdicts.{Says, replays, replays_if_sound, IsReplayed};

use crate::checking::tell_unsound;
use crate::fetching::conclude;
use crate::judging::{Judged, load_certificate};
use crate::loading::{load_plan, load_steps, load_work};
use crate::running::replay_steps;
use crate::said::{Said, Stop};
use crate::verifying::say_refusal;
use lucy_calls::{Step, Work};
use lucy_core::{opening_is_safe, runs_keep_safe};
use lucy_findings::{Findings, certificate, examine, is_sound};
use lucy_io::Inputs;
use lucy_judge::{Checked, judge};
use lucy_names::Names;
use lucy_plan::Plan;
use std::alloc::{AllocError, Global};
use std::sync::Arc;

// A replay of a plan that is sound.
fn say_replay(
    alloc: Global,
    checked: Arc<Checked>,
    names: &Names,
    work: &Work,
    steps: &[Step],
) -> Result<Said, AllocError>
    requires names { AreNamesOf (arc_value checked) names.now }
    requires work { IsWorkOf (arc_value checked) work.now.lists }
    requires steps { All (IsStepOf (length work.now.lists)) steps.now }
    ensures { IfOk result (λ s. IsReplayed (arc_value checked) work.now.lists steps.now s.status s.text.items) }
{
    opening_is_safe();
    runs_keep_safe();
    let _plan = checked.plan();
    let text = replay_steps(alloc, checked, names, work, steps)?;
    Ok(Said { status: 0, text })
}

fn say_judged_replay(
    alloc: Global,
    judged: Judged,
    names: &Names,
    work: &Work,
    steps: &[Step],
) -> Result<Said, AllocError>
    requires names { AreNamesOf (plan_in judged) names.now }
    requires work { IsWorkOf (plan_in judged) work.now.lists }
    requires steps { All (IsStepOf (length work.now.lists)) steps.now }
    ensures { IfOk result (λ s. Says (replays (plan_in judged) (refusal_in judged) work.now.lists steps.now) s.status s.text.items) }
{
    match judged {
        Judged::Accepted(checked) => say_replay(alloc, checked, names, work, steps),
        Judged::Refused(plan, refusal) => say_refusal(alloc, &plan, refusal),
    }
}

/// The plan of sound findings, judged by the certificate that they give. It is accepted, so only
/// memory can be wanting.
pub fn judge_made(
    alloc: Global,
    plan: &Arc<Plan>,
    findings: &Findings,
) -> Result<Arc<Checked>, AllocError>
    requires findings { AreFindings (arc_value plan.now) findings.now }
    requires sound { is_sound findings.now ≡ true }
    ensures { IfOk result (λ checked. arc_value checked ≡ arc_value plan.now) }
{
    let certificate = certificate(alloc, plan, findings)?;
    let plan = plan.clone()?;
    match judge(alloc, plan, &certificate) {
        Ok(checked) => {
            let checked = Arc::new(alloc, checked)?;
            Ok(checked)
        }
        Err(_) => Err(AllocError),
    }
}

fn say_made_replay(
    alloc: Global,
    plan: &Arc<Plan>,
    names: &Names,
    work: &Work,
    steps: &[Step],
) -> Result<Said, AllocError>
    requires names { AreNamesOf (arc_value plan.now) names.now }
    requires work { IsWorkOf (arc_value plan.now) work.now.lists }
    requires steps { All (IsStepOf (length work.now.lists)) steps.now }
    ensures { IfOk result (λ s. Says (replays_if_sound (arc_value plan.now) work.now.lists steps.now) s.status s.text.items) }
{
    let findings = examine(alloc, plan)?;
    if is_sound(&findings) {
        let checked = judge_made(alloc, plan, &findings)?;
        say_replay(alloc, checked, names, work, steps)
    } else {
        tell_unsound(alloc, plan, &findings)
    }
}

/// `replay PLAN CERT WORK STEPS`: the line of each step, and the world after them; or why the
/// certificate is refused, once all inputs are read.
#[tactic(auto, unfolding(crate::specs::Commands::replay_script))]
pub fn replay<I: Inputs>(
    alloc: Global,
    inputs: &mut I,
    plan_name: &str,
    certificate_name: &str,
    work_name: &str,
    steps_name: &str,
) -> Result<Said, Stop>
    ensures told { I.told inputs.new ≡ I.told inputs.old }
    ensures follows { (told : Option Told) → told ≡ I.told inputs.old
        → Follows (replay_script plan_name.now certificate_name.now work_name.now steps_name.now) told (I.journal inputs.old) (I.journal inputs.new) result }
{
    let (plan, names) = load_plan(alloc, inputs, plan_name)?;
    let judged = load_certificate(alloc, inputs, certificate_name, &plan)?;
    let work = load_work(alloc, inputs, work_name, &plan, &names)?;
    let steps = load_steps(alloc, inputs, steps_name, work.lists.len() as u32)?;
    conclude(say_judged_replay(alloc, judged, &names, &work, &steps))
}

/// `replay PLAN - WORK STEPS`: the line of each step, and the world after them; or what the plan is
/// found to be where it is not sound, once all inputs are read.
#[tactic(auto, unfolding(crate::specs::Commands::replay_made_script))]
pub fn replay_made<I: Inputs>(
    alloc: Global,
    inputs: &mut I,
    plan_name: &str,
    work_name: &str,
    steps_name: &str,
) -> Result<Said, Stop>
    ensures told { I.told inputs.new ≡ I.told inputs.old }
    ensures follows { (told : Option Told) → told ≡ I.told inputs.old
        → Follows (replay_made_script plan_name.now work_name.now steps_name.now) told (I.journal inputs.old) (I.journal inputs.new) result }
{
    let (plan, names) = load_plan(alloc, inputs, plan_name)?;
    let work = load_work(alloc, inputs, work_name, &plan, &names)?;
    let steps = load_steps(alloc, inputs, steps_name, work.lists.len() as u32)?;
    conclude(say_made_replay(alloc, &plan, &names, &work, &steps))
}
