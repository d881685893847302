//! What work texts and step scripts say.

ghost use Rattle.std.specs.Prelude.{◌≡◌, All, IfOk};
ghost use Rattle.lucy_calls.specs.Laws.{IsStepOf, IsWorkOf};
ghost use Rattle.lucy_names.specs.Plans.{AreNamesOf};
ghost use Rattle.lucy_reading.specs.Calls.{work_read, steps_read};
ghost use Rattle.lucy_reading.specs.Outcomes.{Reads};

use crate::faults::refuse_calls;
use crate::refusal::Refusal;
use lucy_calls::{Step, Work, steps_name_replicas, work_fits};
use lucy_names::Names;
use lucy_plan::Plan;
use std::alloc::Global;

/// The calls of a work text for a plan. The names are those of the plan.
///
/// # Errors
///
/// `Bad` with the line of the first fault, where the text has one; `OutOfMemory`.
#[tactic(auto, unfolding(crate::specs::Calls::work_read))]
pub fn read_work(
    alloc: Global,
    name: &str,
    plan: &Plan,
    names: &Names,
    text: &[u8],
) -> Result<Work, Refusal>
    requires { AreNamesOf plan.now names.now }
    ensures read { Reads (λ w. w.lists) (work_read name.now plan.now text.now) result }
    ensures fits { IfOk result (λ w. IsWorkOf plan.now w.lists) }
{
    work_fits();
    match lucy_calls::read_work(alloc, plan, names, text) {
        Ok(work) => Ok(work),
        Err(fault) => Err(refuse_calls(alloc, "work", name, fault)),
    }
}

/// The steps of a script for so many replicas.
///
/// # Errors
///
/// `Bad` with the line of the first fault, where the script has one; `OutOfMemory`.
#[tactic(auto, unfolding(crate::specs::Calls::steps_read))]
pub fn read_steps(
    alloc: Global,
    name: &str,
    replicas: u32,
    text: &[u8],
) -> Result<Vec<Step>, Refusal>
    ensures read { Reads (λ v. v.items) (steps_read name.now replicas text.now) result }
    ensures within { IfOk result (λ v. All (IsStepOf replicas) v.items) }
{
    steps_name_replicas();
    match lucy_calls::read_steps(alloc, replicas, text) {
        Ok(steps) => Ok(steps),
        Err(fault) => Err(refuse_calls(alloc, "steps", name, fault)),
    }
}
