//! Each kind of input, fetched and read.

ghost use Rattle.std.specs.Prelude.{◌≡◌, length, Option, All, IfOk, Ok};
ghost use Rattle.std.specs.Arc.{arc_value};
ghost use Rattle.lucy_calls.specs.Laws.{IsStepOf};
ghost use Rattle.lucy_core.specs.Worlds.{IsWorkOf};
ghost use Rattle.lucy_io.specs.Inputs.{Told};
ghost use Rattle.lucy_names.specs.Plans.{AreNamesOf};
ghost use Rattle.lucy_reading.specs.Calls.{work_read, steps_read};
ghost use Rattle.lucy_reading.specs.Outcomes.{Reads};
ghost use Rattle.lucy_top.specs.Commands.{asks_plan, asks_certificate, asks_work, asks_steps};
ghost use Rattle.lucy_top.specs.Fetching.{Takes, Loads, PlanIsGiven};
ghost use Rattle.lucy_top.specs.Judging.{refusal_in, plan_in};
ghost use Rattle.lucy_top.specs.Reading.{plan_said, judged};

use crate::fetching::{fetch_input, or_refused};
use crate::said::Stop;
use lucy_calls::{Step, Work};
use lucy_io::Inputs;
use lucy_names::Names;
use lucy_plan::Plan;
use lucy_reading::{Refusal, read_plan, read_steps, read_work};
use std::alloc::Global;
use std::sync::Arc;

// The most bytes of a plan and of a step script.
const MOST_TEXT: u32 = 1 << 20;

// The most bytes of a work text.
const MOST_WORK: u32 = 1 << 25;

// The plan of a text, and its names.
#[tactic(auto, unfolding(crate::specs::Reading::plan_said))]
fn read_shared(alloc: Global, name: &str, text: &[u8]) -> Result<(Arc<Plan>, Names), Refusal>
    ensures read { Reads (λ found. arc_value found.0) (plan_said name.now text.now) result }
    ensures names { IfOk result (λ found. AreNamesOf (arc_value found.0) found.1) }
{
    let (plan, names) = read_plan(alloc, name, text)?;
    let plan = Arc::new(alloc, plan)?;
    Ok((plan, names))
}

/// The plan of a text and its names, or the end of the command where the text is refused.
pub fn take_plan(alloc: Global, name: &str, text: &[u8]) -> Result<(Arc<Plan>, Names), Stop>
    ensures takes { Takes (λ found. arc_value found.0) (plan_said name.now text.now) result }
    ensures said { IfOk result (λ found. plan_said name.now text.now ≡ Ok (arc_value found.0)) }
    ensures names { IfOk result (λ found. AreNamesOf (arc_value found.0) found.1) }
{
    let read = read_shared(alloc, name, text);
    or_refused(read)
}

fn take_work(
    alloc: Global,
    name: &str,
    plan: &Plan,
    names: &Names,
    text: &[u8],
) -> Result<Work, Stop>
    requires { AreNamesOf plan.now names.now }
    ensures takes { Takes (λ w. w.lists) (work_read name.now plan.now text.now) result }
    ensures fits { IfOk result (λ w. IsWorkOf plan.now w.lists) }
{
    let read = read_work(alloc, name, plan, names, text);
    or_refused(read)
}

fn take_steps(alloc: Global, name: &str, replicas: u32, text: &[u8]) -> Result<Vec<Step>, Stop>
    ensures takes { Takes (λ v. v.items) (steps_read name.now replicas text.now) result }
    ensures within { IfOk result (λ v. All (IsStepOf replicas) v.items) }
{
    let read = read_steps(alloc, name, replicas, text);
    or_refused(read)
}

/// A plan and its names.
#[tactic(auto, unfolding(crate::specs::Commands::asks_plan))]
pub fn load_plan<I: Inputs>(
    alloc: Global,
    inputs: &mut I,
    name: &str,
) -> Result<(Arc<Plan>, Names), Stop>
    ensures told { I.told inputs.new ≡ I.told inputs.old }
    ensures loads { (told : Option Told) → told ≡ I.told inputs.old → Loads (λ found. arc_value found.0) (asks_plan name.now) told (I.journal inputs.old) (I.journal inputs.new) result }
    ensures given { (told : Option Told) → told ≡ I.told inputs.old → IfOk result (λ found. PlanIsGiven told name.now (arc_value found.0) (I.journal inputs.old) (I.journal inputs.new)) }
    ensures names { IfOk result (λ found. AreNamesOf (arc_value found.0) found.1) }
{
    let text = fetch_input(alloc, inputs, name, MOST_TEXT)?;
    take_plan(alloc, name, &text)
}

/// The work of a plan.
#[tactic(auto, unfolding(crate::specs::Commands::asks_work))]
pub fn load_work<I: Inputs>(
    alloc: Global,
    inputs: &mut I,
    name: &str,
    plan: &Plan,
    names: &Names,
) -> Result<Work, Stop>
    requires { AreNamesOf plan.now names.now }
    ensures told { I.told inputs.new ≡ I.told inputs.old }
    ensures loads { (told : Option Told) → told ≡ I.told inputs.old → Loads (λ w. w.lists) (asks_work name.now plan.now) told (I.journal inputs.old) (I.journal inputs.new) result }
    ensures fits { IfOk result (λ w. IsWorkOf plan.now w.lists) }
{
    let text = fetch_input(alloc, inputs, name, MOST_WORK)?;
    take_work(alloc, name, plan, names, &text)
}

/// The steps of a script for so many replicas.
#[tactic(auto, unfolding(crate::specs::Commands::asks_steps))]
pub fn load_steps<I: Inputs>(
    alloc: Global,
    inputs: &mut I,
    name: &str,
    replicas: u32,
) -> Result<Vec<Step>, Stop>
    ensures told { I.told inputs.new ≡ I.told inputs.old }
    ensures loads { (told : Option Told) → told ≡ I.told inputs.old → Loads (λ v. v.items) (asks_steps name.now replicas) told (I.journal inputs.old) (I.journal inputs.new) result }
    ensures within { IfOk result (λ v. All (IsStepOf replicas) v.items) }
{
    let text = fetch_input(alloc, inputs, name, MOST_TEXT)?;
    take_steps(alloc, name, replicas, &text)
}
