//! `help`, `make-plan`, `make-work` and `make-steps`.

ghost use Rattle.std.specs.Prelude.{◌≡◌, ◌≤◌, List, ℕ, Option, IfOk, length};
ghost use Rattle.lucy_calls.specs.Texts.{work_text, steps_text};
ghost use Rattle.lucy_io.specs.Inputs.{Entry, Told};
ghost use Rattle.lucy_make.specs.Plans.{made_plan};
ghost use Rattle.lucy_make.specs.Steps.{made_steps};
ghost use Rattle.lucy_make.specs.Work.{made_work};
ghost use Rattle.lucy_names.specs.Plans.{AreNamesOf, txn_names};
ghost use Rattle.lucy_top.specs.Commands.{help_script, make_plan_script, make_work_script, make_steps_script};
ghost use Rattle.lucy_top.specs.Ends.{Follows};
ghost use Rattle.lucy_top.specs.Verdicts.{Says, exactly, answered};

use crate::fetching::conclude;
use crate::loading::{load_plan, load_work};
use crate::said::{Said, Stop};
use lucy_calls::{write_steps, write_work};
use lucy_io::Inputs;
use lucy_names::Names;
use lucy_plan::Plan;
use std::alloc::{AllocError, Global};

// What was asked for.
fn say(text: Result<Vec<u8>, AllocError>) -> Result<Said, AllocError>
    ensures { (wanted : List ℕ) → IfOk text (λ t. t.items ≡ wanted) → IfOk result (λ s. Says (exactly answered wanted) s.status s.text.items) }
{
    let text = text?;
    Ok(Said { status: 0, text })
}

/// `help`: a line for each form of words.
#[tactic(auto, unfolding(crate::specs::Commands::help_script))]
pub fn help(alloc: Global) -> Result<Said, Stop>
    ensures { (told : Option Told) (old : List Entry) → Follows help_script told old old result }
{
    conclude(say(lucy_words::help(alloc)))
}

/// `make-plan SEED SIZE`: the plan of a seed and a size.
#[tactic(auto, unfolding(crate::specs::Commands::make_plan_script))]
pub fn make_plan(alloc: Global, seed: u64, size: u32) -> Result<Said, Stop>
    requires some { 1 ≤ size }
    requires few { size ≤ 32 }
    ensures { (told : Option Told) (old : List Entry) → Follows (make_plan_script seed size) told old old result }
{
    conclude(say(lucy_make::make_plan(alloc, seed, size)))
}

fn say_work(
    alloc: Global,
    plan: &Plan,
    names: &Names,
    seed: u64,
    replicas: u32,
    calls: u32,
) -> Result<Said, AllocError>
    requires names { AreNamesOf plan.now names.now }
    requires some { 1 ≤ replicas }
    requires few { replicas ≤ 16 }
    requires short { calls ≤ 4096 }
    ensures { IfOk result (λ s. Says (exactly answered (work_text (txn_names plan.now) (made_work plan.now seed replicas calls))) s.status s.text.items) }
{
    let work = lucy_make::make_work(alloc, plan, seed, replicas, calls)?;
    say(write_work(alloc, names, &work))
}

/// `make-work PLAN SEED REPLICAS CALLS`: work of a plan, a seed, and numbers of replicas and of calls of each.
#[tactic(auto, unfolding(crate::specs::Commands::make_work_script))]
pub fn make_work<I: Inputs>(
    alloc: Global,
    inputs: &mut I,
    plan_name: &str,
    seed: u64,
    replicas: u32,
    calls: u32,
) -> Result<Said, Stop>
    requires some { 1 ≤ replicas }
    requires few { replicas ≤ 16 }
    requires short { calls ≤ 4096 }
    ensures told { I.told inputs.new ≡ I.told inputs.old }
    ensures follows { (told : Option Told) → told ≡ I.told inputs.old
        → Follows (make_work_script plan_name.now seed replicas calls) told (I.journal inputs.old) (I.journal inputs.new) result }
{
    let (plan, names) = load_plan(alloc, inputs, plan_name)?;
    conclude(say_work(alloc, &plan, &names, seed, replicas, calls))
}

fn say_steps(alloc: Global, replicas: u32, seed: u64, rounds: u32) -> Result<Said, AllocError>
    requires { 1 ≤ replicas }
    ensures { IfOk result (λ s. Says (exactly answered (steps_text (made_steps replicas seed rounds))) s.status s.text.items) }
{
    let steps = lucy_make::make_steps(alloc, replicas, seed, rounds)?;
    say(write_steps(alloc, steps.as_slice()))
}

/// `make-steps PLAN WORK SEED ROUNDS`: steps for the replicas of a work, of a seed and a number of rounds.
#[tactic(auto, unfolding(crate::specs::Commands::make_steps_script))]
pub fn make_steps<I: Inputs>(
    alloc: Global,
    inputs: &mut I,
    plan_name: &str,
    work_name: &str,
    seed: u64,
    rounds: u32,
) -> Result<Said, Stop>
    ensures told { I.told inputs.new ≡ I.told inputs.old }
    ensures follows { (told : Option Told) → told ≡ I.told inputs.old
        → Follows (make_steps_script plan_name.now work_name.now seed rounds) told (I.journal inputs.old) (I.journal inputs.new) result }
{
    let (plan, names) = load_plan(alloc, inputs, plan_name)?;
    let work = load_work(alloc, inputs, work_name, &plan, &names)?;
    conclude(say_steps(alloc, work.lists.len() as u32, seed, rounds))
}
