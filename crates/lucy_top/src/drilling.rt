//! `drill`.

ghost use Rattle.std.specs.Prelude.{◌≡◌, ◌≤◌, List, Option, All, IfOk, length};
ghost use Rattle.std.specs.Arc.{arc_value};
ghost use Rattle.lucy_calls.specs.Laws.{IsStepOf};
ghost use Rattle.lucy_core.specs.Steps.{world_after};
ghost use Rattle.lucy_core.specs.Worlds.{IsWorkOf, opening_world};
ghost use Rattle.lucy_io.specs.Inputs.{Entry, Told};
ghost use Rattle.lucy_top.specs.Commands.{drill_script};
ghost use Rattle.lucy_top.specs.Drills.{drill_work, drill_steps};
ghost use Rattle.lucy_top.specs.Ends.{Follows};
ghost use Rattle.lucy_top.specs.Verdicts.{Says, drills, IsDrilled};

use crate::checking::tell_unsound;
use crate::counting::count;
use crate::fetching::conclude;
use crate::loading::take_plan;
use crate::replaying::judge_made;
use crate::said::{Said, Stop};
use lucy_calls::{Step, Work};
use lucy_core::{World, opening_is_safe, runs_keep_safe, work_stays};
use lucy_findings::{examine, is_sound};
use lucy_judge::Checked;
use lucy_make::{
    DRILL_CALLS, DRILL_REPLICAS, DRILL_ROUNDS, drill_text, make_plan, make_steps, make_work,
};
use lucy_plan::Plan;
use sqlite_items::Items;
use std::alloc::{AllocError, Global};
use std::sync::Arc;

// The work of a drill.
#[tactic(auto, unfolding(crate::specs::Drills::drill_work))]
fn work_of(alloc: Global, plan: &Plan, seed: u64) -> Result<Work, AllocError>
    ensures value { IfOk result (λ work. work.lists ≡ drill_work plan.now seed) }
    ensures fits { IfOk result (λ work. IsWorkOf plan.now work.lists) }
    ensures four { IfOk result (λ work. length work.lists ≡ 4) }
{
    make_work(alloc, plan, seed, DRILL_REPLICAS, DRILL_CALLS)
}

// The steps of a drill.
#[tactic(auto, unfolding(crate::specs::Drills::drill_steps))]
fn steps_of(alloc: Global, seed: u64) -> Result<Items<Step>, AllocError>
    ensures value { IfOk result (λ steps. steps ≡ drill_steps seed) }
    ensures replicas { IfOk result (All (IsStepOf 4)) }
{
    make_steps(alloc, DRILL_REPLICAS, seed, DRILL_ROUNDS)
}

// The world of a work after steps.
fn world_of(
    alloc: Global,
    checked: Arc<Checked>,
    work: &Work,
    steps: &[Step],
) -> Result<World, AllocError>
    requires work { IsWorkOf (arc_value checked) work.now.lists }
    requires steps { All (IsStepOf (length work.now.lists)) steps.now }
    ensures value { IfOk result (λ w. w ≡ world_after (opening_world (arc_value checked) work.now.lists) steps.now) }
    ensures few { IfOk result (λ w. length w.replicas ≤ 16) }
{
    work_stays();
    let mut world = World::new(alloc, checked, work)?;
    world.run(alloc, steps)?;
    Ok(world)
}

// A drill on a plan that is sound.
fn say_drilled(
    alloc: Global,
    checked: Arc<Checked>,
    seed: u64,
    size: u32,
) -> Result<Said, AllocError>
    ensures { IfOk result (λ s. IsDrilled (arc_value checked) seed size s.status s.text.items) }
{
    opening_is_safe();
    runs_keep_safe();
    let plan = checked.plan().clone()?;
    let work = work_of(alloc, &plan, seed)?;
    let steps = steps_of(alloc, seed)?;
    let world = world_of(alloc, checked, &work, steps.as_slice())?;
    let drill = count(&plan, seed, size, steps.len() as u64, &world);
    let text = drill_text(alloc, &drill)?;
    Ok(Said { status: 0, text })
}

fn say_drill(alloc: Global, plan: &Arc<Plan>, seed: u64, size: u32) -> Result<Said, AllocError>
    ensures { IfOk result (λ s. Says (drills (arc_value plan.now) seed size) s.status s.text.items) }
{
    let findings = examine(alloc, plan)?;
    if is_sound(&findings) {
        let checked = judge_made(alloc, plan, &findings)?;
        say_drilled(alloc, checked, seed, size)
    } else {
        tell_unsound(alloc, plan, &findings)
    }
}

/// `drill SEED SIZE`: a plan is made and read, its certificate made and judged, and made work run by made steps; a summary of
/// what came of it. Where the plan is not sound, what it is found to be.
#[tactic(auto, unfolding(crate::specs::Commands::drill_script))]
pub fn drill(alloc: Global, seed: u64, size: u32) -> Result<Said, Stop>
    requires some { 1 ≤ size }
    requires few { size ≤ 32 }
    ensures { (told : Option Told) (old : List Entry) → Follows (drill_script seed size) told old old result }
{
    let text = make_plan(alloc, seed, size)?;
    let (plan, _names) = take_plan(alloc, "drill", &text)?;
    conclude(say_drill(alloc, &plan, seed, size))
}
