//! `run`, worked on threads.

ghost use Rattle.std.specs.Prelude.{◌≡◌, Option, Some, None, IfOk};
ghost use Rattle.std.specs.Arc.{arc_value};
ghost use Rattle.lucy_core.specs.Worlds.{IsWorkOf};
ghost use Rattle.lucy_io.specs.Inputs.{Told};
ghost use Rattle.lucy_replica.specs.Legal.{IsLegal};
ghost use Rattle.lucy_report.specs.OutcomeTexts.{replicas_in};
ghost use Rattle.lucy_names.specs.Plans.{AreNamesOf};
ghost use Rattle.lucy_top.specs.Commands.{run_script, run_made_script};
ghost use Rattle.lucy_top.specs.Ends.{Follows};
ghost use Rattle.lucy_top.specs.Judging.{plan_in, refusal_in};
ghost use Rattle.lucy_top.specs.Outcomes.{Choice, HasRun};
ghost use Rattle.lucy_top.specs.Threads.{IsApart, SuitsThreads};
ghost use Rattle.lucy_top.specs.Verdicts.{Says, runs, runs_if_sound};

use crate::checking::tell_unsound;
use crate::fetching::conclude;
use crate::judging::{Judged, load_certificate};
use crate::loading::{load_plan, load_work};
use crate::replaying::judge_made;
use crate::said::{Said, Stop};
use crate::threads::{Crew, Worked};
use crate::verifying::say_refusal;
use lucy_audit::Difference;
use lucy_calls::Work;
use lucy_cluster::Gate;
use lucy_core::{Outcome, alone};
use lucy_findings::{examine, is_sound};
use lucy_io::Inputs;
use lucy_judge::Checked;
use lucy_names::Names;
use lucy_plan::Plan;
use lucy_report::outcome_text;
use std::alloc::{AllocError, Global};
use std::sync::{Arc, Wait};
use std::thread::Threads;

/// What a run on threads keeps.
#[derive(Drop)]
pub struct Kept {
    /// What it came to.
    pub outcome: Option<Outcome>,
    /// Why that is of one thread alone, if it is.
    pub apart: Option<Difference>,
}

impl<R: Threads + Wait + Sync, G: Gate + Sync> Crew<'_, R, G> {
    // What threads come to under a plan that is sound; where they left a difference, what one thread
    // alone does.
    fn outcome(
        &self,
        alloc: Global,
        checked: Arc<Checked>,
        work: &Work,
    ) -> Result<(Outcome, Option<Difference>), AllocError>
        requires { IsWorkOf (arc_value checked) work.now.lists }
        ensures legal { IfOk result (λ made. IsLegal (arc_value checked) work.now.lists (replicas_in made.0)) }
        ensures apart { IfOk result (λ made. IsApart (Some made.0) made.1) }
    {
        match self.work(alloc, &checked, work)? {
            Worked::Agreed(outcome) => Ok((outcome, None)),
            Worked::Apart(difference) => Ok((alone(alloc, checked, work)?, Some(difference))),
        }
    }

    // The text of that outcome, which is kept.
    fn say(
        &self,
        alloc: Global,
        checked: Arc<Checked>,
        names: &Names,
        work: &Work,
        kept: &mut Kept,
    ) -> Result<Said, AllocError>
        requires names { AreNamesOf (arc_value checked) names.now }
        requires work { IsWorkOf (arc_value checked) work.now.lists }
        requires empty { kept.old.outcome ≡ None }
        requires none { kept.old.apart ≡ None }
        ensures says { (choice : Choice) → SuitsThreads choice kept.new.outcome → IfOk result (λ s. HasRun choice (arc_value checked) work.now.lists s.status s.text.items) }
        ensures apart { IsApart kept.new.outcome kept.new.apart }
    {
        let _plan = checked.plan();
        let (outcome, apart) = self.outcome(alloc, checked, work)?;
        let text = outcome_text(alloc, names, &outcome)?;
        kept.outcome = Some(outcome);
        kept.apart = apart;
        Ok(Said { status: 0, text })
    }

    fn say_judged(
        &self,
        alloc: Global,
        judged: Judged,
        names: &Names,
        work: &Work,
        kept: &mut Kept,
    ) -> Result<Said, AllocError>
        requires names { AreNamesOf (plan_in judged) names.now }
        requires work { IsWorkOf (plan_in judged) work.now.lists }
        requires empty { kept.old.outcome ≡ None }
        requires none { kept.old.apart ≡ None }
        ensures says { (choice : Choice) → SuitsThreads choice kept.new.outcome → IfOk result (λ s. Says (runs choice (plan_in judged) (refusal_in judged) work.now.lists) s.status s.text.items) }
        ensures apart { IsApart kept.new.outcome kept.new.apart }
    {
        match judged {
            Judged::Accepted(checked) => self.say(alloc, checked, names, work, kept),
            Judged::Refused(plan, refusal) => say_refusal(alloc, &plan, refusal),
        }
    }

    fn say_made(
        &self,
        alloc: Global,
        plan: &Arc<Plan>,
        names: &Names,
        work: &Work,
        kept: &mut Kept,
    ) -> Result<Said, AllocError>
        requires names { AreNamesOf (arc_value plan.now) names.now }
        requires work { IsWorkOf (arc_value plan.now) work.now.lists }
        requires empty { kept.old.outcome ≡ None }
        requires none { kept.old.apart ≡ None }
        ensures says { (choice : Choice) → SuitsThreads choice kept.new.outcome → IfOk result (λ s. Says (runs_if_sound choice (arc_value plan.now) work.now.lists) s.status s.text.items) }
        ensures apart { IsApart kept.new.outcome kept.new.apart }
    {
        let findings = examine(alloc, plan)?;
        if is_sound(&findings) {
            let checked = judge_made(alloc, plan, &findings)?;
            self.say(alloc, checked, names, work, kept)
        } else {
            tell_unsound(alloc, plan, &findings)
        }
    }

    /// `run PLAN CERT WORK SEED`, worked on threads: its outcome, which is kept; or why the certificate
    /// is refused, once all inputs are read.
    #[tactic(auto, unfolding(crate::specs::Commands::run_script))]
    pub fn run<I: Inputs>(
        &self,
        alloc: Global,
        inputs: &mut I,
        plan_name: &str,
        certificate_name: &str,
        work_name: &str,
        kept: &mut Kept,
    ) -> Result<Said, Stop>
        requires empty { kept.old.outcome ≡ None }
        requires none { kept.old.apart ≡ None }
        ensures told { I.told inputs.new ≡ I.told inputs.old }
        ensures follows { (told : Option Told) (choice : Choice) → told ≡ I.told inputs.old → SuitsThreads choice kept.new.outcome
            → Follows (run_script choice plan_name.now certificate_name.now work_name.now) told (I.journal inputs.old) (I.journal inputs.new) result }
        ensures apart { IsApart kept.new.outcome kept.new.apart }
    {
        let (plan, names) = load_plan(alloc, inputs, plan_name)?;
        let judged = load_certificate(alloc, inputs, certificate_name, &plan)?;
        let work = load_work(alloc, inputs, work_name, &plan, &names)?;
        conclude(self.say_judged(alloc, judged, &names, &work, kept))
    }

    /// `run PLAN - WORK SEED`, worked on threads: its outcome, which is kept; or what the plan is found
    /// to be where it is not sound, once all inputs are read.
    #[tactic(auto, unfolding(crate::specs::Commands::run_made_script))]
    pub fn run_made<I: Inputs>(
        &self,
        alloc: Global,
        inputs: &mut I,
        plan_name: &str,
        work_name: &str,
        kept: &mut Kept,
    ) -> Result<Said, Stop>
        requires empty { kept.old.outcome ≡ None }
        requires none { kept.old.apart ≡ None }
        ensures told { I.told inputs.new ≡ I.told inputs.old }
        ensures follows { (told : Option Told) (choice : Choice) → told ≡ I.told inputs.old → SuitsThreads choice kept.new.outcome
            → Follows (run_made_script choice plan_name.now work_name.now) told (I.journal inputs.old) (I.journal inputs.new) result }
        ensures apart { IsApart kept.new.outcome kept.new.apart }
    {
        let (plan, names) = load_plan(alloc, inputs, plan_name)?;
        let work = load_work(alloc, inputs, work_name, &plan, &names)?;
        conclude(self.say_made(alloc, &plan, &names, &work, kept))
    }
}
