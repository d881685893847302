//! A judge that is given the parts and steps of a certificate one by one.

ghost use Rattle.std.specs.Prelude.{◌≡◌, Some, true, IfOk};
ghost use Rattle.std.specs.Arc.{arc_value};
ghost use Rattle.lucy_plan.specs.declared.parts.PlanParts.{PlanParts};
ghost use Rattle.lucy_cert.specs.Certificates.{Contents, part_names};
ghost use Rattle.lucy_cert.specs.Names.{ascend};
ghost use Rattle.lucy_judge.specs.Judging.{answer_of, refusal_of};
ghost use Rattle.lucy_judge.specs.Trials as spec;
ghost use Rattle.lucy_judge.specs.Judges as judges;

use crate::answering::answered;
use crate::checked::Checked;
use crate::laws::judged_in_parts;
use crate::refusal::Refusal;
use crate::trial::{Trial, held_of, opening, part_taken, step_taken};
use lucy_cert::{PartName, ProofStep};
use lucy_clauses::Clause;
use lucy_plan::Plan;
use std::alloc::{AllocError, Global};
use std::marker::Model;
use std::sync::Arc;

/// A judge of a certificate for a plan, which is given the certificate's parts and their steps one by one. Only the live
/// clauses of the needed part that is under way are held. Once memory has run out it has failed, and answers want of
/// memory to every later call.
#[derive(Drop)]
pub struct Judge {
    plan: Arc<Plan>,
    trial: Option<Trial>,
}

impl Model for Judge {
    ghost use Rattle.std.specs.Arc.{arc_value};
    ghost use Rattle.std.specs.Coded.{codes};
    ghost use Rattle.lucy_plan.specs.declared.plans.Plan.{the_code};
    ghost use Rattle.lucy_model.specs.contracts.conditions.Condition as condition;
    ghost use Rattle.lucy_judge.specs.Judges.{Judging};

    ghost Value = { Judging };

    ghost coded = { Prim.hlevel (codes, condition.the_row.coded) };

    ghost use Rattle.lucy_judge.specs.Keeping.{IsTrialOr};

    ghost view = { λ j. record { plan = arc_value j.plan; trial = j.trial } };

    ghost invariant = { λ j. IsTrialOr (arc_value j.plan) j.trial };
}

impl Judge {
    /// A judge that was given no part.
    pub fn new(alloc: Global, plan: Arc<Plan>) -> Result<Judge, AllocError>
        ensures { IfOk result (λ judge. judge ≡ judges.judging (arc_value plan) (Some (spec.opening (arc_value plan)))) }
    {
        let trial = opening(alloc, &plan)?;
        Ok(Judge {
            plan,
            trial: Some(trial),
        })
    }

    /// Takes the beginning of a part. `live` is the most clauses of steps that may be added and not dropped after any
    /// step of it.
    pub fn part(
        &mut self,
        alloc: Global,
        name: PartName,
        live: Option<u64>,
    ) -> Result<(), AllocError>
        ensures { judges.Turns self.old (λ trial. spec.part_taken self.old.plan live trial name) result self.new }
    {
        let Some(trial) = self.trial.take() else {
            return Err(AllocError);
        };
        let next = part_taken(alloc, &self.plan, live, &trial, name)?;
        self.trial = Some(next);
        Ok(())
    }

    /// Takes a step of the part that has begun. Those of a part that is not needed are not looked at, nor those behind
    /// the first that is not justified.
    pub fn step(&mut self, alloc: Global, step: &ProofStep) -> Result<(), AllocError>
        ensures { judges.Turns self.old (λ trial. spec.step_taken trial step.now) result self.new }
    {
        let Some(trial) = self.trial.take() else {
            return Err(AllocError);
        };
        let next = step_taken(alloc, trial, step)?;
        self.trial = Some(next);
        Ok(())
    }

    /// The clauses of steps of the part that has begun that are added and not dropped, in order; none where that part
    /// is not needed, and none behind a step that is not justified.
    pub fn held(&self) -> &[Clause]
        ensures { result.now ≡ judges.held_in self.now.trial }
    {
        match &self.trial {
            Some(trial) => held_of(&trial.present),
            None => &[],
        }
    }

    /// The plan as a checked one, or the refusal of the certificate with the parts and steps that were given.
    pub fn finish(self) -> Result<Checked, Refusal>
        ensures value { result ≡ judges.finished self.plan self.trial }
        ensures whole { (plan : PlanParts) (certificate : Contents) → ascend (part_names certificate.parts) ≡ true
            → judges.HasTaken plan certificate.live certificate.parts self → result ≡ answer_of plan (refusal_of plan certificate) }
    {
        judged_in_parts();
        let Judge { plan, trial } = self;
        match trial {
            Some(trial) => answered(plan, &trial),
            None => Err(Refusal::OutOfMemory),
        }
    }
}
