ghost use Rattle.std.specs.Prelude.{◌≡◌, None, Some, MatchResult, IsTrue};
ghost use Rattle.lucy_plan.specs.Faults.{fault_of};
ghost use Rattle.lucy_plan.specs.Plans.{is_plan, IsPlan};

use crate::checks::test_parts;
use crate::parts::PlanParts;
use crate::refusal::PlanError;
use std::marker::Model;

/// A plan: parts within all limits, with a start, places and points that fit its object. It never
/// changes. Contracts see it as its parts.
#[derive(Debug, Drop)]
pub struct Plan {
    parts: PlanParts,
}

impl Model for Plan {
    ghost use Rattle.std.specs.Prelude.{IsTrue};
    ghost use Rattle.lucy_plan.specs.declared.parts.PlanParts.{PlanParts};
    ghost use Rattle.lucy_plan.specs.Plans.{is_plan};
    ghost use Rattle.lucy_model.specs.contracts.conditions.Condition as condition;
    ghost use Rattle.std.specs.Coded.{codes};

    ghost Value = { PlanParts };

    ghost coded = { Prim.hlevel (codes, condition.the_row.coded) };

    ghost view = { λ p. p.parts };

    ghost invariant = { λ p. IsTrue (is_plan p.parts) };
}

impl Plan {
    /// The plan with these parts, or the first thing that is wrong with them: a limit, then the
    /// start, then a place. It takes no memory.
    pub fn new(parts: PlanParts) -> Result<Plan, PlanError>
        ensures { MatchResult result (λ p. (p ≡ parts) × (fault_of parts ≡ None)) (λ e. fault_of parts ≡ Some e) }
    {
        test_parts(&parts)?;
        Ok(Plan { parts })
    }

    /// What the plan is made of.
    pub fn parts(&self) -> &PlanParts
        ensures parts { result.now ≡ self.now }
        ensures valid { IsTrue (is_plan result.now) }
        ensures kept { IsPlan result.now }
    {
        &self.parts
    }
}
