ghost use Rattle.std.specs.Prelude.{◌≡◌};
ghost use Rattle.std.specs.Arc.{arc_value};
ghost use Rattle.lucy_plan.specs.Soundness.{IsSound};

use lucy_plan::Plan;
use std::marker::Model;
use std::sync::Arc;

/// A plan that is known to be sound: its start satisfies the invariant, each state that does so is
/// in a segment, and no merge of two states of a segment with a transaction leaves that segment.
/// Only this crate makes one. Contracts see it as the parts of its plan.
#[derive(Drop)]
pub struct Checked {
    plan: Arc<Plan>,
}

impl Model for Checked {
    ghost use Rattle.std.specs.Arc.{arc_value};
    ghost use Rattle.std.specs.Coded.{codes};
    ghost use Rattle.lucy_plan.specs.declared.plans.Plan.{the_code};
    ghost use Rattle.lucy_plan.specs.declared.parts.PlanParts.{PlanParts};
    ghost use Rattle.lucy_plan.specs.Soundness.{IsSound};
    ghost use Rattle.lucy_model.specs.contracts.conditions.Condition as condition;

    ghost Value = { PlanParts };

    ghost coded = { Prim.hlevel (codes, condition.the_row.coded) };

    ghost view = { λ c. arc_value c.plan };

    ghost invariant = { λ c. IsSound (arc_value c.plan) };
}

impl Checked {
    /// The plan.
    pub fn plan(&self) -> &Arc<Plan>
        ensures value { arc_value result.now ≡ self.now }
        ensures sound { IsSound self.now }
    {
        &self.plan
    }

    /// A plan that is sound, as a checked one.
    pub(crate) fn of(plan: Arc<Plan>) -> Checked
        requires { IsSound (arc_value plan) }
        ensures { result ≡ arc_value plan }
    {
        Checked { plan }
    }
}
