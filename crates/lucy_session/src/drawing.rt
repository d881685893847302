//! The pair that is shown next.

ghost use Rattle.std.specs.Prelude.{◌≡◌, IfOk, length, true};
ghost use Rattle.lucy_clauses.specs.Formulas.{Models, is_narrow};
ghost use Rattle.lucy_solver.specs.Decisions.{Decides};
ghost use Rattle.lucy_closure.specs.Points.{are_points};
ghost use Rattle.lucy_closure.specs.Formulas.{whole_closure};
ghost use Rattle.lucy_session.specs.Sessions.{IsDrawn, IsShown};

use crate::reached::Pair;
use lucy_checker::refuted_has_no_model;
use lucy_clauses::Formula;
use lucy_closure::{read_pair, whole_closure, whole_model_is_escape};
use lucy_model::State;
use lucy_plan::Plan;
use lucy_solver::{Decision, decide};
use std::alloc::{AllocError, Global};

// What is decided of a formula. Where it has 2^32 ranges, there is no memory for the search.
fn decided(alloc: Global, formula: &Formula) -> Result<Decision, AllocError>
    requires { is_narrow formula.now ≡ true }
    ensures { IfOk result (λ d. Decides formula.now d) }
{
    match u32::try_from(formula.ranges.len()) {
        Ok(_) => decide(alloc, formula),
        Err(_) => Err(AllocError),
    }
}

// The two states of a model.
fn pair_of(alloc: Global, plan: &Plan, points: &[State], model: &[i64]) -> Result<Pair, AllocError>
    requires points { are_points (length plan.now.object) points.now ≡ true }
    requires model { Models (whole_closure plan.now points.now) model.now }
    ensures { IfOk result (λ p. IsShown plan.now points.now p) }
{
    whole_model_is_escape();
    let _parts = plan.parts();
    let _points = points;
    let (left, right) = read_pair(alloc, plan, model)?;
    Ok(Pair { left, right })
}

// What comes of a decision.
fn drawn(
    alloc: Global,
    plan: &Plan,
    points: &[State],
    decision: Decision,
) -> Result<Option<Pair>, AllocError>
    requires points { are_points (length plan.now.object) points.now ≡ true }
    requires decides { Decides (whole_closure plan.now points.now) decision }
    ensures { IfOk result (IsDrawn plan.now points.now) }
{
    refuted_has_no_model();
    match decision {
        Decision::Refuted(_) => Ok(None),
        Decision::Model(model) => {
            let pair = pair_of(alloc, plan, points, model.as_slice())?;
            Ok(Some(pair))
        }
    }
}

/// Two states of the invariant, neither of them a point, whose merge breaks it, the lexicographically smaller one left.
/// `None` exactly where there are none. Each point has a number for each leaf.
pub fn draw(alloc: Global, plan: &Plan, points: &[State]) -> Result<Option<Pair>, AllocError>
    requires { are_points (length plan.now.object) points.now ≡ true }
    ensures { IfOk result (IsDrawn plan.now points.now) }
{
    let formula = whole_closure(alloc, plan, points)?;
    let decision = decided(alloc, &formula)?;
    drop(formula);
    drawn(alloc, plan, points, decision)
}
