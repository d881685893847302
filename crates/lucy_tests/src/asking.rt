//! The three formulas of a plan of a text, over two leaves.

use crate::making::{numbers_of, plan_of};
use lucy_clauses::Formula;
use lucy_closure::{closure_formula, cover_formula, whole_closure};
use lucy_model::State;
use lucy_plan::Plan;
use std::alloc::Global;

/// What a formula is about.
#[derive(Clone, Copy)]
pub enum Question<'a> {
    /// Two states of the segment have a merge outside it.
    Segment,
    /// Two states of the invariant, neither of them the point, if there is one, have a merge outside it.
    Whole(&'a str),
    /// A state of the invariant is not in the segment.
    Cover,
}

fn segment_formula(alloc: Global, plan: &Plan) -> Option<Formula> {
    if plan.parts().segments.len() != 1 {
        return None;
    }
    closure_formula(alloc, plan, 0).ok()
}

fn whole_formula(alloc: Global, plan: &Plan, point: &str) -> Option<Formula> {
    if plan.parts().object.len() != 2 {
        return None;
    }
    if point.is_empty() {
        return whole_closure(alloc, plan, &[]).ok();
    }
    let point = State::from(numbers_of(alloc, point)?);
    if point.length() != 2 {
        return None;
    }
    whole_closure(alloc, plan, &[point]).ok()
}

fn formula(alloc: Global, plan: &Plan, question: Question) -> Option<Formula> {
    match question {
        Question::Segment => segment_formula(alloc, plan),
        Question::Whole(point) => whole_formula(alloc, plan, point),
        Question::Cover => cover_formula(alloc, plan).ok(),
    }
}

/// The formula of a question about a plan.
pub fn formula_of(alloc: Global, plan: &str, question: Question) -> Option<Formula> {
    let plan = plan_of(alloc, plan)?;
    let formula = formula(alloc, &plan, question);
    drop(plan);
    formula
}
