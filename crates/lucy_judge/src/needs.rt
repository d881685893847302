//! The parts that a plan needs, and their formulas.

ghost use Rattle.std.specs.Prelude.{◌≡◌, ◌+◌, ◌≤◌, ◌<◌, ◌↔◌, true, length, IfOk};
ghost use Rattle.lucy_plan.specs.Soundness.{runs_some};
ghost use Rattle.lucy_plan.specs.Segments.{is_whole};
ghost use Rattle.lucy_cert.specs.Names as names;
ghost use Rattle.lucy_judge.specs.Judging as spec;
ghost use Rattle.lucy_judge.specs.Keeping.{name_fits};

use crate::refusal::Refusal;
use lucy_cert::PartName;
use lucy_clauses::Formula;
use lucy_closure::{closure_formula, cover_formula};
use lucy_model::holds;
use lucy_plan::{Plan, Segment};
use sqlite_items::Items;
use std::alloc::{AllocError, Global};

/// Whether two names are of one part.
pub(crate) fn is_same(left: PartName, right: PartName) -> bool
    ensures { result ≡ spec.is_same left right }
{
    match left {
        PartName::Closure(k) => match right {
            PartName::Closure(l) => k == l,
            PartName::Cover => false,
        },
        PartName::Cover => match right {
            PartName::Closure(_) => false,
            PartName::Cover => true,
        },
    }
}

/// Whether a part stands before another in a certificate.
pub(crate) fn is_before(left: PartName, right: PartName) -> bool
    ensures { result ≡ names.is_before left right }
{
    match left {
        PartName::Closure(k) => match right {
            PartName::Closure(l) => k < l,
            PartName::Cover => true,
        },
        PartName::Cover => false,
    }
}

fn runs_some(segment: &Segment) -> bool
    ensures { result ≡ runs_some (Some segment.now) }
{
    segment.txns.len() > 0
}

fn closures(alloc: Global, segments: &[Segment]) -> Result<Items<PartName>, AllocError>
    requires { length segments.now ≤ 16 }
    ensures { IfOk result (λ names. names ≡ spec.closures_from 0 segments.now) }
{
    let mut names = Items::new(alloc);
    for (k, segment) in segments.iter().enumerate() {
        if runs_some(segment) {
            names.push(PartName::Closure(k as u32))?;
        }
    }
    Ok(names)
}

/// The parts that a plan needs: the closure of each segment with a transaction, ascending, and the cover.
pub fn needed(alloc: Global, plan: &Plan) -> Result<Items<PartName>, AllocError>
    ensures { IfOk result (λ names. names ≡ spec.needed plan.now) }
{
    let mut names = closures(alloc, plan.parts().segments.as_slice())?;
    names.push(PartName::Cover)?;
    Ok(names)
}

/// The formula that a part is to refute.
pub fn formula_of(alloc: Global, plan: &Plan, name: PartName) -> Result<Formula, AllocError>
    requires { name_fits (length plan.now.segments) name ≡ true }
    ensures { IfOk result (λ formula. formula ≡ spec.formula_of plan.now name) }
{
    match name {
        PartName::Closure(segment) => closure_formula(alloc, plan, segment),
        PartName::Cover => cover_formula(alloc, plan),
    }
}

fn start_is_whole(plan: &Plan) -> bool
    ensures { result ≡ is_whole plan.now plan.now.start }
{
    let parts = plan.parts();
    holds(&parts.invariant, &parts.start, &[])
}

/// A plan whose start breaks the invariant is refused for that.
pub(crate) fn start_refusal(plan: &Plan) -> Option<Refusal>
    ensures { result ≡ spec.start_refusal plan.now }
{
    if start_is_whole(plan) {
        None
    } else {
        Some(Refusal::StartBreaks)
    }
}
