//! What a plan is found to be.
ghost use Rattle.std.specs.Prelude.{◌≡◌, ◌+◌, ◌<◌, ◌≤◌, IfOk, length, true};
ghost use Rattle.lucy_clauses.specs.Formulas.{Models, is_narrow};
ghost use Rattle.lucy_closure.specs.Formulas.{closure_formula, cover_formula};
ghost use Rattle.lucy_plan.specs.Segments.{is_whole};
ghost use Rattle.lucy_plan.specs.Soundness.{has_txns};
ghost use Rattle.lucy_solver.specs.Decisions.{Decides, is_writable};
ghost use Rattle.lucy_findings.specs.Findings as spec;

use crate::findings::{CoverFinding, Findings, SegmentFinding};
use lucy_clauses::Formula;
use lucy_closure::{
    closure_formula, closure_model_is_escape, cover_formula, cover_model_is_uncovered, read_pair,
    read_state,
};
use lucy_model::holds;
use lucy_plan::{Plan, PlanParts};
use lucy_solver::{Decision, decide};
use sqlite_items::Items;
use std::alloc::{AllocError, Global};

// What is decided of a formula. Where it has 2^32 ranges, there is no memory for the search.
fn decided(alloc: Global, formula: &Formula) -> Result<Decision, AllocError>
    requires { is_narrow formula.now ≡ true }
    ensures decides { IfOk result (λ d. Decides formula.now d) }
    ensures writable { IfOk result (λ d. is_writable d ≡ true) }
{
    match u32::try_from(formula.ranges.len()) {
        Ok(_) => decide(alloc, formula),
        Err(_) => Err(AllocError),
    }
}

// Whether the segment of a number has a transaction.
fn has_txns(plan: &PlanParts, segment: u32) -> bool
    ensures { result ≡ has_txns plan.now segment }
{
    match plan.segments.get(segment as usize) {
        None => false,
        Some(segment) => segment.txns.len() > 0,
    }
}

// The two states of a model of a segment's closure formula.
fn open_pair(
    alloc: Global,
    plan: &Plan,
    segment: u32,
    model: &[i64],
) -> Result<SegmentFinding, AllocError>
    requires there { segment < length plan.now.segments }
    requires runs { has_txns plan.now segment ≡ true }
    requires model { Models (closure_formula plan.now segment) model.now }
    ensures { IfOk result (λ f. spec.IsSegmentFinding plan.now segment f) }
{
    closure_model_is_escape();
    let _parts = plan.parts();
    let (first, second) = read_pair(alloc, plan, model)?;
    Ok(SegmentFinding::Open { first, second })
}

// What is found where a segment's closure formula is decided.
fn closed_or_open(
    alloc: Global,
    plan: &Plan,
    segment: u32,
    decision: Decision,
) -> Result<SegmentFinding, AllocError>
    requires there { segment < length plan.now.segments }
    requires runs { has_txns plan.now segment ≡ true }
    requires decides { Decides (closure_formula plan.now segment) decision }
    requires writable { is_writable decision ≡ true }
    ensures { IfOk result (λ f. spec.IsSegmentFinding plan.now segment f) }
{
    match decision {
        Decision::Refuted(proof) => Ok(SegmentFinding::Closed(proof)),
        Decision::Model(model) => open_pair(alloc, plan, segment, model.as_slice()),
    }
}

// What a segment with a transaction is found to be.
fn examine_running(alloc: Global, plan: &Plan, segment: u32) -> Result<SegmentFinding, AllocError>
    requires there { segment < length plan.now.segments }
    requires runs { has_txns plan.now segment ≡ true }
    ensures { IfOk result (λ f. spec.IsSegmentFinding plan.now segment f) }
{
    let formula = closure_formula(alloc, plan, segment)?;
    let decision = decided(alloc, &formula)?;
    drop(formula);
    closed_or_open(alloc, plan, segment, decision)
}

// What a segment is found to be.
fn examine_segment(alloc: Global, plan: &Plan, segment: u32) -> Result<SegmentFinding, AllocError>
    requires { segment < length plan.now.segments }
    ensures { IfOk result (λ f. spec.IsSegmentFinding plan.now segment f) }
{
    if has_txns(plan.parts(), segment) {
        examine_running(alloc, plan, segment)
    } else {
        Ok(SegmentFinding::Idle)
    }
}

// What the segments are found to be, in order.
fn examine_segments(alloc: Global, plan: &Plan) -> Result<Items<SegmentFinding>, AllocError>
    ensures all { IfOk result (λ fs. length fs ≡ length plan.now.segments) }
    ensures each { IfOk result (λ fs. spec.AreSegmentFindings plan.now 0 fs) }
{
    let mut findings = Items::new(alloc);
    for segment in 0..plan.parts().segments.len() {
        let finding = examine_segment(alloc, plan, segment as u32)?;
        findings.push(finding)?;
    }
    Ok(findings)
}

// The state of a model of the cover formula.
fn uncovered_state(alloc: Global, plan: &Plan, model: &[i64]) -> Result<CoverFinding, AllocError>
    requires { Models (cover_formula plan.now) model.now }
    ensures { IfOk result (λ f. spec.IsCoverFinding plan.now f) }
{
    cover_model_is_uncovered();
    let _parts = plan.parts();
    let state = read_state(alloc, plan, model)?;
    Ok(CoverFinding::Uncovered(state))
}

// What is found where the cover formula is decided.
fn covered_or_not(
    alloc: Global,
    plan: &Plan,
    decision: Decision,
) -> Result<CoverFinding, AllocError>
    requires decides { Decides (cover_formula plan.now) decision }
    requires writable { is_writable decision ≡ true }
    ensures { IfOk result (λ f. spec.IsCoverFinding plan.now f) }
{
    match decision {
        Decision::Refuted(proof) => Ok(CoverFinding::Holds(proof)),
        Decision::Model(model) => uncovered_state(alloc, plan, model.as_slice()),
    }
}

// Whether the segments cover the invariant.
fn examine_cover(alloc: Global, plan: &Plan) -> Result<CoverFinding, AllocError>
    ensures { IfOk result (λ f. spec.IsCoverFinding plan.now f) }
{
    let formula = cover_formula(alloc, plan)?;
    let decision = decided(alloc, &formula)?;
    drop(formula);
    covered_or_not(alloc, plan, decision)
}

// Whether the start satisfies the invariant.
fn start_holds(plan: &Plan) -> bool
    ensures { result ≡ is_whole plan.now plan.now.start }
{
    let parts = plan.parts();
    holds(&parts.invariant, &parts.start, &[])
}

/// What a plan is found to be: whether its start satisfies the invariant; for each segment, in order, that it has no
/// transaction, or a proof that it is merge closed, or two of its states, the lexicographically smaller first, whose
/// merge is outside it; and a proof that the segments cover the invariant, or a state of the invariant that is in none.
pub fn examine(alloc: Global, plan: &Plan) -> Result<Findings, AllocError>
    ensures { IfOk result (λ f. spec.AreFindings plan.now f) }
{
    let start_holds = start_holds(plan);
    let segments = examine_segments(alloc, plan)?;
    let cover = examine_cover(alloc, plan)?;
    Ok(Findings {
        start_holds,
        segments,
        cover,
    })
}
