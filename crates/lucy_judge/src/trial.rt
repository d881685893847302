//! A certificate that is judged a part and a step at a time.

ghost use Rattle.std.specs.Prelude.{◌≡◌, Some, None, true, length, IfOk};
ghost use Rattle.std.specs.Option.{option_or};
ghost use Rattle.lucy_plan.specs.declared.parts.PlanParts.{PlanParts};
ghost use Rattle.lucy_judge.specs.Trials as spec;
ghost use Rattle.lucy_judge.specs.Judging as judging;
ghost use Rattle.lucy_judge.specs.Keeping as keeping;

use crate::needs::{formula_of, is_before, is_same, needed, start_refusal};
use crate::refusal::Refusal;
use lucy_cert::{PartName, ProofStep, refutes_exactly};
use lucy_checker::{Checker, Verdict, checkers_are_exact, refuted_has_no_model};
use lucy_clauses::Clause;
use lucy_plan::Plan;
use sqlite_items::Items;
use std::alloc::{AllocError, Global};

/// The needed part that is under way.
#[derive(Drop)]
pub struct Present {
    /// Its name.
    pub name: PartName,
    /// What its steps have come to.
    pub checker: Checker,
}

/// What the parts and steps of a certificate have come to.
#[derive(Drop)]
pub struct Trial {
    /// The needed parts that have not begun.
    pub due: Items<PartName>,
    /// The needed part that is under way.
    pub present: Option<Present>,
    /// The first refusal of what came before.
    pub refusal: Option<Refusal>,
}

/// No part yet.
pub(crate) fn opening(alloc: Global, plan: &Plan) -> Result<Trial, AllocError>
    ensures value { IfOk result (λ trial. trial ≡ spec.opening plan.now) }
    ensures kept { IfOk result (λ trial. keeping.IsTrial plan.now trial) }
{
    let due = needed(alloc, plan)?;
    Ok(Trial {
        due,
        present: None,
        refusal: start_refusal(plan),
    })
}

fn rejected(name: PartName, verdict: Verdict) -> Option<Refusal>
    ensures { result ≡ spec.by_verdict name verdict }
{
    match verdict {
        Verdict::Refuted => None,
        Verdict::Rejected { step, why } => Some(Refusal::Rejected {
            part: name,
            step,
            why,
        }),
    }
}

fn end_refusal(present: &Present) -> Option<Refusal>
    ensures { result ≡ spec.end_refusal present.now }
{
    rejected(present.name, present.checker.verdict())
}

fn present_refusal(present: &Option<Present>) -> Option<Refusal>
    ensures { result ≡ spec.present_refusal present.now }
{
    match present {
        Some(present) => end_refusal(present),
        None => None,
    }
}

fn first_of(refusal: Option<Refusal>, other: Option<Refusal>) -> Option<Refusal>
    ensures { result ≡ option_or refusal other }
{
    match refusal {
        Some(refusal) => Some(refusal),
        None => other,
    }
}

fn refusal_so_far(trial: &Trial) -> Option<Refusal>
    ensures { result ≡ spec.refusal_so_far trial.now }
{
    first_of(trial.refusal, present_refusal(&trial.present))
}

// Parts that are due and come before this one are missing.
fn passed(
    refusal: Option<Refusal>,
    due: &[PartName],
    name: PartName,
) -> (Option<Refusal>, &[PartName])
    ensures { (result.0, result.1.now) ≡ spec.passed name refusal due.now }
{
    let mut refusal = refusal;
    for (i, next) in due.iter().enumerate() {
        if !is_before(*next, name) {
            return (refusal, &due[i..]);
        }
        refusal = first_of(refusal, Some(Refusal::Missing(*next)));
    }
    (refusal, &[])
}

// No needed part is under way.
fn waiting(alloc: Global, refusal: Option<Refusal>, due: &[PartName]) -> Result<Trial, AllocError>
    ensures { IfOk result (λ trial. trial ≡ spec.trial due.now None refusal) }
{
    Ok(Trial {
        due: Items::from_slice(alloc, due)?,
        present: None,
        refusal,
    })
}

// A needed part begins, with these due behind it.
fn under_way(
    alloc: Global,
    plan: &Plan,
    live: Option<u64>,
    name: PartName,
    refusal: Option<Refusal>,
    due: &[PartName],
) -> Result<Trial, AllocError>
    requires { keeping.name_fits (length plan.now.segments) name ≡ true }
    ensures { IfOk result (λ trial. trial ≡ spec.trial due.now (Some (spec.present plan.now live name)) refusal) }
{
    let formula = formula_of(alloc, plan, name)?;
    let checker = Checker::new(alloc, formula, live);
    Ok(Trial {
        due: Items::from_slice(alloc, due)?,
        present: Some(Present { name, checker }),
        refusal,
    })
}

// A part of this name begins: it is needed if it is the next one that is due.
fn begun(
    alloc: Global,
    plan: &Plan,
    live: Option<u64>,
    name: PartName,
    refusal: Option<Refusal>,
    due: &[PartName],
) -> Result<Trial, AllocError>
    requires { keeping.names_fit plan.now due.now ≡ true }
    ensures { IfOk result (λ trial. trial ≡ spec.begun plan.now live name refusal due.now) }
{
    match due {
        [next, rest @ ..] => {
            if is_same(*next, name) {
                under_way(alloc, plan, live, *next, refusal, rest)
            } else {
                waiting(alloc, refusal, due)
            }
        }
        [] => waiting(alloc, refusal, due),
    }
}

/// A part of this name begins.
pub(crate) fn part_taken(
    alloc: Global,
    plan: &Plan,
    live: Option<u64>,
    trial: &Trial,
    name: PartName,
) -> Result<Trial, AllocError>
    requires { keeping.IsTrial plan.now trial.now }
    ensures value { IfOk result (λ next. next ≡ spec.part_taken plan.now live trial.now name) }
    ensures kept { IfOk result (λ next. keeping.IsTrial plan.now next) }
{
    refutes_exactly();
    checkers_are_exact();
    refuted_has_no_model();
    let (refusal, due) = passed(refusal_so_far(trial), trial.due.as_slice(), name);
    begun(alloc, plan, live, name, refusal, due)
}

fn present_step(
    alloc: Global,
    present: Option<Present>,
    step: &ProofStep,
) -> Result<Option<Present>, AllocError>
    ensures { IfOk result (λ next. next ≡ spec.present_step present step.now) }
{
    let Some(Present { name, checker }) = present else {
        return Ok(None);
    };
    let checker = checker.step(alloc, step)?;
    Ok(Some(Present { name, checker }))
}

/// A step of the part that has begun.
pub(crate) fn step_taken(alloc: Global, trial: Trial, step: &ProofStep) -> Result<Trial, AllocError>
    ensures value { IfOk result (λ next. next ≡ spec.step_taken trial step.now) }
    ensures kept { (plan : PlanParts) → keeping.IsTrial plan trial → IfOk result (λ next. keeping.IsTrial plan next) }
{
    let Trial {
        due,
        present,
        refusal,
    } = trial;
    let present = present_step(alloc, present, step)?;
    Ok(Trial {
        due,
        present,
        refusal,
    })
}

/// The live clauses of steps of the part that is under way.
pub(crate) fn held_of(present: &Option<Present>) -> &[Clause]
    ensures { result.now ≡ spec.held_of present.now }
{
    match present {
        Some(present) => present.checker.held(),
        None => &[],
    }
}

fn missing(due: &[PartName]) -> Option<Refusal>
    ensures { result ≡ spec.missing due.now }
{
    match due {
        [] => None,
        [next, ..] => Some(Refusal::Missing(*next)),
    }
}

/// The first refusal, where all parts are over.
pub(crate) fn refusal_at_end(trial: &Trial) -> Option<Refusal>
    ensures { result ≡ spec.refusal_at_end trial.now }
{
    first_of(refusal_so_far(trial), missing(trial.due.as_slice()))
}
