//! Proofs, trimmed.
ghost use Rattle.std.specs.Prelude.{◌≡◌, ◌+◌, ◌++◌, ◌<◌, ◌≤◌, ◌^◌, IfOk, None, Some, true, false, length};
ghost use Rattle.std.specs.List.{list_all};
ghost use Rattle.lucy_cert.specs.Refuting.{Refutes};
ghost use Rattle.lucy_cert.specs.Writable.{step_fits};
ghost use Rattle.lucy_trim.specs.Trimming.{has_no_drops, trimmed, live_of, with_added, adds_empty};
ghost use Rattle.lucy_trim.specs.Steps as spec;

use crate::copies::step_copied;
use crate::counting::most_live;
use crate::laws::{trimmed_is_writable, trimmed_refutes};
use crate::parting::{Split, parted};
use crate::uses::{Uses, uses_of};
use lucy_cert::{ClauseNumbers, Proof, ProofStep};
use lucy_clauses::Formula;
use sqlite_items::Items;
use std::alloc::{AllocError, Global};

/// What has been trimmed of a proof.
#[derive(Drop)]
pub struct Trimming {
    /// The steps so far, with their drops.
    pub steps: Items<ProofStep>,
    /// The numbers of the clauses, none of them empty, that steps added and no drop has named.
    pub held: Items<u64>,
    /// The number of the clause that the next step adds.
    pub at: u64,
}

fn adds_empty(step: &ProofStep) -> bool
    ensures { result ≡ adds_empty step.now }
{
    match step {
        ProofStep::Lemma { clause, .. } | ProofStep::Rup { clause, .. } => {
            clause.atoms.as_slice().is_empty()
        }
        ProofStep::Drop { .. } => false,
    }
}

fn with_added(held: Items<u64>, at: u64, step: &ProofStep) -> Result<Items<u64>, AllocError>
    ensures { IfOk result (λ ns. ns ≡ with_added held at step.now) }
{
    let mut held = held;
    if !adds_empty(step) {
        held.push(at)?;
    }
    Ok(held)
}

fn with_drop(steps: Items<ProofStep>, numbers: Items<u64>) -> Result<Items<ProofStep>, AllocError>
    ensures { IfOk result (λ ss. ss ≡ steps ++ spec.drop_of numbers) }
{
    let mut steps = steps;
    if let Some(clauses) = ClauseNumbers::new(numbers) {
        steps.push(ProofStep::Drop { clauses })?;
    }
    Ok(steps)
}

// The number behind another one.
fn behind(number: u64) -> Result<u64, AllocError>
    ensures { IfOk result (λ n. n ≡ number + 1) }
{
    match number.checked_add(1) {
        Some(next) => Ok(next),
        None => Err(AllocError),
    }
}

// One step more, so that so many are passed.
fn with_step(
    alloc: Global,
    trimming: Trimming,
    step: &ProofStep,
    passed: u64,
    uses: &Uses,
) -> Result<Trimming, AllocError>
    ensures { IfOk result (λ t. t ≡ spec.with_step uses.now.first uses.now.last passed trimming step.now) }
{
    let Trimming { steps, held, at } = trimming;
    let mut steps = steps;
    let held = with_added(held, at, step)?;
    let Split { used, used_up } = parted(alloc, uses, passed, held.as_slice())?;
    let copy = step_copied(alloc, step)?;
    steps.push(copy)?;
    let steps = with_drop(steps, used_up)?;
    let at = behind(at)?;
    Ok(Trimming {
        steps,
        held: used,
        at,
    })
}

// All steps.
fn with_steps(alloc: Global, uses: &Uses, steps: &[ProofStep]) -> Result<Trimming, AllocError>
    ensures { IfOk result (λ t. t ≡ spec.with_steps uses.now.first uses.now.last 0 (spec.begun uses.now.first) steps.now) }
{
    let mut trimming = Trimming {
        steps: Items::new(alloc),
        held: Items::new(alloc),
        at: uses.first,
    };
    for (passed, step) in steps.iter().enumerate() {
        trimming = with_step(alloc, trimming, step, passed as u64 + 1, uses)?;
    }
    Ok(trimming)
}

// A number has 64 bits.
fn narrow(number: u64)
    ensures { number < 2 ^ 64 }
{
    let _number = number;
}

// The steps, each of them followed by a drop of what no later step names.
pub(crate) fn trimmed(alloc: Global, formula: &Formula, proof: &Proof) -> Result<Proof, AllocError>
    ensures proof { IfOk result (λ p. p ≡ trimmed formula.now proof.now) }
    ensures few { IfOk result (λ _. length formula.now.clauses + length proof.now.steps ≤ 2 ^ 64) }
{
    let first = formula.clauses.len() as u64;
    let uses = uses_of(alloc, first, proof.steps.as_slice())?;
    let trimming = with_steps(alloc, &uses, proof.steps.as_slice())?;
    narrow(trimming.at);
    Ok(Proof {
        steps: trimming.steps,
    })
}

/// The proof, in which each step is followed by a drop of the clauses of steps, not empty, that no later step names as
/// a hint and that were not dropped, where there is one; and the greatest number of clauses that are added and not
/// dropped after any step. The proof has no drops and refutes the formula. What comes of it refutes the formula with
/// that number, and can be written where the proof can.
pub fn trim(alloc: Global, formula: &Formula, proof: &Proof) -> Result<(Proof, u64), AllocError>
    requires no_drops { has_no_drops proof.now ≡ true }
    requires refutes { Refutes formula.now proof.now None }
    ensures proof { IfOk result (λ r. r.0 ≡ trimmed formula.now proof.now) }
    ensures live { IfOk result (λ r. r.1 ≡ live_of (trimmed formula.now proof.now)) }
    ensures refutes { IfOk result (λ r. Refutes formula.now r.0 (Some r.1)) }
    ensures writable { IfOk result (λ r. list_all (step_fits false) proof.now.steps ≡ true → list_all (step_fits true) r.0.steps ≡ true) }
{
    trimmed_refutes();
    trimmed_is_writable();
    let trimmed = trimmed(alloc, formula, proof)?;
    let live = most_live(&trimmed)?;
    Ok((trimmed, live))
}
