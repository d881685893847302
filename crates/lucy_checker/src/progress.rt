//! A proof checked a step at a time.
ghost use Rattle.std.specs.Prelude.{◌≡◌, ◌+◌, IfOk, fold, length, map};
ghost use Rattle.std.specs.List.{list_any};
ghost use Rattle.std.specs.Option.{option_copied};
ghost use Rattle.lucy_clauses.specs.Sums.{complement};
ghost use Rattle.lucy_cert.specs.Justified.{where_known, rup_fault, live_fault};
ghost use Rattle.lucy_cert.specs.Refuting.{is_empty};
ghost use Rattle.lucy_checker.specs.Held.{kept_without};
ghost use Rattle.lucy_checker.specs.Checking as spec;

use crate::held::Held;
use crate::lookup::Lookup;
use crate::rules::{lemma_step, rup_step};
use crate::verdict::Verdict;
use lucy_cert::{ProofStep, Why};
use lucy_clauses::{Clause, Formula, Range};
use std::alloc::{AllocError, Global};

/// The first step that is not justified.
#[derive(Clone, Copy, Debug, PartialEq, Eq)]
pub struct Fault {
    /// The step, from 0.
    pub step: u64,
    /// Why it is not justified.
    pub why: Why,
}

/// What the steps of a proof have come to.
#[derive(Debug, Drop)]
pub struct Progress {
    /// The most clauses of steps that may be live.
    pub most: Option<u64>,
    /// The steps that were justified.
    pub steps: u64,
    /// The clauses that they added.
    pub added: u64,
    /// The clauses that they dropped.
    pub dropped: u64,
    /// The clauses that were added and not dropped; none behind a step that is not justified.
    pub held: Held,
    /// Some clause of the formula or of a step is empty.
    pub empty: bool,
    /// The first step that is not justified.
    pub fault: Option<Fault>,
}

// The clauses of the formula and those that are held.
#[derive(Drop)]
struct Present<'a> {
    clauses: &'a [Clause],
    held: &'a Held,
}

fn clause_in<'a>(clauses: &'a [Clause], held: &'a Held, number: u64) -> Option<&'a Clause>
    ensures { option_copied result ≡ spec.clause_in clauses.now held.now number }
{
    if number < clauses.len() as u64 {
        return clauses.get(number as usize);
    }
    held.get(number)
}

impl Lookup for Present<'_> {
    ghost use Rattle.lucy_checker.specs.Checking.{clause_in};

    ghost at = { λ p n. clause_in p.clauses.now p.held.now n };

    fn clause(&self, number: u64) -> Option<&Clause> {
        clause_in(self.clauses, self.held, number)
    }
}

fn all_kept(held: &Held, numbers: &[u64]) -> bool
    ensures { result ≡ spec.all_kept held.now.numbers numbers.now }
{
    for number in numbers {
        if !held.contains(*number) {
            return false;
        }
    }
    true
}

fn drop_fault(held: &Held, numbers: &[u64]) -> Option<Why>
    ensures { result ≡ spec.drop_fault held.now.numbers numbers.now }
{
    if all_kept(held, numbers) {
        None
    } else {
        Some(Why::Unknown)
    }
}

fn rup_present(
    alloc: Global,
    ranges: &[Range],
    clauses: &[Clause],
    held: &Held,
    clause: &Clause,
    hints: &[u64],
) -> Result<Option<Why>, AllocError>
    ensures { IfOk result (λ why. why ≡ where_known (length ranges.now) clause.now (rup_fault (spec.clause_in clauses.now held.now) (map complement clause.now.atoms) hints.now)) }
{
    let present = Present { clauses, held };
    rup_step(alloc, ranges, &present, clause, hints)
}

fn rule_fault(
    alloc: Global,
    formula: &Formula,
    held: &Held,
    step: &ProofStep,
) -> Result<Option<Why>, AllocError>
    ensures { IfOk result (λ why. why ≡ spec.rule_fault formula.now held.now step.now) }
{
    match step {
        ProofStep::Lemma { clause, lines } => {
            lemma_step(alloc, formula.ranges.as_slice(), clause, lines.as_slice())
        }
        ProofStep::Rup { clause, hints } => rup_present(
            alloc,
            formula.ranges.as_slice(),
            formula.clauses.as_slice(),
            held,
            clause,
            hints.as_slice(),
        ),
        ProofStep::Drop { clauses } => Ok(drop_fault(held, clauses.as_slice())),
    }
}

// A count with more. No text has 2^64 steps.
fn counted(count: u64, more: u64) -> Result<u64, AllocError>
    ensures { IfOk result (λ sum. sum ≡ count + more) }
{
    match count.checked_add(more) {
        Some(sum) => Ok(sum),
        None => Err(AllocError),
    }
}

fn added_after(added: u64, step: &ProofStep) -> Result<u64, AllocError>
    ensures { IfOk result (λ count. count ≡ spec.added_after added step.now) }
{
    match step {
        ProofStep::Lemma { .. } => counted(added, 1),
        ProofStep::Rup { .. } => counted(added, 1),
        ProofStep::Drop { .. } => Ok(added),
    }
}

fn dropped_after(dropped: u64, step: &ProofStep) -> Result<u64, AllocError>
    ensures { IfOk result (λ count. count ≡ spec.dropped_after dropped step.now) }
{
    match step {
        ProofStep::Lemma { .. } => Ok(dropped),
        ProofStep::Rup { .. } => Ok(dropped),
        ProofStep::Drop { clauses } => counted(dropped, clauses.as_slice().len() as u64),
    }
}

fn live_fault(most: Option<u64>, count: u64) -> Option<Why>
    ensures { result ≡ live_fault most count }
{
    match most {
        Some(most) => {
            if most < count {
                Some(Why::TooMany)
            } else {
                None
            }
        }
        None => None,
    }
}

fn step_fault(
    alloc: Global,
    formula: &Formula,
    progress: &Progress,
    step: &ProofStep,
) -> Result<Option<Why>, AllocError>
    ensures { IfOk result (λ why. why ≡ spec.step_fault formula.now progress.now step.now) }
{
    let broken = rule_fault(alloc, formula, &progress.held, step)?;
    if broken.is_some() {
        return Ok(broken);
    }
    let added = added_after(progress.added, step)?;
    let dropped = dropped_after(progress.dropped, step)?;
    Ok(live_fault(progress.most, added.saturating_sub(dropped)))
}

fn without_all(held: Held, numbers: &[u64]) -> Held
    ensures { result ≡ fold kept_without held numbers.now }
{
    let mut held = held;
    for number in numbers {
        held = held.without(*number);
    }
    held
}

fn kept_after(alloc: Global, held: Held, step: &ProofStep) -> Result<Held, AllocError>
    ensures { IfOk result (λ next. next ≡ spec.kept_after held step.now) }
{
    match step {
        ProofStep::Lemma { clause, .. } => held.with(clause.copied(alloc)?),
        ProofStep::Rup { clause, .. } => held.with(clause.copied(alloc)?),
        ProofStep::Drop { clauses } => Ok(without_all(held, clauses.as_slice())),
    }
}

fn is_empty(clause: &Clause) -> bool
    ensures { result ≡ is_empty clause.now }
{
    clause.atoms.is_empty()
}

fn adds_empty(step: &ProofStep) -> bool
    ensures { result ≡ spec.adds_empty step.now }
{
    match step {
        ProofStep::Lemma { clause, .. } => is_empty(clause),
        ProofStep::Rup { clause, .. } => is_empty(clause),
        ProofStep::Drop { .. } => false,
    }
}

fn some_empty(clauses: &[Clause]) -> bool
    ensures { result ≡ list_any is_empty clauses.now }
{
    for clause in clauses {
        if is_empty(clause) {
            return true;
        }
    }
    false
}

fn advanced(alloc: Global, progress: Progress, step: &ProofStep) -> Result<Progress, AllocError>
    ensures { IfOk result (λ next. next ≡ spec.advanced progress step.now) }
{
    let Progress {
        most,
        steps,
        added,
        dropped,
        held,
        empty,
        fault: _,
    } = progress;
    let held = kept_after(alloc, held, step)?;
    let steps = counted(steps, 1)?;
    let added = added_after(added, step)?;
    let dropped = dropped_after(dropped, step)?;
    Ok(Progress {
        most,
        steps,
        added,
        dropped,
        held,
        empty: empty || adds_empty(step),
        fault: None,
    })
}

fn failed(alloc: Global, progress: Progress, why: Why) -> Progress
    ensures { result ≡ spec.failed progress why }
{
    let Progress {
        most,
        steps,
        added,
        dropped,
        held,
        empty,
        fault: _,
    } = progress;
    Progress {
        most,
        steps,
        added,
        dropped,
        held: held.emptied(alloc),
        empty,
        fault: Some(Fault { step: steps, why }),
    }
}

/// What a step makes of it. Nothing behind the first step that is not justified is looked at.
#[tactic(auto, unfolding(crate::specs::Checking::progressed))]
pub fn progressed(
    alloc: Global,
    formula: &Formula,
    progress: Progress,
    step: &ProofStep,
) -> Result<Progress, AllocError>
    ensures { IfOk result (λ next. next ≡ spec.progressed formula.now progress step.now) }
{
    if progress.fault.is_some() {
        return Ok(progress);
    }
    match step_fault(alloc, formula, &progress, step)? {
        Some(why) => Ok(failed(alloc, progress, why)),
        None => advanced(alloc, progress, step),
    }
}

/// No step yet.
pub fn begun(alloc: Global, formula: &Formula, most: Option<u64>) -> Progress
    ensures { result ≡ spec.begun formula.now most }
{
    Progress {
        most,
        steps: 0,
        added: 0,
        dropped: 0,
        held: Held::new(alloc, formula.clauses.len() as u64),
        empty: some_empty(formula.clauses.as_slice()),
        fault: None,
    }
}

/// The verdict, where the steps are over.
pub fn verdict_of(progress: &Progress) -> Verdict
    ensures { spec.Says (spec.fault_at_end progress.now) result }
{
    if let Some(fault) = progress.fault {
        return Verdict::Rejected {
            step: fault.step,
            why: fault.why,
        };
    }
    if progress.empty {
        return Verdict::Refuted;
    }
    Verdict::Rejected {
        step: progress.steps,
        why: Why::NoEmpty,
    }
}
