//! Steps once more.
ghost use Rattle.std.specs.Prelude.{◌≡◌, IfOk};

use lucy_cert::{ClauseNumbers, ProofStep};
use lucy_clauses::{Clause, Line};
use sqlite_items::Items;
use std::alloc::{AllocError, Global};

fn line_copied(alloc: Global, line: &Line) -> Result<Line, AllocError>
    ensures { IfOk result (λ l. l ≡ line.now) }
{
    match line {
        Line::Sum(terms) => {
            let terms = Items::from_slice(alloc, terms.as_slice())?;
            Ok(Line::Sum(terms))
        }
        Line::Divide { by, of } => Ok(Line::Divide { by: *by, of: *of }),
    }
}

fn lines_copied(alloc: Global, lines: &[Line]) -> Result<Items<Line>, AllocError>
    ensures { IfOk result (λ ls. ls ≡ lines.now) }
{
    let mut copies = Items::new(alloc);
    for line in lines {
        let copy = line_copied(alloc, line)?;
        copies.push(copy)?;
    }
    Ok(copies)
}

fn lemma_copied(alloc: Global, clause: &Clause, lines: &[Line]) -> Result<ProofStep, AllocError>
    ensures { IfOk result (λ s. s ≡ ProofStep.Lemma clause.now lines.now) }
{
    let lines = lines_copied(alloc, lines)?;
    let clause = clause.copied(alloc)?;
    Ok(ProofStep::Lemma { clause, lines })
}

fn rup_copied(alloc: Global, clause: &Clause, hints: &[u64]) -> Result<ProofStep, AllocError>
    ensures { IfOk result (λ s. s ≡ ProofStep.Rup clause.now hints.now) }
{
    let hints = Items::from_slice(alloc, hints)?;
    let clause = clause.copied(alloc)?;
    Ok(ProofStep::Rup { clause, hints })
}

fn drop_copied(alloc: Global, numbers: &ClauseNumbers) -> Result<ProofStep, AllocError>
    ensures { IfOk result (λ s. s ≡ ProofStep.Drop numbers.now) }
{
    numbers.facts();
    let copy = Items::from_slice(alloc, numbers.as_slice())?;
    match ClauseNumbers::new(copy) {
        Some(clauses) => Ok(ProofStep::Drop { clauses }),
        None => Err(AllocError),
    }
}

/// The same step once more.
pub fn step_copied(alloc: Global, step: &ProofStep) -> Result<ProofStep, AllocError>
    ensures { IfOk result (λ s. s ≡ step.now) }
{
    match step {
        ProofStep::Lemma { clause, lines } => lemma_copied(alloc, clause, lines.as_slice()),
        ProofStep::Rup { clause, hints } => rup_copied(alloc, clause, hints.as_slice()),
        ProofStep::Drop { clauses } => drop_copied(alloc, clauses),
    }
}
