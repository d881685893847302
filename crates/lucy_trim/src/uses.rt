//! Where the clauses of steps are last named as hints.
ghost use Rattle.std.specs.Prelude.{◌≡◌, ◌+◌, IfOk, length, slice_index};
ghost use Rattle.lucy_trim.specs.Trimming.{hints_of};
ghost use Rattle.lucy_trim.specs.Uses as spec;

use lucy_cert::ProofStep;
use sqlite_items::Items;
use std::alloc::{AllocError, Global};

/// For each clause of a step, how many steps there are up to the last one that names it as a hint, that one among
/// them; 0 where none does.
#[derive(Drop)]
pub struct Uses {
    /// The number of the first clause of a step.
    pub first: u64,
    /// The numbers of steps.
    pub last: Items<u64>,
}

fn note(last: &mut Items<u64>, first: u64, steps: u64, hint: u64)
    ensures { last.new ≡ spec.note first steps last.old hint }
{
    if let Some(place) = hint.checked_sub(first) {
        if place < last.len() as u64 {
            last.set(place as usize, steps);
        }
    }
}

fn note_hints(last: &mut Items<u64>, first: u64, steps: u64, hints: &[u64])
    ensures { last.new ≡ spec.noted first steps last.old hints.now }
{
    for hint in hints {
        note(last, first, steps, *hint);
    }
}

fn note_step(last: &mut Items<u64>, first: u64, steps: u64, step: &ProofStep)
    ensures { last.new ≡ spec.noted first steps last.old (hints_of step.now) }
{
    match step {
        ProofStep::Rup { clause: _, hints } => note_hints(last, first, steps, hints.as_slice()),
        ProofStep::Lemma { .. } | ProofStep::Drop { .. } => {}
    }
}

fn zeros(alloc: Global, steps: &[ProofStep]) -> Result<Items<u64>, AllocError>
    ensures { IfOk result (λ last. last ≡ spec.zeros steps.now) }
{
    let mut last = Items::new(alloc);
    for _step in steps {
        last.push(0)?;
    }
    Ok(last)
}

/// Where the clauses of the steps are last named; the first of these clauses has the number `first`.
pub fn uses_of(alloc: Global, first: u64, steps: &[ProofStep]) -> Result<Uses, AllocError>
    ensures first { IfOk result (λ uses. uses.first ≡ first) }
    ensures last { IfOk result (λ uses. uses.last ≡ spec.last_uses first steps.now) }
{
    let mut last = zeros(alloc, steps)?;
    for (passed, step) in steps.iter().enumerate() {
        note_step(&mut last, first, passed as u64 + 1, step);
    }
    Ok(Uses { first, last })
}

impl Uses {
    /// Whether a step behind so many names the clause of a number.
    pub fn is_used_behind(&self, steps: u64, number: u64) -> bool
        ensures { result ≡ spec.is_used_behind self.now.first self.now.last steps number }
    {
        match self.last.get(number.saturating_sub(self.first) as usize) {
            Some(last) => steps < *last,
            None => false,
        }
    }
}
