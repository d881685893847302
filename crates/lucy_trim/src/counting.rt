//! How many clauses of steps are live at the most.
ghost use Rattle.std.specs.Prelude.{◌≡◌, ◌+◌, IfOk, length};
ghost use Rattle.lucy_trim.specs.Trimming.{live_of, added_by, dropped_by};

use lucy_cert::{Proof, ProofStep};
use std::alloc::AllocError;

/// How many clauses were added and dropped.
#[derive(Clone, Copy)]
struct Counts {
    added: u64,
    dropped: u64,
}

fn added(count: u64, more: u64) -> Result<u64, AllocError>
    ensures { IfOk result (λ n. n ≡ count + more) }
{
    match count.checked_add(more) {
        Some(sum) => Ok(sum),
        None => Err(AllocError),
    }
}

fn counted(counts: Counts, step: &ProofStep) -> Result<Counts, AllocError>
    ensures added { IfOk result (λ c. c.added ≡ counts.added + added_by step.now) }
    ensures dropped { IfOk result (λ c. c.dropped ≡ counts.dropped + dropped_by step.now) }
{
    match step {
        ProofStep::Lemma { .. } | ProofStep::Rup { .. } => Ok(Counts {
            added: added(counts.added, 1)?,
            dropped: counts.dropped,
        }),
        ProofStep::Drop { clauses } => Ok(Counts {
            added: counts.added,
            dropped: added(counts.dropped, clauses.as_slice().len() as u64)?,
        }),
    }
}

/// The greatest number of clauses that are added and not dropped after any step.
pub fn most_live(proof: &Proof) -> Result<u64, AllocError>
    ensures { IfOk result (λ n. n ≡ live_of proof.now) }
{
    let mut counts = Counts {
        added: 0,
        dropped: 0,
    };
    let mut most = 0;
    for step in proof.steps.as_slice() {
        counts = counted(counts, step)?;
        most = counts.added.saturating_sub(counts.dropped).max(most);
    }
    Ok(most)
}
