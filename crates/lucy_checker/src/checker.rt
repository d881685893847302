//! A checker that is given the steps of a proof one by one, and the check of a whole proof.
ghost use Rattle.std.specs.Prelude.{◌≡◌, ◌↔◌, IfOk};
ghost use Rattle.lucy_cert.specs.Refuting.{fault_of, Refutes};
ghost use Rattle.lucy_checker.specs.Checking.{Says};

use crate::progress::{Progress, begun, progressed, verdict_of};
use crate::verdict::Verdict;
use lucy_cert::{Proof, ProofStep};
use lucy_clauses::{Clause, Formula};
use std::alloc::{AllocError, Global};

/// A formula, and what the steps of a proof have come to.
#[derive(Debug, Drop)]
pub struct Checker {
    /// The formula.
    pub formula: Formula,
    /// What the steps have come to.
    pub progress: Progress,
}

impl Checker {
    ghost use Rattle.lucy_checker.specs.Checkers.{checker_of, checked, checker_fault};

    /// A checker that was given no step. `live` is the most clauses of steps that may be added and not dropped after
    /// any step.
    pub fn new(alloc: Global, formula: Formula, live: Option<u64>) -> Checker
        ensures { result ≡ checker_of formula live }
    {
        let progress = begun(alloc, &formula, live);
        Checker { formula, progress }
    }

    /// The checker that was given one step more. Steps behind the first that is not justified are not looked at.
    pub fn step(self, alloc: Global, step: &ProofStep) -> Result<Checker, AllocError>
        ensures { IfOk result (λ next. next ≡ checked self step.now) }
    {
        let Checker { formula, progress } = self;
        let progress = progressed(alloc, &formula, progress, step)?;
        Ok(Checker { formula, progress })
    }

    /// The clauses of steps that are added and not dropped, in order; none behind a step that is not justified.
    pub fn held(&self) -> &[Clause]
        ensures { result.now ≡ self.now.progress.held.clauses }
    {
        self.progress.held.clauses()
    }

    /// The verdict, where the steps are over.
    pub fn verdict(&self) -> Verdict
        ensures { Says (checker_fault self.now) result }
    {
        verdict_of(&self.progress)
    }
}

/// Whether the proof refutes the formula with at most so many live clauses: `Refuted` exactly where each step is
/// justified and some clause of the formula or of a step is empty, else the first step that is not justified.
pub fn check(
    alloc: Global,
    formula: &Formula,
    proof: &Proof,
    live: Option<u64>,
) -> Result<Verdict, AllocError>
    ensures exact { IfOk result (λ verdict. Says (fault_of formula.now proof.now live) verdict) }
    ensures refuted { IfOk result (λ verdict. (verdict ≡ Verdict.Refuted) ↔ Refutes formula.now proof.now live) }
{
    let mut progress = begun(alloc, formula, live);
    for step in proof.steps.as_slice() {
        progress = progressed(alloc, formula, progress, step)?;
    }
    Ok(verdict_of(&progress))
}
