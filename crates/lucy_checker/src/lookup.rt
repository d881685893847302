//! The clauses that a hint may name.
ghost use Rattle.std.specs.Prelude.{◌≡◌};
ghost use Rattle.std.specs.Option.{option_copied};
ghost use Rattle.lucy_checker.specs.Lookup.{added_clause, among_steps};

use lucy_cert::ProofStep;
use lucy_clauses::Clause;

/// Clauses by their numbers.
pub trait Lookup {
    ghost use Rattle.std.specs.Prelude.{ℕ, Option};
    ghost use Rattle.lucy_clauses.specs.declared.formulas.Clause.{Clause};

    ghost at: { Self → ℕ → Option Clause };

    /// The clause of this number, where it is there.
    fn clause(&self, number: u64) -> Option<&Clause>
        ensures { option_copied result ≡ at self.now number };
}

/// The clauses of a formula and those of steps none of which drops clauses.
#[derive(Drop)]
pub struct Earlier<'a> {
    /// The clauses of the formula.
    pub clauses: &'a [Clause],
    /// The steps.
    pub steps: &'a [ProofStep],
}

fn added_clause(step: &ProofStep) -> Option<&Clause>
    ensures { option_copied result ≡ added_clause step.now }
{
    match step {
        ProofStep::Lemma { clause, .. } => Some(clause),
        ProofStep::Rup { clause, .. } => Some(clause),
        ProofStep::Drop { .. } => None,
    }
}

fn among_steps<'a>(clauses: &'a [Clause], steps: &'a [ProofStep], number: u64) -> Option<&'a Clause>
    ensures { option_copied result ≡ among_steps clauses.now steps.now number }
{
    if number < clauses.len() as u64 {
        return clauses.get(number as usize);
    }
    match steps.get((number - clauses.len() as u64) as usize) {
        Some(step) => added_clause(step),
        None => None,
    }
}

impl Lookup for Earlier<'_> {
    ghost use Rattle.lucy_checker.specs.Lookup.{among_steps};

    ghost at = { λ e n. among_steps e.clauses.now e.steps.now n };

    fn clause(&self, number: u64) -> Option<&Clause> {
        among_steps(self.clauses, self.steps, number)
    }
}
