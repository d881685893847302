//! One step tested behind steps that are known to be justified.
ghost use Rattle.std.specs.Prelude.{◌≡◌, ◌+◌, ◌&&◌, nat_le, nat_lt, true, length, map, None, IfOk};
ghost use Rattle.lucy_clauses.specs.Sums.{complement};
ghost use Rattle.lucy_cert.specs.Justified.{nothing, where_known, rup_fault, step_fault};
ghost use Rattle.lucy_cert.specs.Refuting.{known_after};
ghost use Rattle.lucy_checker.specs.Lookup.{no_drops, among_steps, numbers_fault};

use crate::lookup::Earlier;
use crate::rules::{lemma_step, rup_step};
use lucy_cert::{ProofStep, Why};
use lucy_clauses::{Clause, Formula, Range};
use std::alloc::{AllocError, Global};

fn rup_behind(
    alloc: Global,
    ranges: &[Range],
    clauses: &[Clause],
    steps: &[ProofStep],
    clause: &Clause,
    hints: &[u64],
) -> Result<Option<Why>, AllocError>
    ensures { IfOk result (λ why. why ≡ where_known (length ranges.now) clause.now (rup_fault (among_steps clauses.now steps.now) (map complement clause.now.atoms) hints.now)) }
{
    let earlier = Earlier { clauses, steps };
    rup_step(alloc, ranges, &earlier, clause, hints)
}

fn is_of_step(count: usize, added: usize, number: u64) -> bool
    ensures { result ≡ (nat_le count number && nat_lt number (count + added)) }
{
    number >= count as u64 && number - (count as u64) < added as u64
}

fn numbers_fault(count: usize, added: usize, numbers: &[u64]) -> Option<Why>
    ensures { result ≡ numbers_fault count added numbers.now }
{
    for number in numbers {
        if !is_of_step(count, added, *number) {
            return Some(Why::Unknown);
        }
    }
    None
}

/// Why a step is not justified by the formula and the steps before it, none of which drops clauses; no number of live
/// clauses is too many.
pub fn step_fault(
    alloc: Global,
    formula: &Formula,
    earlier: &[ProofStep],
    step: &ProofStep,
) -> Result<Option<Why>, AllocError>
    requires { no_drops earlier.now ≡ true }
    ensures { IfOk result (λ why. why ≡ step_fault formula.now None (known_after nothing earlier.now) step.now) }
{
    match step {
        ProofStep::Lemma { clause, lines } => {
            lemma_step(alloc, formula.ranges.as_slice(), clause, lines.as_slice())
        }
        ProofStep::Rup { clause, hints } => rup_behind(
            alloc,
            formula.ranges.as_slice(),
            formula.clauses.as_slice(),
            earlier,
            clause,
            hints.as_slice(),
        ),
        ProofStep::Drop { clauses } => Ok(numbers_fault(
            formula.clauses.len(),
            earlier.len(),
            clauses.as_slice(),
        )),
    }
}
