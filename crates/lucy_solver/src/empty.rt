//! Ranges with no number.
ghost use Rattle.std.specs.Prelude.{◌≡◌, ◌∷◌, [], IfOk, IfSome, None, length, ◌<◌, ◌^◌, true, int_le};
ghost use Rattle.std.specs.List.{list_all};
ghost use Rattle.lucy_clauses.specs.declared.formulas.Range.{Range};
ghost use Rattle.lucy_solver.specs.Empty.{IsEmpty, range_times, no_atoms};
ghost use Rattle.lucy_solver.specs.Shows.{lemma_step, sum_line};

use lucy_cert::{Proof, ProofStep};
use lucy_clauses::{Clause, Line, Range, Ref, Times};
use sqlite_items::Items;
use std::alloc::{AllocError, Global};

/// The first variable whose range has no number; none exactly where each range has one.
pub fn empty_range(ranges: &[Range]) -> Option<u32>
    requires { length ranges.now < 2 ^ 32 }
    ensures empty { IfSome result (λ v. IsEmpty ranges.now v) }
    ensures none { result ≡ None → list_all (λ (r : Range). int_le r.lo r.hi) ranges.now ≡ true }
{
    for (i, range) in ranges.iter().enumerate() {
        if range.hi < range.lo {
            return Some(i as u32);
        }
    }
    None
}

/// The proof that a variable with no number refutes the formula: one lemma, the sum of its two bounds.
pub fn refuted_range(alloc: Global, variable: u32) -> Result<Proof, AllocError>
    ensures { IfOk result (λ p. p ≡ record { steps = lemma_step no_atoms (sum_line (range_times variable) ∷ []) ∷ [] }) }
{
    let mut times = Vec::new(alloc);
    times.push(Times {
        by: 1,
        of: Ref::Low(variable),
    })?;
    times.push(Times {
        by: 1,
        of: Ref::High(variable),
    })?;
    let mut lines = Vec::new(alloc);
    lines.push(Line::Sum(Items::from_vec(times)))?;
    let mut steps = Vec::new(alloc);
    steps.push(ProofStep::Lemma {
        clause: Clause {
            atoms: Items::from_vec(Vec::new(alloc)),
        },
        lines: Items::from_vec(lines),
    })?;
    Ok(Proof {
        steps: Items::from_vec(steps),
    })
}
