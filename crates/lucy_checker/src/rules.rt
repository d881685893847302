//! The rules of lemmas and of propagation.
ghost use Rattle.std.specs.Prelude.{◌≡◌, IfOk, length, map};
ghost use Rattle.lucy_clauses.specs.Sums.{complement};
ghost use Rattle.lucy_clauses.specs.Formulas.{names_below};
ghost use Rattle.lucy_cuts.specs.Deriving.{named};
ghost use Rattle.lucy_cert.specs.Justified.{names_known, where_known, lemma_fault, rup_fault, why_of};

use crate::lookup::Lookup;
use crate::propagation::rup_fault;
use lucy_cert::Why;
use lucy_clauses::{Clause, Line, Part, Range};
use lucy_cuts::{Cause, unjustified_line};
use std::alloc::{AllocError, Global};

fn names_below(parts: &[Part], count: usize) -> bool
    ensures { result ≡ names_below count parts.now }
{
    for part in parts {
        if part.variable as usize >= count {
            return false;
        }
    }
    true
}

fn names_known(clause: &Clause, count: usize) -> bool
    ensures { result ≡ names_known count clause.now }
{
    for atom in clause.atoms.as_slice() {
        if !names_below(&atom.parts, count) {
            return false;
        }
    }
    true
}

fn why_of(cause: Cause) -> Why
    ensures { result ≡ why_of (named cause) }
{
    match cause {
        Cause::Unknown => Why::Unknown,
        Cause::TooWide => Why::TooWide,
        Cause::NoConflict => Why::NoConflict,
    }
}

fn lemma_fault(
    alloc: Global,
    ranges: &[Range],
    clause: &Clause,
    lines: &[Line],
) -> Result<Option<Why>, AllocError>
    ensures { IfOk result (λ why. why ≡ lemma_fault ranges.now clause.now.atoms lines.now) }
{
    match unjustified_line(alloc, clause, ranges, lines)? {
        Some(fault) => Ok(Some(why_of(fault.cause))),
        None => Ok(None),
    }
}

/// Why the lines do not show that the clause holds within the ranges.
pub fn lemma_step(
    alloc: Global,
    ranges: &[Range],
    clause: &Clause,
    lines: &[Line],
) -> Result<Option<Why>, AllocError>
    ensures { IfOk result (λ why. why ≡ where_known (length ranges.now) clause.now (lemma_fault ranges.now clause.now.atoms lines.now)) }
{
    if !names_known(clause, ranges.len()) {
        return Ok(Some(Why::Unknown));
    }
    lemma_fault(alloc, ranges, clause, lines)
}

/// Why the hints do not show that the clause holds where the known clauses do.
pub fn rup_step<L: Lookup>(
    alloc: Global,
    ranges: &[Range],
    known: &L,
    clause: &Clause,
    hints: &[u64],
) -> Result<Option<Why>, AllocError>
    ensures { IfOk result (λ why. why ≡ where_known (length ranges.now) clause.now (rup_fault (L.at known.now) (map complement clause.now.atoms) hints.now)) }
{
    if !names_known(clause, ranges.len()) {
        return Ok(Some(Why::Unknown));
    }
    rup_fault(alloc, known, clause.atoms.as_slice(), hints)
}
