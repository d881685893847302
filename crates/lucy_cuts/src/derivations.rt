//! Whole derivations.
ghost use Rattle.std.specs.Prelude.{◌≡◌, ◌<◌, ◌≤◌, ◌^◌, length, IfOk, IfSome, OnOk, List, ℤ, true, None};
ghost use Rattle.std.specs.Option.{option_map};
ghost use Rattle.lucy_clauses.specs.Formulas.{are_within, clause_true};
ghost use Rattle.lucy_clauses.specs.Lines.{unjustified_line};
ghost use Rattle.lucy_cuts.specs.Deriving.{told, Derives};

use crate::causes::{Cause, CutError, Fault, Stop};
use crate::lines::line_form;
use lucy_clauses::{Clause, Line, Range};
use std::alloc::{AllocError, Global};

/// The first line that is not justified by the complements of the clause's atoms, the ranges and the lines before it;
/// where each is justified and the last is no contradiction, the number of lines. None where the derivation shows the
/// clause.
pub fn unjustified_line(
    alloc: Global,
    clause: &Clause,
    ranges: &[Range],
    lines: &[Line],
) -> Result<Option<Fault>, AllocError>
    ensures exact { IfOk result (λ fault. option_map told fault ≡ unjustified_line clause.now.atoms ranges.now lines.now) }
    ensures within { IfOk result (λ fault. IfSome fault (λ f. f.line ≤ length lines.now)) }
{
    let mut done = Vec::new(alloc);
    let mut ends = false;
    for (i, line) in lines.iter().enumerate() {
        match line_form(
            alloc,
            clause.atoms.as_slice(),
            ranges,
            done.as_slice(),
            line,
        ) {
            Ok(derived) => {
                ends = derived.is_contradiction();
                done.push(derived)?;
            }
            Err(Stop::Unjustified(cause)) => return Ok(Some(Fault { line: i, cause })),
            Err(Stop::OutOfMemory) => return Err(AllocError),
        }
    }
    if ends {
        return Ok(None);
    }
    Ok(Some(Fault {
        line: lines.len(),
        cause: Cause::NoConflict,
    }))
}

/// Whether the lines show the clause: `Ok` exactly where each is justified and the last is a contradiction, else the
/// first line that is not justified with its cause. There are fewer than 2^32 lines.
pub fn derive(
    alloc: Global,
    clause: &Clause,
    ranges: &[Range],
    lines: &[Line],
) -> Result<(), CutError>
    requires { length lines.now < 2 ^ 32 }
    ensures exact { Derives (unjustified_line clause.now.atoms ranges.now lines.now) result }
    ensures sound { OnOk result ((a : List ℤ) → are_within ranges.now a ≡ true → clause_true a clause.now ≡ true) }
{
    let Ok(found) = unjustified_line(alloc, clause, ranges, lines) else {
        return Err(CutError::OutOfMemory);
    };
    let Some(fault) = found else {
        return Ok(());
    };
    let line = fault.line as u32;
    match fault.cause {
        Cause::Unknown => Err(CutError::Unknown(line)),
        Cause::TooWide => Err(CutError::TooWide(line)),
        Cause::NoConflict => Err(CutError::NoConflict(line)),
    }
}
