//! Propagation: hints that make one atom true after another, until a clause has none left.
ghost use Rattle.std.specs.Prelude.{◌≡◌, ◌==◌, ◌∷◌, [], ◌+◌, ◌<◌, IfOk, MatchOption, map, if◌then◌else◌};
ghost use Rattle.lucy_clauses.specs.Sums.{complement};
ghost use Rattle.lucy_cert.specs.Justified.{rup_fault};
ghost use Rattle.lucy_checker.specs.Propagation.{open_under};

use crate::falses::{Falses, falses_of};
use crate::lookup::Lookup;
use lucy_cert::Why;
use lucy_clauses::Atom;
use std::alloc::{AllocError, Global};

// The first atom that is not false, and the atoms behind it.
fn first_open<'a>(falses: &Falses, atoms: &'a [Atom]) -> Option<(&'a Atom, &'a [Atom])>
    ensures { MatchOption result (open_under falses.now atoms.now ≡ []) (λ first. open_under falses.now atoms.now ≡ first.0.now ∷ open_under falses.now first.1.now) }
{
    for (i, atom) in atoms.iter().enumerate() {
        if !falses.contains(atom) {
            return Some((atom, &atoms[i + 1..]));
        }
    }
    None
}

fn complement(alloc: Global, atom: &Atom) -> Result<Atom, AllocError>
    ensures { IfOk result (λ other. other ≡ complement atom.now) }
{
    let mut other = atom.copied(alloc)?;
    other.complement();
    Ok(other)
}

// A hint that leaves no atom is the last one.
fn conflict_fault(place: usize, count: usize) -> Option<Why>
    requires { place < count }
    ensures { result ≡ (if place + 1 == count then None else Some Why.NoConflict) }
{
    if place + 1 == count {
        None
    } else {
        Some(Why::NoConflict)
    }
}

/// Why the hints do not lead from false atoms to a clause whose atoms are all false.
pub fn rup_fault<L: Lookup>(
    alloc: Global,
    known: &L,
    atoms: &[Atom],
    hints: &[u64],
) -> Result<Option<Why>, AllocError>
    ensures { IfOk result (λ fault. fault ≡ rup_fault (L.at known.now) (map complement atoms.now) hints.now) }
{
    let mut falses = falses_of(alloc, atoms)?;
    for (i, hint) in hints.iter().enumerate() {
        let Some(clause) = known.clause(*hint) else {
            return Ok(Some(Why::Unknown));
        };
        let Some((atom, rest)) = first_open(&falses, clause.atoms.as_slice()) else {
            return Ok(conflict_fault(i, hints.len()));
        };
        if first_open(&falses, rest).is_some() {
            return Ok(Some(Why::NoConflict));
        }
        falses.add(complement(alloc, atom)?)?;
    }
    Ok(Some(Why::NoConflict))
}
