//! A small refutation, trimmed.

use crate::counting::most_live;
use crate::trimming::trimmed;
use lucy_cert::{Proof, ProofStep};
use lucy_clauses::{Atom, Clause, Formula, Range, at_least, at_most};
use sqlite_items::Items;
use std::alloc::{AllocError, Global};

fn clause_of(alloc: Global, atom: Atom) -> Result<Clause, AllocError> {
    let mut atoms = Items::new(alloc);
    atoms.push(atom)?;
    Ok(Clause { atoms })
}

// x is at least 1, and x is at most 0.
fn formula_of(alloc: Global) -> Result<Formula, AllocError> {
    let mut ranges = Items::new(alloc);
    ranges.push(Range { lo: 0, hi: 1 })?;
    let mut clauses = Items::new(alloc);
    clauses.push(clause_of(alloc, at_least(alloc, 0, 1)?)?)?;
    clauses.push(clause_of(alloc, at_most(alloc, 0, 0)?)?)?;
    Ok(Formula { ranges, clauses })
}

// By the second clause x is at most 0; by that and the first none is left.
fn proof_of(alloc: Global) -> Result<Proof, AllocError> {
    let mut steps = Items::new(alloc);
    steps.push(ProofStep::Rup {
        clause: clause_of(alloc, at_most(alloc, 0, 0)?)?,
        hints: Items::from_slice(alloc, &[1])?,
    })?;
    steps.push(ProofStep::Rup {
        clause: Clause {
            atoms: Items::new(alloc),
        },
        hints: Items::from_slice(alloc, &[2, 0])?,
    })?;
    Ok(Proof { steps })
}

fn dropped_by(step: Option<&ProofStep>) -> Option<u64> {
    match step {
        Some(ProofStep::Drop { clauses }) => clauses.as_slice().first().copied(),
        _ => None,
    }
}

// How many steps it has when it is trimmed, how many clauses are live at the most, and which is dropped last.
fn trimmed_counts(alloc: Global) -> Result<(usize, u64, Option<u64>), AllocError> {
    let formula = formula_of(alloc)?;
    let proof = proof_of(alloc)?;
    let trimmed = trimmed(alloc, &formula, &proof)?;
    let live = most_live(&trimmed)?;
    let dropped = dropped_by(trimmed.steps.get(2));
    Ok((trimmed.steps.len(), live, dropped))
}

#[test]
fn the_first_clause_is_dropped_last(rt: HostRuntime) -> Result<(), AllocError> {
    assert_eq!(rt; trimmed_counts(rt.alloc())?, (3, 2, Some(2)));
    Ok(())
}
