//! Steps that say of decisions that they cannot all be true.
ghost use Rattle.std.specs.Prelude.{◌≡◌, ◌++◌, ◌∷◌, [], IfOk, OnOk, true, length, map, ◌+◌, None, slice_get};
ghost use Rattle.lucy_clauses.specs.Sums.{complement};
ghost use Rattle.lucy_cert.specs.Justified.{rup_fault};
ghost use Rattle.lucy_solver.specs.Shows.{AreShown, Denies, GoesOn, are_sound, clauses_of, rup_step};

use lucy_cert::ProofStep;
use lucy_clauses::{Atom, Clause, Formula};
use lucy_units::{is_known, opposite};
use sqlite_items::Items;
use std::alloc::{AllocError, Global};

/// The clause that not all of the atoms are true.
pub fn denial(alloc: Global, atoms: &[Atom]) -> Result<Clause, AllocError>
    ensures { IfOk result (λ c. c.atoms ≡ map complement atoms.now) }
{
    let mut others = Vec::new(alloc);
    for atom in atoms {
        others.push(opposite(alloc, atom)?)?;
    }
    Ok(Clause {
        atoms: Items::from_vec(others),
    })
}

fn push_step(
    alloc: Global,
    steps: &mut Vec<ProofStep>,
    clause: Clause,
    hints: &[u64],
) -> Result<(), AllocError>
    ensures { OnOk result (steps.new.items ≡ steps.old.items ++ rup_step clause hints.now ∷ []) }
{
    let hints = Items::from_slice(alloc, hints)?;
    steps.push(ProofStep::Rup { clause, hints })?;
    Ok(())
}

/// The number of the clause that the next step adds.
pub fn next_number(formula: &Formula, steps: &[ProofStep]) -> Result<u64, AllocError>
    ensures { IfOk result (λ n. n ≡ length formula.now.clauses + length steps.now) }
{
    let count = formula.clauses.len() as u64;
    match count.checked_add(steps.len() as u64) {
        Some(number) => Ok(number),
        None => Err(AllocError),
    }
}

/// Pushes the step that the decisions cannot all be true, by these hints, and answers the number of its clause.
pub fn shown(
    alloc: Global,
    formula: &Formula,
    decisions: &[Atom],
    hints: &[u64],
    steps: &mut Vec<ProofStep>,
) -> Result<u64, AllocError>
    requires names { are_sound (length formula.now.ranges) decisions.now ≡ true }
    requires shown { AreShown formula.now steps.old.items }
    requires hints { rup_fault (slice_get (clauses_of formula.now steps.old.items)) decisions.now hints.now ≡ None }
    ensures shown { OnOk result (AreShown formula.now steps.new.items) }
    ensures goes_on { OnOk result (GoesOn steps.old.items steps.new.items) }
    ensures denied { IfOk result (λ n. Denies formula.now steps.new.items n decisions.now) }
{
    let clause = denial(alloc, decisions)?;
    let number = next_number(formula, steps.as_slice())?;
    push_step(alloc, steps, clause, hints)?;
    Ok(number)
}

/// Joins what two halves show: neither `atom` nor its complement is true with the decisions.
pub fn join(
    alloc: Global,
    formula: &Formula,
    decisions: &[Atom],
    atom: &Atom,
    left: u64,
    right: u64,
    steps: &mut Vec<ProofStep>,
) -> Result<u64, AllocError>
    requires names { are_sound (length formula.now.ranges) decisions.now ≡ true }
    requires shown { AreShown formula.now steps.old.items }
    requires left { Denies formula.now steps.old.items left (decisions.now ++ atom.now ∷ []) }
    requires right { Denies formula.now steps.old.items right (decisions.now ++ complement atom.now ∷ []) }
    ensures shown { OnOk result (AreShown formula.now steps.new.items) }
    ensures goes_on { OnOk result (GoesOn steps.old.items steps.new.items) }
    ensures denied { IfOk result (λ n. Denies formula.now steps.new.items n decisions.now) }
{
    let number = if is_known(atom, decisions) {
        shown(alloc, formula, decisions, [left].as_slice(), steps)?
    } else {
        shown(alloc, formula, decisions, [left, right].as_slice(), steps)?
    };
    Ok(number)
}

/// The atoms and one more.
pub fn pushed(alloc: Global, atoms: &[Atom], atom: &Atom) -> Result<Vec<Atom>, AllocError>
    ensures { IfOk result (λ v. v.items ≡ atoms.now ++ atom.now ∷ []) }
{
    let mut all = copies(alloc, atoms)?;
    all.push(atom.copied(alloc)?)?;
    Ok(all)
}

/// The decisions and one more.
pub fn decided(
    alloc: Global,
    decisions: &[Atom],
    atom: &Atom,
    count: usize,
) -> Result<Vec<Atom>, AllocError>
    requires names { are_sound count decisions.now ≡ true }
    requires atom_names { are_sound count (atom.now ∷ []) ≡ true }
    ensures items { IfOk result (λ v. v.items ≡ decisions.now ++ atom.now ∷ []) }
    ensures names { IfOk result (λ v. are_sound count v.items ≡ true) }
{
    let all = pushed(alloc, decisions, atom)?;
    Ok(all)
}

/// The same atoms once more.
pub fn copies(alloc: Global, atoms: &[Atom]) -> Result<Vec<Atom>, AllocError>
    ensures { IfOk result (λ v. v.items ≡ atoms.now) }
{
    let mut all = Vec::new(alloc);
    for atom in atoms {
        all.push(atom.copied(alloc)?)?;
    }
    Ok(all)
}
