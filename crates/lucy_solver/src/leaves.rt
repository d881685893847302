//! A box in which a clause of the formula is false everywhere: the steps that say so.
ghost use Rattle.std.specs.Prelude.{◌≡◌, ◌++◌, ◌∷◌, [], ◌<◌, ◌^◌, IfOk, OnOk, true, length, None, Some, slice_get, neg_ℤ};
ghost use Rattle.std.specs.List.{list_all};
ghost use Rattle.lucy_clauses.specs.Parts.{is_within, all_within};
ghost use Rattle.lucy_solver.specs.Boxes.{taking, exceeds, all_exceed, is_fit, all_fit, times_of, IsBox};
ghost use Rattle.lucy_solver.specs.Shows.{AreShown, Denies, GoesOn, are_sound, lemma_step, sum_line, atom_times};
ghost use Rattle.lucy_solver.specs.Finds.{BoxFinds};

use crate::boxes::{Bound, exceeded};
use crate::denials::{copies, denial, next_number, pushed, shown};
use lucy_cert::ProofStep;
use lucy_clauses::{Atom, Clause, Formula, Line, Part, Ref, Times};
use lucy_units::{is_known, opposite};
use sqlite_items::Items;
use std::alloc::{AllocError, Global};

fn negative(by: i128) -> i128
    requires { is_within by ≡ true }
    ensures { result ≡ neg_ℤ by }
{
    -by
}

fn times_of(by: i128, of: Ref) -> Times
    ensures { result ≡ times_of by of }
{
    Times { by, of }
}

fn taking_bound(by: i128, bound: Bound) -> Times
    requires { is_within by ≡ true }
    ensures { result ≡ taking by (Some bound) }
{
    if 0 < by {
        times_of(by, bound.low)
    } else {
        times_of(negative(by), bound.high)
    }
}

// The reference that takes a part off, and how many times.
fn taking(part: Part, bounds: &[Bound]) -> Times
    requires { is_within part.by ≡ true }
    ensures { result ≡ taking part.by (slice_get bounds.now part.variable) }
{
    match bounds.get(part.variable as usize) {
        Some(bound) => taking_bound(part.by, *bound),
        None => times_of(part.by, Ref::Low(0)),
    }
}

// The sum of an atom, at a place, and of the bounds that take its parts off.
fn atom_times(
    alloc: Global,
    place: u32,
    parts: &[Part],
    bounds: &[Bound],
) -> Result<Vec<Times>, AllocError>
    requires { all_within parts.now ≡ true }
    ensures { IfOk result (λ v. v.items ≡ atom_times place bounds.now parts.now) }
{
    let mut times = Vec::new(alloc);
    times.push(times_of(1, Ref::Negated(place)))?;
    for part in parts {
        times.push(taking(*part, bounds))?;
    }
    Ok(times)
}

fn push_lemma(
    alloc: Global,
    steps: &mut Vec<ProofStep>,
    clause: Clause,
    times: Vec<Times>,
) -> Result<(), AllocError>
    ensures { OnOk result (steps.new.items ≡ steps.old.items ++ lemma_step clause (sum_line times.items ∷ []) ∷ []) }
{
    let mut lines = Vec::new(alloc);
    lines.push(Line::Sum(Items::from_vec(times)))?;
    let lines = Items::from_vec(lines);
    steps.push(ProofStep::Lemma { clause, lines })?;
    Ok(())
}

// Pushes the lemma that an atom which is false all over the box is false under the decisions.
fn refute_atom(
    alloc: Global,
    formula: &Formula,
    decisions: &[Atom],
    bounds: &[Bound],
    atom: &Atom,
    steps: &mut Vec<ProofStep>,
) -> Result<u64, AllocError>
    requires few { length formula.now.ranges < 2 ^ 32 }
    requires names { are_sound (length formula.now.ranges) decisions.now ≡ true }
    requires shown { AreShown formula.now steps.old.items }
    requires bounds { IsBox formula.now.ranges decisions.now bounds.now }
    requires fit { is_fit bounds.now atom.now ≡ true }
    requires exceeds { exceeds bounds.now atom.now ≡ true }
    ensures shown { OnOk result (AreShown formula.now steps.new.items) }
    ensures goes_on { OnOk result (GoesOn steps.old.items steps.new.items) }
    ensures denied { IfOk result (λ n. Denies formula.now steps.new.items n (decisions.now ++ atom.now ∷ [])) }
{
    let Ok(place) = u32::try_from(decisions.len()) else {
        return Err(AllocError);
    };
    let times = atom_times(alloc, place, &atom.parts, bounds)?;
    let more = pushed(alloc, decisions, atom)?;
    let clause = denial(alloc, more.as_slice())?;
    let number = next_number(formula, steps.as_slice())?;
    push_lemma(alloc, steps, clause, times)?;
    Ok(number)
}

// Shows that the decisions cannot all be true, by a clause that is false all over the box.
fn refuted_clause(
    alloc: Global,
    formula: &Formula,
    decisions: &[Atom],
    bounds: &[Bound],
    number: u64,
    clause: &Clause,
    steps: &mut Vec<ProofStep>,
) -> Result<u64, AllocError>
    requires few { length formula.now.ranges < 2 ^ 32 }
    requires names { are_sound (length formula.now.ranges) decisions.now ≡ true }
    requires shown { AreShown formula.now steps.old.items }
    requires bounds { IsBox formula.now.ranges decisions.now bounds.now }
    requires there { slice_get formula.now.clauses number ≡ Some clause.now }
    requires fit { list_all (is_fit bounds.now) clause.now.atoms ≡ true }
    requires exceeds { all_exceed bounds.now clause.now ≡ true }
    ensures shown { OnOk result (AreShown formula.now steps.new.items) }
    ensures goes_on { OnOk result (GoesOn steps.old.items steps.new.items) }
    ensures denied { IfOk result (λ n. Denies formula.now steps.new.items n decisions.now) }
{
    let mut trues = copies(alloc, decisions)?;
    let mut hints = Vec::new(alloc);
    for atom in clause.atoms.as_slice() {
        let lemma = refute_atom(alloc, formula, decisions, bounds, atom, steps)?;
        hints.push(lemma)?;
        if is_known(atom, trues.as_slice()) {
            let number = shown(alloc, formula, decisions, hints.as_slice(), steps)?;
            return Ok(number);
        }
        trues.push(opposite(alloc, atom)?)?;
    }
    hints.push(number)?;
    let number = shown(alloc, formula, decisions, hints.as_slice(), steps)?;
    Ok(number)
}

/// Shows that the decisions cannot all be true, where a clause is false all over the box.
pub fn refuted_box(
    alloc: Global,
    formula: &Formula,
    decisions: &[Atom],
    bounds: &[Bound],
    steps: &mut Vec<ProofStep>,
) -> Result<Option<u64>, AllocError>
    requires few { length formula.now.ranges < 2 ^ 32 }
    requires names { are_sound (length formula.now.ranges) decisions.now ≡ true }
    requires shown { AreShown formula.now steps.old.items }
    requires bounds { IsBox formula.now.ranges decisions.now bounds.now }
    requires fit { all_fit bounds.now formula.now.clauses ≡ true }
    ensures { IfOk result (λ o. BoxFinds formula.now decisions.now bounds.now steps.old.items steps.new.items o) }
{
    let Some(place) = exceeded(formula.clauses.as_slice(), bounds) else {
        return Ok(None);
    };
    let clause = &formula.clauses.as_slice()[place];
    let number = refuted_clause(
        alloc,
        formula,
        decisions,
        bounds,
        place as u64,
        clause,
        steps,
    )?;
    Ok(Some(number))
}
