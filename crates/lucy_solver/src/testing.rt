//! Tests of what the engine proposes.
ghost use Rattle.std.specs.Prelude.{◌≡◌, ◌&&◌, ◌∷◌, [], IfOk, IfSome, OnOk, true, false, None, length};
ghost use Rattle.std.specs.List.{list_all};
ghost use Rattle.lucy_clauses.specs.Formulas.{names_below, is_narrow, Models};
ghost use Rattle.lucy_clauses.specs.Parts.{is_within};
ghost use Rattle.lucy_cert.specs.Justified.{nothing, step_fault};
ghost use Rattle.lucy_cert.specs.Refuting.{known_after};
ghost use Rattle.lucy_cert.specs.Writable.{part_fits, atom_fits, clause_fits, ref_fits, pair_fits, times_fits, line_fits, number_fits, step_fits};
ghost use Rattle.lucy_solver.specs.Shows.{AreShown, GoesOn, adds, is_sound};

use lucy_cert::ProofStep;
use lucy_checker::step_fault;
use lucy_clauses::{Atom, Clause, Formula, Line, Part, Ref, Times};
use lucy_units::opposite;
use sqlite_items::Items;
use std::alloc::{AllocError, Global};

// The limit of the numbers of variables, places and lines.
const MOST_PLACES: u64 = 1 << 32;

fn is_within(number: i128) -> bool
    ensures { result ≡ is_within number }
{
    number.unsigned_abs() <= 1 << 126
}

fn part_fits(part: Part) -> bool
    ensures { result ≡ part_fits part }
{
    is_within(part.by) && u64::from(part.variable) < MOST_PLACES
}

fn parts_fit(parts: &[Part]) -> bool
    ensures { result ≡ list_all part_fits parts.now }
{
    for part in parts {
        if !part_fits(*part) {
            return false;
        }
    }
    true
}

fn sizes_fit(atom: &Atom) -> bool
    ensures { result ≡ (is_within atom.now.bound && list_all part_fits atom.now.parts) }
{
    is_within(atom.bound) && parts_fit(&atom.parts)
}

// Whether an atom can be written: it is in normal form, so its numbers alone are tested.
fn atom_fits(atom: &Atom) -> bool
    ensures { result ≡ atom_fits atom.now }
{
    let _bound = atom.bound;
    let fits = sizes_fit(atom);
    fits
}

fn clause_fits(clause: &Clause) -> bool
    ensures { result ≡ clause_fits clause.now }
{
    for atom in clause.atoms.as_slice() {
        if !atom_fits(atom) {
            return false;
        }
    }
    true
}

fn ref_fits(of: Ref) -> bool
    ensures { result ≡ ref_fits of }
{
    match of {
        Ref::Negated(number) => u64::from(number) < MOST_PLACES,
        Ref::Low(number) => u64::from(number) < MOST_PLACES,
        Ref::High(number) => u64::from(number) < MOST_PLACES,
        Ref::Derived(number) => u64::from(number) < MOST_PLACES,
    }
}

fn times_fits(times: Times) -> bool
    ensures { result ≡ times_fits times }
{
    is_within(times.by) && 0 < times.by && ref_fits(times.of)
}

fn all_times_fit(all: &[Times]) -> bool
    ensures { result ≡ list_all times_fits all.now }
{
    for times in all {
        if !times_fits(*times) {
            return false;
        }
    }
    true
}

fn line_fits(line: &Line) -> bool
    ensures { result ≡ line_fits line.now }
{
    match line {
        Line::Sum(all) => all_times_fit(all.as_slice()),
        Line::Divide { by, of } => times_fits(Times { by: *by, of: *of }),
    }
}

fn lines_fit(lines: &[Line]) -> bool
    ensures { result ≡ list_all line_fits lines.now }
{
    for line in lines {
        if !line_fits(line) {
            return false;
        }
    }
    true
}

fn number_fits(number: u64) -> bool
    ensures { result ≡ number_fits number }
{
    u128::from(number) < 1 << 64
}

fn numbers_fit(numbers: &[u64]) -> bool
    ensures { result ≡ list_all number_fits numbers.now }
{
    for number in numbers {
        if !number_fits(*number) {
            return false;
        }
    }
    true
}

// Whether a step adds a clause and can be written into a certificate.
fn step_fits(step: &ProofStep) -> bool
    ensures { result ≡ step_fits false step.now }
{
    match step {
        ProofStep::Lemma { clause, lines } => clause_fits(clause) && lines_fit(lines.as_slice()),
        ProofStep::Rup { clause, hints } => clause_fits(clause) && numbers_fit(hints.as_slice()),
        ProofStep::Drop { .. } => false,
    }
}

fn names_below(parts: &[Part], count: usize) -> bool
    ensures { result ≡ names_below count parts.now }
{
    for part in parts {
        if part.variable as usize >= count {
            return false;
        }
    }
    true
}

/// Whether an atom names variables that have one of so many ranges, and its complement can be written.
pub fn is_sound(alloc: Global, atom: &Atom, count: usize) -> Result<bool, AllocError>
    ensures { IfOk result (λ b. b ≡ is_sound count atom.now) }
{
    if !names_below(&atom.parts, count) {
        return Ok(false);
    }
    let other = opposite(alloc, atom)?;
    Ok(atom_fits(&other))
}

fn is_justified(
    alloc: Global,
    formula: &Formula,
    steps: &[ProofStep],
    step: &ProofStep,
) -> Result<bool, AllocError>
    requires { list_all adds steps.now ≡ true }
    ensures { IfOk result (λ b. b ≡ true → step_fault formula.now None (known_after nothing steps.now) step.now ≡ None) }
{
    match step_fault(alloc, formula, steps, step)? {
        Some(_) => Ok(false),
        None => Ok(true),
    }
}

// Pushes a step, if it is justified and can be written.
fn pushed_step(
    alloc: Global,
    formula: &Formula,
    step: ProofStep,
    steps: &mut Vec<ProofStep>,
) -> Result<bool, AllocError>
    requires { AreShown formula.now steps.old.items }
    ensures shown { OnOk result (AreShown formula.now steps.new.items) }
    ensures goes_on { OnOk result (GoesOn steps.old.items steps.new.items) }
{
    if !step_fits(&step) {
        return Ok(false);
    }
    if !is_justified(alloc, formula, steps.as_slice(), &step)? {
        return Ok(false);
    }
    steps.push(step)?;
    Ok(true)
}

/// Pushes steps, as long as they are justified and can be written. Whether all of them were pushed.
pub fn pushed_steps(
    alloc: Global,
    formula: &Formula,
    more: Vec<ProofStep>,
    steps: &mut Vec<ProofStep>,
) -> Result<bool, AllocError>
    requires { AreShown formula.now steps.old.items }
    ensures shown { OnOk result (AreShown formula.now steps.new.items) }
    ensures goes_on { OnOk result (GoesOn steps.old.items steps.new.items) }
{
    for step in more {
        if !pushed_step(alloc, formula, step, steps)? {
            return Ok(false);
        }
    }
    Ok(true)
}

/// The numbers, if they are a model.
pub fn tested_model(formula: &Formula, model: Items<i64>) -> Option<Items<i64>>
    requires { is_narrow formula.now ≡ true }
    ensures { IfSome result (λ m. Models formula.now m) }
{
    if model.len() != formula.ranges.len() {
        return None;
    }
    if formula.holds_under(model.as_slice()) {
        Some(model)
    } else {
        None
    }
}
