ghost use Rattle.std.specs.Prelude.{◌≡◌, ◌++◌, ◌+◌, IfOk, OnErr, map, length, take};
ghost use Rattle.lucy_normal.specs.Shapes as shapes;
ghost use Rattle.lucy_normal.specs.Shapes.{shape};
ghost use Rattle.lucy_normal.specs.Fronts.{Extends};

use crate::fronts::shorten;
use crate::normals::Normal;
use lucy_clauses::{Atom, Clause, Formula, Range, at_least, at_most};
use sqlite_items::Items;
use std::alloc::{AllocError, Global};

// The atoms that stand before those of each clause of a part: under a name, that the name is 0.
fn guard(alloc: Global, under: Option<u32>) -> Result<Items<Atom>, AllocError>
    ensures { IfOk result (λ ts. ts ≡ shapes.guard under) }
{
    let mut atoms = Items::new(alloc);
    if let Some(name) = under {
        let off = at_most(alloc, name, 0)?;
        atoms.push(off)?;
    }
    Ok(atoms)
}

fn add_clause(formula: &mut Formula, atoms: Items<Atom>) -> Result<(), AllocError>
    ensures ok { IfOk result (λ _. formula.new ≡ shapes.added atoms formula.old) }
    ensures err { OnErr result (formula.new ≡ formula.old) }
{
    formula.clauses.push(Clause { atoms })?;
    Ok(())
}

fn add_variable(formula: &mut Formula) -> Result<(), AllocError>
    ensures ok { IfOk result (λ _. formula.new ≡ shapes.widened formula.old) }
    ensures err { OnErr result (formula.new ≡ formula.old) }
{
    formula.ranges.push(Range { lo: 0, hi: 1 })?;
    Ok(())
}

// The number of the next variable. A formula with 2^32 variables does not fit memory.
fn next_variable(formula: &Formula) -> Result<u32, AllocError>
    ensures { IfOk result (λ y. y ≡ length formula.now.ranges) }
{
    match u32::try_from(formula.ranges.len()) {
        Ok(y) => Ok(y),
        Err(_) => Err(AllocError),
    }
}

fn next_name(name: u32) -> Result<u32, AllocError>
    ensures { IfOk result (λ z. z ≡ name + 1) }
{
    match name.checked_add(1) {
        Some(next) => Ok(next),
        None => Err(AllocError),
    }
}

// The literal of a part: the atom, or that its name is 1.
fn literal(alloc: Global, part: &Normal, name: u32) -> Result<Atom, AllocError>
    ensures { IfOk result (λ t. t ≡ shapes.lit_of (shape part.now).atom name) }
{
    match part {
        Normal::Atom(atom) => atom.copied(alloc),
        Normal::All(_) => at_least(alloc, name, 1),
        Normal::Any(_) => at_least(alloc, name, 1),
    }
}

// The first free name behind a part.
fn after(part: &Normal, name: u32) -> Result<u32, AllocError>
    ensures { IfOk result (λ z. z ≡ shapes.after (shape part.now).atom name) }
{
    match part {
        Normal::Atom(_) => Ok(name),
        Normal::All(_) => next_name(name),
        Normal::Any(_) => next_name(name),
    }
}

// The literals of the parts behind other atoms.
fn literals(
    alloc: Global,
    parts: &[Normal],
    first: u32,
    before: Items<Atom>,
) -> Result<Items<Atom>, AllocError>
    ensures { IfOk result (λ ts. ts ≡ before ++ shapes.lits (map shape parts.now) first) }
{
    let mut atoms = before;
    let mut name = first;
    for part in parts {
        let atom = literal(alloc, part, name)?;
        atoms.push(atom)?;
        name = after(part, name)?;
    }
    Ok(atoms)
}

fn name_one(formula: &mut Formula, part: &Normal) -> Result<(), AllocError>
    ensures ok { IfOk result (λ _. formula.new ≡ shapes.name_one (shape part.now).atom formula.old) }
    ensures front { Extends formula.old formula.new }
{
    match part {
        Normal::Atom(_) => Ok(()),
        Normal::All(_) => add_variable(formula),
        Normal::Any(_) => add_variable(formula),
    }
}

// A variable for each part that is no atom.
fn name_all(formula: &mut Formula, parts: &[Normal]) -> Result<(), AllocError>
    ensures ok { IfOk result (λ _. formula.new ≡ shapes.named (map shape parts.now) formula.old) }
    ensures front { Extends formula.old formula.new }
{
    for part in parts {
        name_one(formula, part)?;
    }
    Ok(())
}

#[cycle(placing)]
fn place(
    alloc: Global,
    formula: &mut Formula,
    part: &Normal,
    under: Option<u32>,
) -> Result<(), AllocError>
    ensures ok { IfOk result (λ _. formula.new ≡ (shape part.now).place under formula.old) }
    ensures front { Extends formula.old formula.new }
{
    match part {
        Normal::Atom(atom) => {
            let mut atoms = guard(alloc, under)?;
            let copy = atom.copied(alloc)?;
            atoms.push(copy)?;
            add_clause(formula, atoms)
        }
        Normal::All(parts) => place_all(alloc, formula, parts.as_slice(), under),
        Normal::Any(parts) => place_any(alloc, formula, parts.as_slice(), under),
    }
}

#[cycle(placing)]
fn place_all(
    alloc: Global,
    formula: &mut Formula,
    parts: &[Normal],
    under: Option<u32>,
) -> Result<(), AllocError>
    ensures ok { IfOk result (λ _. formula.new ≡ shapes.all_placed (map shape parts.now) under formula.old) }
    ensures front { Extends formula.old formula.new }
{
    for part in parts {
        place(alloc, formula, part, under)?;
    }
    Ok(())
}

// The clause of the literals, and then each named part.
#[cycle(placing)]
fn place_any(
    alloc: Global,
    formula: &mut Formula,
    parts: &[Normal],
    under: Option<u32>,
) -> Result<(), AllocError>
    ensures ok { IfOk result (λ _. formula.new ≡ shapes.any_placed (map shape parts.now) under formula.old) }
    ensures front { Extends formula.old formula.new }
{
    let first = next_variable(formula)?;
    let before = guard(alloc, under)?;
    let atoms = literals(alloc, parts, first, before)?;
    name_all(formula, parts)?;
    add_clause(formula, atoms)?;
    place_named(alloc, formula, parts, first)
}

#[cycle(placing)]
fn place_named(
    alloc: Global,
    formula: &mut Formula,
    parts: &[Normal],
    first: u32,
) -> Result<(), AllocError>
    ensures ok { IfOk result (λ _. formula.new ≡ shapes.below (map shape parts.now) first formula.old) }
    ensures front { Extends formula.old formula.new }
{
    let mut name = first;
    for part in parts {
        place_under(alloc, formula, part, name)?;
        name = after(part, name)?;
    }
    Ok(())
}

#[cycle(placing)]
fn place_under(
    alloc: Global,
    formula: &mut Formula,
    part: &Normal,
    name: u32,
) -> Result<(), AllocError>
    ensures ok { IfOk result (λ _. formula.new ≡ shapes.under_one (shape part.now).atom (shape part.now).place name formula.old) }
    ensures front { Extends formula.old formula.new }
{
    match part {
        Normal::Atom(_) => Ok(()),
        Normal::All(parts) => place_all(alloc, formula, parts.as_slice(), Some(name)),
        Normal::Any(parts) => place_any(alloc, formula, parts.as_slice(), Some(name)),
    }
}

// Lets go of the ranges and clauses behind the first so many.
fn restore(formula: &mut Formula, ranges: usize, clauses: usize)
    ensures ranges { formula.new.ranges ≡ take ranges formula.old.ranges }
    ensures clauses { formula.new.clauses ≡ take clauses formula.old.clauses }
{
    shorten(&mut formula.ranges, ranges);
    shorten(&mut formula.clauses, clauses);
}

/// Puts the clauses of a normal condition behind those of a formula, with a range for each fresh variable behind the
/// others. On `Err` the formula is as it was.
pub fn put(alloc: Global, formula: &mut Formula, part: &Normal) -> Result<(), AllocError>
    ensures ok { IfOk result (λ _. formula.new ≡ shapes.put part.now formula.old) }
    ensures err { OnErr result (formula.new ≡ formula.old) }
{
    let ranges = formula.ranges.len();
    let clauses = formula.clauses.len();
    match place(alloc, formula, part, None) {
        Ok(()) => Ok(()),
        Err(e) => {
            restore(formula, ranges, clauses);
            Err(e)
        }
    }
}

/// The same for several, one after another.
pub fn put_all(alloc: Global, formula: &mut Formula, parts: &[Normal]) -> Result<(), AllocError>
    ensures ok { IfOk result (λ _. formula.new ≡ shapes.put_all parts.now formula.old) }
    ensures err { OnErr result (formula.new ≡ formula.old) }
{
    let ranges = formula.ranges.len();
    let clauses = formula.clauses.len();
    match place_all(alloc, formula, parts, None) {
        Ok(()) => Ok(()),
        Err(e) => {
            restore(formula, ranges, clauses);
            Err(e)
        }
    }
}
