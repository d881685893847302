//! Formulas and their texts: `over LO..HI ..`, and a line for each clause, `none` or atoms with commas between them, each with its
//! parts `FACTOR*VARIABLE`, `<=` and its bound.

use lucy_clauses::{Atom, Clause, Formula, Part, Plain, Range, are_small};
use sqlite_items::Items;
use std::alloc::Global;

fn part_of(word: &str) -> Option<Part> {
    let (by, variable) = word.split_once('*')?;
    let variable = variable.parse::<u32>().ok()?;
    let by = by.parse::<i128>().ok()?;
    Some(Part { variable, by })
}

/// Parts with a space between two.
pub fn parts_of(alloc: Global, text: &str) -> Option<Vec<Part>> {
    let mut parts = Vec::new(alloc);
    for word in text.split(' ') {
        parts.push(part_of(word)?).ok()?;
    }
    Some(parts)
}

/// The normal form of an inequality.
pub fn normal(alloc: Global, parts: &[Part], bound: i128) -> Option<Plain> {
    if !are_small(parts) || bound.unsigned_abs() >= 1 << 126 {
        return None;
    }
    Atom::normal(alloc, parts, bound).ok()
}

// The normal form of the inequality of a text.
fn plain_of(alloc: Global, text: &str) -> Option<Plain> {
    let (parts, bound) = text.split_once(" <= ")?;
    let parts = parts_of(alloc, parts)?;
    normal(alloc, &parts, bound.parse::<i128>().ok()?)
}

// The atom of a text.
fn atom_of(alloc: Global, text: &str) -> Option<Atom> {
    match plain_of(alloc, text)? {
        Plain::Atom(atom) => Some(atom),
        _ => None,
    }
}

// Not the one without an atom.
fn clause_of(alloc: Global, line: &str) -> Option<Clause> {
    let mut atoms = Items::new(alloc);
    for text in line.split(", ") {
        atoms.push(atom_of(alloc, text)?).ok()?;
    }
    Some(Clause { atoms })
}

fn clauses_of(alloc: Global, lines: &str) -> Option<Items<Clause>> {
    let mut clauses = Items::new(alloc);
    for line in lines.lines() {
        clauses.push(clause_of(alloc, line)?).ok()?;
    }
    Some(clauses)
}

fn range_of(word: &str) -> Option<Range> {
    let (lo, hi) = word.split_once("..")?;
    let lo = lo.parse::<i64>().ok()?;
    let hi = hi.parse::<i64>().ok()?;
    Some(Range { lo, hi })
}

/// Ranges with a space between two.
pub fn ranges_of(alloc: Global, text: &str) -> Option<Items<Range>> {
    let mut ranges = Items::new(alloc);
    for word in text.split(' ') {
        ranges.push(range_of(word)?).ok()?;
    }
    Some(ranges)
}

/// The formula of these ranges and of a line for each clause.
pub fn formula_of(alloc: Global, ranges: &str, lines: &str) -> Option<Formula> {
    let ranges = ranges_of(alloc, ranges)?;
    let clauses = clauses_of(alloc, lines)?;
    Some(Formula { ranges, clauses })
}
