//! Formulas and their texts: `over LO..HI ..`, and a line for each clause, `none` or atoms with commas between them, each with its
//! parts `FACTOR*VARIABLE`, `<=` and its bound.

use crate::making::{numbers_of, yes_or_no};
use lucy_clauses::{Atom, Clause, Formula, Part, Plain, Range, are_small};
use sqlite_items::Items;
use std::alloc::{AllocError, Global};

fn part_of(word: &str) -> Option<Part> {
    let (by, variable) = word.split_once('*')?;
    let variable = variable.parse::<u32>().ok()?;
    let by = by.parse::<i128>().ok()?;
    Some(Part { variable, by })
}

/// Parts with a space between two.
pub fn parts_of(alloc: Global, text: &str) -> Option<Vec<Part>> {
    let mut parts = Vec::new(alloc);
    for word in text.split(' ') {
        parts.push(part_of(word)?).ok()?;
    }
    Some(parts)
}

// The normal form of an inequality.
fn normal(alloc: Global, parts: &[Part], bound: i128) -> Option<Plain> {
    if !are_small(parts) || bound.unsigned_abs() >= 1 << 126 {
        return None;
    }
    Atom::normal(alloc, parts, bound).ok()
}

/// The normal form of the inequality of a text.
pub fn plain_of(alloc: Global, text: &str) -> Option<Plain> {
    let (parts, bound) = text.split_once(" <= ")?;
    let parts = parts_of(alloc, parts)?;
    normal(alloc, &parts, bound.parse::<i128>().ok()?)
}

/// The atom of a text.
pub fn atom_of(alloc: Global, text: &str) -> Option<Atom> {
    match plain_of(alloc, text)? {
        Plain::Atom(atom) => Some(atom),
        _ => None,
    }
}

// Not the one without an atom.
fn clause_of(alloc: Global, line: &str) -> Option<Clause> {
    let mut atoms = Items::new(alloc);
    for text in line.split(", ") {
        atoms.push(atom_of(alloc, text)?).ok()?;
    }
    Some(Clause { atoms })
}

fn clauses_of(alloc: Global, lines: &str) -> Option<Items<Clause>> {
    let mut clauses = Items::new(alloc);
    for line in lines.lines() {
        clauses.push(clause_of(alloc, line)?).ok()?;
    }
    Some(clauses)
}

fn range_of(word: &str) -> Option<Range> {
    let (lo, hi) = word.split_once("..")?;
    let lo = lo.parse::<i64>().ok()?;
    let hi = hi.parse::<i64>().ok()?;
    Some(Range { lo, hi })
}

fn ranges_of(alloc: Global, text: &str) -> Option<Items<Range>> {
    let mut ranges = Items::new(alloc);
    for word in text.split(' ') {
        ranges.push(range_of(word)?).ok()?;
    }
    Some(ranges)
}

/// The formula of these ranges and of a line for each clause.
pub fn formula_of(alloc: Global, ranges: &str, lines: &str) -> Option<Formula> {
    let ranges = ranges_of(alloc, ranges)?;
    let clauses = clauses_of(alloc, lines)?;
    Some(Formula { ranges, clauses })
}

/// Whether the numbers of a row, behind `yes` or `no`, are a model or none, as it says.
pub fn is_model(alloc: Global, formula: &Formula, row: &str) -> Option<bool> {
    let (want, text) = row.split_once(' ')?;
    let numbers = numbers_of(alloc, text)?;
    if !formula.narrow() || formula.ranges.len() != numbers.len() {
        return None;
    }
    Some(formula.holds_under(&numbers) == yes_or_no(want)?)
}

fn add_part(alloc: Global, text: &mut String, part: Part) -> Result<(), AllocError> {
    let word = format!(in alloc; "{}*{} ", part.by, part.variable)?;
    text.push_str(&word)
}

// The parts, `<=` and the bound.
fn add_atom(alloc: Global, text: &mut String, atom: &Atom) -> Result<(), AllocError> {
    for part in &atom.parts {
        add_part(alloc, text, *part)?;
    }
    let bound = format!(in alloc; "<= {}", atom.bound)?;
    text.push_str(&bound)
}

/// An atom.
pub fn spelled_atom(alloc: Global, atom: &Atom) -> Result<String, AllocError> {
    let mut text = String::new(alloc);
    add_atom(alloc, &mut text, atom)?;
    Ok(text)
}

// A line with a comma behind each atom but the last, or `none`.
fn add_clause(alloc: Global, text: &mut String, clause: &Clause) -> Result<(), AllocError> {
    if clause.atoms.is_empty() {
        text.push_str("none")?;
    }
    for (i, atom) in clause.atoms.as_slice().iter().enumerate() {
        if i > 0 {
            text.push_str(", ")?;
        }
        add_atom(alloc, text, atom)?;
    }
    text.push_str("\n")
}

fn add_range(alloc: Global, text: &mut String, range: Range) -> Result<(), AllocError> {
    let word = format!(in alloc; " {}..{}", range.lo, range.hi)?;
    text.push_str(&word)
}

fn add_clauses(alloc: Global, text: &mut String, clauses: &[Clause]) -> Result<(), AllocError> {
    for clause in clauses {
        add_clause(alloc, text, clause)?;
    }
    Ok(())
}

/// A line for each clause.
pub fn spelled_clauses(alloc: Global, formula: &Formula) -> Result<String, AllocError> {
    let mut text = String::new(alloc);
    add_clauses(alloc, &mut text, formula.clauses.as_slice())?;
    Ok(text)
}

/// A line of the ranges, and one for each clause.
pub fn spelled(alloc: Global, formula: &Formula) -> Result<String, AllocError> {
    let mut text = String::new(alloc);
    text.push_str("over")?;
    for range in formula.ranges.as_slice() {
        add_range(alloc, &mut text, *range)?;
    }
    text.push_str("\n")?;
    add_clauses(alloc, &mut text, formula.clauses.as_slice())?;
    Ok(text)
}
