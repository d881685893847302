//! The present point, and whether it is a model.

use crate::engine::Engine;
use crate::numbers::{floored, minus, place_of, plus, times};
use lucy_clauses::{Atom, Clause, Formula, Part, Range};
use sqlite_items::Items;
use std::alloc::{AllocError, Global};

/// A number for each variable, over a common denominator.
#[derive(Debug, Drop)]
pub struct Point {
    /// The denominator, at least 1.
    pub below: i128,
    /// The numerators.
    pub tops: Vec<i128>,
}

fn top_at(tops: &[i128], variable: u32) -> i128 {
    match tops.get(variable as usize) {
        Some(top) => *top,
        None => 0,
    }
}

fn sum_at(tops: &[i128], parts: &[Part]) -> i128 {
    let mut sum = 0;
    for part in parts {
        sum = plus(sum, times(part.by, top_at(tops, part.variable)));
    }
    sum
}

fn holds(tops: &[i128], atom: &Atom) -> bool {
    sum_at(tops, &atom.parts) <= atom.bound
}

fn clause_holds(tops: &[i128], clause: &Clause) -> bool {
    for atom in clause.atoms.as_slice() {
        if holds(tops, atom) {
            return true;
        }
    }
    false
}

fn are_within(ranges: &[Range], tops: &[i128]) -> bool {
    for (i, range) in ranges.iter().enumerate() {
        match tops.get(i) {
            Some(top) => {
                if *top < i128::from(range.lo) || i128::from(range.hi) < *top {
                    return false;
                }
            }
            None => return false,
        }
    }
    true
}

fn is_model(formula: &Formula, tops: &[i128]) -> bool {
    if !are_within(formula.ranges.as_slice(), tops) {
        return false;
    }
    for clause in formula.clauses.as_slice() {
        if !clause_holds(tops, clause) {
            return false;
        }
    }
    true
}

fn numbers_of(alloc: Global, tops: &[i128]) -> Result<Option<Items<i64>>, AllocError> {
    let mut all = Vec::new(alloc);
    for top in tops {
        match i64::try_from(*top) {
            Ok(number) => all.push(number)?,
            Err(_) => return Ok(None),
        }
    }
    Ok(Some(Items::from_vec(all)))
}

/// Whole numbers as a model, where they are one.
fn model_of(
    alloc: Global,
    formula: &Formula,
    tops: &[i128],
) -> Result<Option<Items<i64>>, AllocError> {
    if is_model(formula, tops) {
        numbers_of(alloc, tops)
    } else {
        Ok(None)
    }
}

impl Point {
    /// How far the sum of an atom is above its bound, times the denominator.
    pub fn excess(&self, atom: &Atom) -> i128 {
        let sum = sum_at(self.tops.as_slice(), &atom.parts);
        minus(sum, times(atom.bound, self.below))
    }

    /// Whether the sum of parts is its bound.
    pub fn is_tight(&self, parts: &[Part], bound: i128) -> bool {
        sum_at(self.tops.as_slice(), parts) == times(bound, self.below)
    }

    /// Whether a variable has this number.
    pub fn is_at(&self, variable: u32, value: i128) -> bool {
        top_at(self.tops.as_slice(), variable) == times(value, self.below)
    }

    // The numbers, each plus a part of the denominator, rounded down.
    fn rounded(&self, alloc: Global, more: i128) -> Result<Vec<i128>, AllocError> {
        let mut all = Vec::new(alloc);
        for top in self.tops.as_slice() {
            all.push(floored(plus(*top, more), self.below))?;
        }
        Ok(all)
    }

    fn rounded_model(
        &self,
        alloc: Global,
        formula: &Formula,
        more: i128,
    ) -> Result<Option<Items<i64>>, AllocError> {
        let numbers = self.rounded(alloc, more)?;
        model_of(alloc, formula, numbers.as_slice())
    }

    /// A model: the point, or where it has fractions the point rounded down, up or to the nearest.
    pub fn model(
        &self,
        alloc: Global,
        formula: &Formula,
    ) -> Result<Option<Items<i64>>, AllocError> {
        let down = self.rounded_model(alloc, formula, 0)?;
        if down.is_some() || self.below == 1 {
            return Ok(down);
        }
        let up = self.rounded_model(alloc, formula, minus(self.below, 1))?;
        if up.is_some() {
            return Ok(up);
        }
        self.rounded_model(alloc, formula, floored(self.below, 2))
    }

    /// Whether a number is no whole one.
    pub fn is_broken(&self) -> bool {
        self.fraction().is_some()
    }

    /// A variable whose number is no whole one, and that number rounded down.
    pub fn fraction(&self) -> Option<(u32, i128)> {
        if self.below < 2 {
            return None;
        }
        for (i, top) in self.tops.as_slice().iter().enumerate() {
            let whole = floored(*top, self.below);
            if times(whole, self.below) != *top {
                return match u32::try_from(i) {
                    Ok(variable) => Some((variable, whole)),
                    Err(_) => None,
                };
            }
        }
        None
    }
}

impl Engine {
    /// The point of the potential.
    pub(crate) fn potential_point(&self, alloc: Global) -> Result<Point, AllocError> {
        let base = self.net.base();
        let mut tops = Vec::new(alloc);
        for variable in 0..self.rows_of.len() {
            let value = self.net.potential(place_of(variable)?);
            tops.push(minus(value, base))?;
        }
        Ok(Point { below: 1, tops })
    }
}
