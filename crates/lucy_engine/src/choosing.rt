//! What is decided next.

use crate::answers::Answer;
use crate::engine::Engine;
use crate::numbers::{floored, minus, place_of, plus};
use crate::points::Point;
use lucy_clauses::{Formula, at_most};
use std::alloc::{AllocError, Global};

// An atom, and how far the point is from it.
#[derive(Clone, Copy, Debug, PartialEq, Eq)]
struct Nearest {
    atom: u32,
    excess: i128,
}

impl Engine {
    // Whether no atom of a clause is true.
    fn is_open(&self, atoms: &[u32]) -> bool {
        for atom in atoms {
            if self.store.is_true(*atom) {
                return false;
            }
        }
        true
    }

    pub(crate) fn excess(&self, point: &Point, number: u32) -> i128 {
        match self.table.atom(number) {
            Some(atom) => point.excess(atom),
            None => 0,
        }
    }

    // The atom that is not false and nearest to the point, where the point is in none of the clause's atoms.
    fn nearest(&self, point: &Point, atoms: &[u32]) -> Option<u32> {
        let mut best = None;
        for number in atoms {
            let excess = self.excess(point, *number);
            if excess <= 0 {
                return None;
            }
            if !self.store.is_false(*number) {
                best = nearer(best, *number, excess);
            }
        }
        match best {
            Some(nearest) => Some(nearest.atom),
            None => None,
        }
    }

    fn broken_in(&self, point: &Point, clause: u32) -> Option<u32> {
        match self.store.atoms(clause) {
            Some(atoms) => {
                if self.is_open(atoms.as_slice()) {
                    self.nearest(point, atoms.as_slice())
                } else {
                    None
                }
            }
            None => None,
        }
    }

    // An atom of the last clause of the formula that has no true atom and that the point breaks.
    pub(crate) fn broken(&self, point: &Point) -> Result<Option<u32>, AllocError> {
        for clause in (0..self.given).rev() {
            let atom = self.broken_in(point, place_of(clause)?);
            if atom.is_some() {
                return Ok(atom);
            }
        }
        Ok(None)
    }

    fn open_in(&self, clause: u32) -> Option<u32> {
        match self.store.atoms(clause) {
            Some(atoms) => {
                if self.is_open(atoms.as_slice()) {
                    self.not_false(atoms.as_slice())
                } else {
                    None
                }
            }
            None => None,
        }
    }

    fn not_false(&self, atoms: &[u32]) -> Option<u32> {
        for atom in atoms {
            if !self.store.is_false(*atom) {
                return Some(*atom);
            }
        }
        None
    }

    // An atom that is neither true nor false of a clause without a true atom.
    fn open_atom(&self) -> Result<Option<u32>, AllocError> {
        for clause in (0..self.given).rev() {
            let atom = self.open_in(place_of(clause)?);
            if atom.is_some() {
                return Ok(atom);
            }
        }
        Ok(None)
    }

    // The variable with the narrowest bounds that hold two numbers or more.
    fn narrowest(&self) -> Result<Option<u32>, AllocError> {
        let mut best = None;
        let mut width = i128::MAX;
        for variable in 0..self.rows_of.len() {
            let variable = place_of(variable)?;
            let own = minus(self.bounds.high(variable), self.bounds.low(variable));
            if 0 < own && own < width {
                best = Some(variable);
                width = own;
            }
        }
        Ok(best)
    }

    fn decide(&self, alloc: Global, number: u32) -> Result<Answer, AllocError> {
        match self.table.atom(number) {
            Some(atom) => Ok(Answer::Decide(atom.copied(alloc)?)),
            None => Ok(Answer::Stuck),
        }
    }

    fn middle(&self, variable: u32) -> i128 {
        floored(
            plus(self.bounds.low(variable), self.bounds.high(variable)),
            2,
        )
    }

    // The decision of `x <= middle`.
    fn split(&self, alloc: Global, variable: u32, middle: i128) -> Result<Answer, AllocError> {
        Ok(Answer::Decide(at_most(alloc, variable, middle)?))
    }

    // Whether an atom bounds this variable alone.
    fn is_of(&self, number: u32, variable: u32) -> bool {
        match self.table.atom(number) {
            Some(atom) => match atom.parts.as_slice() {
                [part] => part.variable == variable,
                _ => false,
            },
            None => false,
        }
    }

    // Whether a decision bounds this variable alone.
    fn is_split(&self, variable: u32) -> bool {
        for number in self.store.trues.as_slice() {
            if self.store.is_assumed(*number) && self.is_of(*number, variable) {
                return true;
            }
        }
        false
    }

    // The decision on a variable that the point gives a fraction.
    fn split_fraction(
        &self,
        alloc: Global,
        variable: u32,
        whole: i128,
    ) -> Result<Answer, AllocError> {
        if self.is_split(variable) {
            return self.split(alloc, variable, self.middle(variable));
        }
        self.split(alloc, variable, whole)
    }

    // What is decided where the point breaks no clause that is open, and is no model.
    fn last_choice(&self, alloc: Global, point: &Point) -> Result<Answer, AllocError> {
        if let Some((variable, whole)) = point.fraction() {
            return self.split_fraction(alloc, variable, whole);
        }
        if let Some(atom) = self.open_atom()? {
            return self.decide(alloc, atom);
        }
        match self.narrowest()? {
            Some(variable) => self.split(alloc, variable, self.middle(variable)),
            None => Ok(Answer::Stuck),
        }
    }

    // What is proposed at a point.
    pub(crate) fn choice_at(
        &self,
        alloc: Global,
        formula: &Formula,
        point: &Point,
    ) -> Result<Answer, AllocError> {
        if let Some(atom) = self.broken(point)? {
            return self.decide(alloc, atom);
        }
        match point.model(alloc, formula)? {
            Some(numbers) => Ok(Answer::Model(numbers)),
            None => self.last_choice(alloc, point),
        }
    }
}

fn nearer(best: Option<Nearest>, atom: u32, excess: i128) -> Option<Nearest> {
    match best {
        Some(old) => {
            if excess < old.excess {
                Some(Nearest { atom, excess })
            } else {
                Some(old)
            }
        }
        None => Some(Nearest { atom, excess }),
    }
}
