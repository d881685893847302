//! Two true atoms of one shape: opposite factors, place by place, over other variables.

use crate::bounds::{Side, TimesAtom, TimesEntry};
use crate::differences::is_difference;
use crate::engine::Engine;
use crate::numbers::{minus, plus, size, times};
use lucy_clauses::{Atom, Part, Range};
use std::alloc::{AllocError, Global};

fn are_opposite(left: &[Part], right: &[Part]) -> bool {
    if left.len() != right.len() {
        return false;
    }
    for (i, part) in left.iter().enumerate() {
        match right.get(i) {
            Some(other) => {
                if other.by != minus(0, part.by) {
                    return false;
                }
            }
            None => return false,
        }
    }
    true
}

// A sum of true atoms and entries, and its right side.
#[derive(Debug, Drop)]
struct Total {
    atoms: Vec<TimesAtom>,
    entries: Vec<TimesEntry>,
    bound: i128,
}

// How much one variable is above another at most, and the atom that says so; without one the bounds do.
#[derive(Clone, Copy, Debug, PartialEq, Eq)]
struct Gap {
    most: i128,
    by: Option<u32>,
}

impl Engine {
    // The least bound of a true atom of a form, where it is not above what is known.
    fn best_of_form(&self, form: u32, known: Gap) -> Gap {
        let mut best = known;
        let Some(atoms) = self.table.atoms_of(form) else {
            return best;
        };
        for atom in atoms {
            if self.store.is_true(*atom) && self.table.bound(*atom) <= best.most {
                best = Gap {
                    most: self.table.bound(*atom),
                    by: Some(*atom),
                };
            }
        }
        best
    }

    // How much one variable is above another at most.
    fn gap(&self, alloc: Global, high: u32, low: u32) -> Result<Gap, AllocError> {
        let known = Gap {
            most: minus(self.bounds.high(high), self.bounds.low(low)),
            by: None,
        };
        match self.table.difference(alloc, high, low)? {
            Some(form) => Ok(self.best_of_form(form, known)),
            None => Ok(known),
        }
    }

    // Puts the gap of two parts at one place to the total.
    fn put_gap(
        &self,
        alloc: Global,
        part: Part,
        other: Part,
        total: &mut Total,
    ) -> Result<(), AllocError> {
        if part.variable == other.variable {
            return Ok(());
        }
        let by = size(part.by);
        let (high, low) = if 0 < part.by {
            (other.variable, part.variable)
        } else {
            (part.variable, other.variable)
        };
        let gap = self.gap(alloc, high, low)?;
        total.bound = plus(total.bound, times(by, gap.most));
        match gap.by {
            Some(atom) => total.atoms.push(TimesAtom { by, atom })?,
            None => {
                let entry = self.bounds.end(high, Side::High);
                total.entries.push(TimesEntry { by, entry })?;
                let entry = self.bounds.end(low, Side::Low);
                total.entries.push(TimesEntry { by, entry })?;
            }
        }
        Ok(())
    }

    // The sum of two true atoms and of what brings their variables together.
    fn total(
        &self,
        alloc: Global,
        one: u32,
        other: u32,
        left: &Atom,
        right: &Atom,
    ) -> Result<Total, AllocError> {
        let mut total = Total {
            atoms: Vec::new(alloc),
            entries: Vec::new(alloc),
            bound: plus(left.bound, right.bound),
        };
        total.atoms.push(TimesAtom { by: 1, atom: one })?;
        total.atoms.push(TimesAtom { by: 1, atom: other })?;
        for (i, part) in left.parts.as_slice().iter().enumerate() {
            if let Some(second) = right.parts.get(i) {
                self.put_gap(alloc, *part, *second, &mut total)?;
            }
        }
        Ok(total)
    }

    // The total of two true atoms, where they have one shape.
    fn total_of(&self, alloc: Global, one: u32, other: u32) -> Result<Option<Total>, AllocError> {
        let Some(left) = self.table.atom(one) else {
            return Ok(None);
        };
        let Some(right) = self.table.atom(other) else {
            return Ok(None);
        };
        if !are_opposite(&left.parts, &right.parts) {
            return Ok(None);
        }
        let total = self.total(alloc, one, other, left, right)?;
        Ok(Some(total))
    }

    // The lemma of two true atoms, where there is one.
    fn pair(
        &mut self,
        alloc: Global,
        ranges: &[Range],
        one: u32,
        other: u32,
    ) -> Result<bool, AllocError> {
        match self.total_of(alloc, one, other)? {
            Some(total) => {
                if 0 <= total.bound {
                    return Ok(false);
                }
                self.lemma(
                    alloc,
                    ranges,
                    total.atoms.as_slice(),
                    total.entries.as_slice(),
                )
            }
            None => Ok(false),
        }
    }

    // Whether a true atom is one of two parts or more, and no difference.
    pub(crate) fn is_hard(&self, number: u32) -> bool {
        match self.table.atom(number) {
            Some(atom) => 1 < atom.parts.len() && !is_difference(atom),
            None => false,
        }
    }

    // The true atoms of two parts or more that are no differences.
    pub(crate) fn hard(&self, alloc: Global) -> Result<Vec<u32>, AllocError> {
        let mut all = Vec::new(alloc);
        for number in self.store.trues.as_slice() {
            if self.is_hard(*number) {
                all.push(*number)?;
            }
        }
        Ok(all)
    }

    fn pair_with(
        &mut self,
        alloc: Global,
        ranges: &[Range],
        one: u32,
        others: &[u32],
    ) -> Result<bool, AllocError> {
        for other in others {
            if self.pair(alloc, ranges, one, *other)? {
                return Ok(true);
            }
        }
        Ok(false)
    }

    // Whether two true atoms of one shape give a lemma.
    pub(crate) fn finds_pair(
        &mut self,
        alloc: Global,
        ranges: &[Range],
    ) -> Result<bool, AllocError> {
        let hard = self.hard(alloc)?;
        for (i, one) in hard.as_slice().iter().enumerate() {
            let (_, others) = hard.as_slice().split_at(i);
            if self.pair_with(alloc, ranges, *one, others)? {
                return Ok(true);
            }
        }
        Ok(false)
    }
}
