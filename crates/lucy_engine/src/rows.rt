//! Bounds that follow from true atoms.

use crate::bounds::{Bounds, Row, Side, TimesAtom, Why};
use crate::engine::Engine;
use crate::numbers::{minus, next, size};
use lucy_clauses::{Atom, Part, Range};
use std::alloc::{AllocError, Global};

// The side that an atom bounds of a part's variable.
fn side_of(part: Part) -> Side {
    if 0 < part.by { Side::High } else { Side::Low }
}

// A bound by a true atom of one variable.
fn bound_one(bounds: &mut Bounds, number: u32, part: Part, bound: i128) -> Result<(), AllocError> {
    let value = Bounds::given(part, bound, 0);
    let side = side_of(part);
    if bounds.is_better(part.variable, side, value) {
        bounds.push(part.variable, side, value, Why::Atom(number))?;
    }
    Ok(())
}

// Whether a row may move a part's variable in this look.
fn may_move(bounds: &Bounds, part: Part) -> bool {
    bounds.low(part.variable) < bounds.high(part.variable)
        && !bounds.is_moved(part.variable, side_of(part))
}

// A bound by a true atom of more variables, whose sum is at least `least`.
fn bound_part(
    alloc: Global,
    bounds: &mut Bounds,
    number: u32,
    atom: &Atom,
    part: Part,
    least: i128,
) -> Result<(), AllocError> {
    let rest = minus(least, bounds.reach(part));
    let value = Bounds::given(part, atom.bound, rest);
    let side = side_of(part);
    if !bounds.is_better(part.variable, side, value) {
        return Ok(());
    }
    let others = bounds.below_all(alloc, &atom.parts, Some(part.variable))?;
    bounds.note_moved(part.variable, side);
    let row = Row {
        atom: number,
        others,
        by: size(part.by),
    };
    bounds.push(part.variable, side, value, Why::Row(row))
}

// The bounds by a true atom whose sum is at least `least`, which is no conflict.
fn bound_parts(
    alloc: Global,
    bounds: &mut Bounds,
    number: u32,
    atom: &Atom,
    least: i128,
) -> Result<(), AllocError> {
    if atom.parts.len() == 1 {
        for part in &atom.parts {
            bound_one(bounds, number, *part, atom.bound)?;
        }
        return Ok(());
    }
    for part in &atom.parts {
        if may_move(bounds, *part) {
            bound_part(alloc, bounds, number, atom, *part, least)?;
        }
    }
    Ok(())
}

impl Engine {
    // Moves bounds by a true atom. Whether it is a conflict.
    fn move_by(
        &mut self,
        alloc: Global,
        ranges: &[Range],
        number: u32,
    ) -> Result<bool, AllocError> {
        let Some(atom) = self.table.atom(number) else {
            return Ok(false);
        };
        let least = self.bounds.least(&atom.parts);
        if least <= atom.bound {
            bound_parts(alloc, &mut self.bounds, number, atom, least)?;
            return Ok(false);
        }
        let entries = self.bounds.below_all(alloc, &atom.parts, None)?;
        let one = [TimesAtom {
            by: 1,
            atom: number,
        }];
        self.lemma(alloc, ranges, one.as_slice(), entries.as_slice())
    }

    // Notes a true atom at its variables, where it has two or more.
    fn note_row(&mut self, number: u32) -> Result<(), AllocError> {
        let Some(atom) = self.table.atom(number) else {
            return Ok(());
        };
        if atom.parts.len() < 2 {
            return Ok(());
        }
        for part in &atom.parts {
            if let Some(rows) = self.rows_of.get_mut(part.variable as usize) {
                rows.push(number)?;
            }
        }
        Ok(())
    }

    // Moves bounds by the atoms that became true. Whether there was a conflict.
    fn takes_in(&mut self, alloc: Global, ranges: &[Range]) -> Result<bool, AllocError> {
        for _ in 0..u64::MAX {
            let Some(number) = self.store.trues.get(self.seen).copied() else {
                break;
            };
            self.seen = next(self.seen);
            self.note_row(number)?;
            if self.move_by(alloc, ranges, number)? {
                return Ok(true);
            }
        }
        Ok(false)
    }

    fn row_at(&self, variable: u32, place: usize) -> Option<u32> {
        match self.rows_of.get(variable as usize) {
            Some(rows) => rows.get(place).copied(),
            None => None,
        }
    }

    // Moves bounds by the true atoms that name a variable.
    fn move_at(
        &mut self,
        alloc: Global,
        ranges: &[Range],
        variable: u32,
    ) -> Result<bool, AllocError> {
        for place in 0..usize::MAX {
            let Some(number) = self.row_at(variable, place) else {
                break;
            };
            if self.move_by(alloc, ranges, number)? {
                return Ok(true);
            }
        }
        Ok(false)
    }

    // Moves bounds and finds atoms that they settle. Whether a lemma was found.
    pub(crate) fn moves_bounds(
        &mut self,
        alloc: Global,
        ranges: &[Range],
    ) -> Result<bool, AllocError> {
        if self.takes_in(alloc, ranges)? {
            return Ok(true);
        }
        for place in 0..usize::MAX {
            let Some(variable) = self.bounds.changed.get(place).copied() else {
                break;
            };
            if self.move_at(alloc, ranges, variable)? {
                return Ok(true);
            }
        }
        self.settles(alloc, ranges)
    }
}
