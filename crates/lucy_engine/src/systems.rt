//! Rows that hang together, their point or the multipliers that refute them, by the simplex method.

use crate::bounds::{Bounds, Side, Source, TimesAtom, TimesEntry};
use crate::engine::Engine;
use crate::numbers::{common_multiple, floored, place_of, times};
use crate::points::Point;
use lucy_clauses::{Part, Range};
use lucy_fraction::Fraction;
use lucy_simplex::{Answer, Multipliers, Row, is_system, solve};
use std::alloc::{AllocError, Global};

// How many pivots a run has at most.
const MOST_PIVOTS: u64 = 20_000;

// The greatest common denominator of a point.
const MOST_BELOW: i128 = 1 << 62;

/// A row over the variables of the formula, and what it is.
#[derive(Debug, Drop)]
pub struct Given {
    /// The variables with their factors.
    pub parts: Vec<Part>,
    /// The greatest value of the sum.
    pub bound: i128,
    /// What it is.
    pub of: Source,
}

/// Rows and their variables, in ascending order.
#[derive(Debug, Drop)]
pub struct System {
    /// The rows.
    pub rows: Vec<Given>,
    /// The variables.
    pub names: Vec<u32>,
}

/// What a run comes to.
#[derive(Debug, Drop)]
pub enum Ran {
    /// A point.
    Point(Point),
    /// A lemma was found.
    Lemma,
    /// Neither.
    Nothing,
}

// Which atoms and which variables were reached.
#[derive(Debug, Drop)]
struct Reached {
    atoms: Vec<bool>,
    variables: Vec<bool>,
}

fn flags(alloc: Global, count: usize) -> Result<Vec<bool>, AllocError> {
    let mut all = Vec::new(alloc);
    for _ in 0..count {
        all.push(false)?;
    }
    Ok(all)
}

// Sets a flag. Whether it was not set.
fn set(flags: &mut Vec<bool>, place: u32) -> bool {
    match flags.get_mut(place as usize) {
        Some(flag) => {
            let is_new = !*flag;
            *flag = true;
            is_new
        }
        None => false,
    }
}

fn set_places(alloc: Global, flags: &[bool]) -> Result<Vec<u32>, AllocError> {
    let mut all = Vec::new(alloc);
    for (i, flag) in flags.iter().enumerate() {
        if *flag {
            all.push(place_of(i)?)?;
        }
    }
    Ok(all)
}

// The place of a variable among those of a system.
fn place_in(names: &[u32], variable: u32) -> Option<u32> {
    match names.binary_search(&variable) {
        Ok(place) => u32::try_from(place).ok(),
        Err(_) => None,
    }
}

// A row over the places of the variables.
fn placed(alloc: Global, row: &Given, names: &[u32]) -> Result<Row, AllocError> {
    let mut parts = Vec::new(alloc);
    for part in &row.parts {
        if let Some(variable) = place_in(names, part.variable) {
            parts.push(Part {
                variable,
                by: part.by,
            })?;
        }
    }
    Ok(Row {
        parts,
        bound: row.bound,
    })
}

fn placed_rows(alloc: Global, system: &System) -> Result<Vec<Row>, AllocError> {
    let mut rows = Vec::new(alloc);
    for row in system.rows.as_slice() {
        rows.push(placed(alloc, row, system.names.as_slice())?)?;
    }
    Ok(rows)
}

fn bound_of(value: i128) -> i64 {
    match i64::try_from(value) {
        Ok(value) => value,
        Err(_) => i64::MAX,
    }
}

fn ranges_of(alloc: Global, bounds: &Bounds, names: &[u32]) -> Result<Vec<Range>, AllocError> {
    let mut ranges = Vec::new(alloc);
    for variable in names {
        ranges.push(Range {
            lo: bound_of(bounds.low(*variable)),
            hi: bound_of(bounds.high(*variable)),
        })?;
    }
    Ok(ranges)
}

// A common denominator of fractions, where it is within the limit.
fn below_of(point: &[Fraction]) -> Option<i128> {
    let mut below = 1;
    for number in point {
        below = common_multiple(below, i128::from(number.denominator()));
        if MOST_BELOW < below {
            return None;
        }
    }
    Some(below)
}

fn top_of(number: Fraction, below: i128) -> i128 {
    let more = floored(below, i128::from(number.denominator()));
    times(i128::from(number.numerator()), more)
}

// The numbers of a point with those of some variables in their place.
fn spread(
    alloc: Global,
    old: &Point,
    names: &[u32],
    point: &[Fraction],
    below: i128,
) -> Result<Point, AllocError> {
    let mut tops = Vec::new(alloc);
    for top in old.tops.as_slice() {
        tops.push(times(floored(*top, old.below), below))?;
    }
    for (i, number) in point.iter().enumerate() {
        if let Some(variable) = names.get(i).copied() {
            put_top(&mut tops, variable, top_of(*number, below));
        }
    }
    Ok(Point { below, tops })
}

fn put_top(tops: &mut Vec<i128>, variable: u32, value: i128) {
    if let Some(top) = tops.get_mut(variable as usize) {
        *top = value;
    }
}

fn point_of(
    alloc: Global,
    old: &Point,
    names: &[u32],
    point: &[Fraction],
) -> Result<Ran, AllocError> {
    match below_of(point) {
        Some(below) => Ok(Ran::Point(spread(alloc, old, names, point, below)?)),
        None => Ok(Ran::Nothing),
    }
}

// The true atoms and entries of a refutation.
#[derive(Debug, Drop)]
struct Sources {
    atoms: Vec<TimesAtom>,
    entries: Vec<TimesEntry>,
}

impl Sources {
    fn put(&mut self, of: Source, by: i128) -> Result<(), AllocError> {
        if by < 1 {
            return Ok(());
        }
        match of {
            Source::Atom(atom) => self.atoms.push(TimesAtom { by, atom })?,
            Source::Entry(entry) => self.entries.push(TimesEntry { by, entry })?,
        }
        Ok(())
    }

    fn put_rows(&mut self, rows: &[Given], by: &[i128]) -> Result<(), AllocError> {
        for (i, row) in rows.iter().enumerate() {
            if let Some(by) = by.get(i) {
                self.put(row.of, *by)?;
            }
        }
        Ok(())
    }

    fn put_side(
        &mut self,
        bounds: &Bounds,
        names: &[u32],
        side: Side,
        by: &[i128],
    ) -> Result<(), AllocError> {
        for (i, variable) in names.iter().enumerate() {
            if let Some(by) = by.get(i) {
                self.put(Source::Entry(bounds.end(*variable, side)), *by)?;
            }
        }
        Ok(())
    }
}

fn sources_of(
    alloc: Global,
    bounds: &Bounds,
    system: &System,
    found: &Multipliers,
) -> Result<Sources, AllocError> {
    let names = system.names.as_slice();
    let mut sources = Sources {
        atoms: Vec::new(alloc),
        entries: Vec::new(alloc),
    };
    sources.put_rows(system.rows.as_slice(), found.rows.as_slice())?;
    sources.put_side(bounds, names, Side::Low, found.lows.as_slice())?;
    sources.put_side(bounds, names, Side::High, found.highs.as_slice())?;
    Ok(sources)
}

impl Engine {
    // Whether the bounds do not imply a true atom.
    fn binds(&self, number: u32) -> bool {
        match self.table.atom(number) {
            Some(atom) => atom.bound < self.bounds.greatest(&atom.parts),
            None => false,
        }
    }

    // The true atoms that name a variable are to be looked at.
    fn push_rows_of(&self, variable: u32, waiting: &mut Vec<u32>) -> Result<(), AllocError> {
        if let Some(rows) = self.rows_of.get(variable as usize) {
            for row in rows {
                waiting.push(*row)?;
            }
        }
        Ok(())
    }

    fn reach_atom(
        &self,
        number: u32,
        reached: &mut Reached,
        waiting: &mut Vec<u32>,
    ) -> Result<(), AllocError> {
        if !self.binds(number) || !set(&mut reached.atoms, number) {
            return Ok(());
        }
        let Some(atom) = self.table.atom(number) else {
            return Ok(());
        };
        for part in &atom.parts {
            if set(&mut reached.variables, part.variable) {
                self.push_rows_of(part.variable, waiting)?;
            }
        }
        Ok(())
    }

    // What hangs together with some true atoms by shared variables.
    fn reached(&self, alloc: Global, first: Vec<u32>) -> Result<Reached, AllocError> {
        let mut reached = Reached {
            atoms: flags(alloc, self.table.count())?,
            variables: flags(alloc, self.rows_of.len())?,
        };
        let mut waiting = first;
        for _ in 0..u64::MAX {
            let Some(number) = waiting.pop() else {
                break;
            };
            self.reach_atom(number, &mut reached, &mut waiting)?;
        }
        Ok(reached)
    }

    fn given(&self, alloc: Global, number: u32) -> Result<Option<Given>, AllocError> {
        let Some(atom) = self.table.atom(number) else {
            return Ok(None);
        };
        let parts = Vec::from_slice(alloc, &atom.parts)?;
        Ok(Some(Given {
            parts,
            bound: atom.bound,
            of: Source::Atom(number),
        }))
    }

    fn given_rows(&self, alloc: Global, atoms: &[bool]) -> Result<Vec<Given>, AllocError> {
        let mut rows = Vec::new(alloc);
        for (i, is_reached) in atoms.iter().enumerate() {
            if *is_reached && let Some(row) = self.given(alloc, place_of(i)?)? {
                rows.push(row)?;
            }
        }
        Ok(rows)
    }

    // The rows that hang together with a true atom that is no difference.
    pub(crate) fn system(&self, alloc: Global) -> Result<System, AllocError> {
        let hard = self.hard(alloc)?;
        let reached = self.reached(alloc, hard)?;
        let rows = self.given_rows(alloc, reached.atoms.as_slice())?;
        let names = set_places(alloc, reached.variables.as_slice())?;
        Ok(System { rows, names })
    }

    // The lemma of a refutation.
    fn refuted(
        &mut self,
        alloc: Global,
        ranges: &[Range],
        system: &System,
        found: &Multipliers,
    ) -> Result<Ran, AllocError> {
        let sources = sources_of(alloc, &self.bounds, system, found)?;
        let is_lemma = self.lemma(
            alloc,
            ranges,
            sources.atoms.as_slice(),
            sources.entries.as_slice(),
        )?;
        if is_lemma {
            Ok(Ran::Lemma)
        } else {
            Ok(Ran::Nothing)
        }
    }

    // Runs the simplex method over a system.
    pub(crate) fn run(
        &mut self,
        alloc: Global,
        ranges: &[Range],
        system: &System,
        old: &Point,
    ) -> Result<Ran, AllocError> {
        let names = system.names.as_slice();
        let rows = placed_rows(alloc, system)?;
        let bounds = ranges_of(alloc, &self.bounds, names)?;
        if !is_system(rows.as_slice(), bounds.as_slice()) {
            return Ok(Ran::Nothing);
        }
        match solve(alloc, rows.as_slice(), bounds.as_slice(), MOST_PIVOTS)? {
            Answer::Point(point) => point_of(alloc, old, names, point.as_slice()),
            Answer::Farkas(found) => self.refuted(alloc, ranges, system, &found),
            Answer::Wide(_) => Ok(Ran::Nothing),
            Answer::Turns => Ok(Ran::Nothing),
        }
    }

    // Whether the point breaks a true atom that is no difference.
    pub(crate) fn breaks(&self, point: &Point) -> bool {
        for number in self.store.trues.as_slice() {
            if self.is_hard(*number) && 0 < self.excess(point, *number) {
                return true;
            }
        }
        false
    }
}
