//! Rounded sums of rows and bounds that are tight at a point with a fraction: the point breaks them.

use crate::bounds::{Bounds, Cut, Side, Source, TimesAtom, TimesEntry};
use crate::engine::Engine;
use crate::numbers::{common_divisor, floored, minus, plus, remainder, size, times};
use crate::points::Point;
use crate::systems::{Given, System};
use lucy_clauses::Part;
use std::alloc::{AllocError, Global};

// The greatest number while rows are taken off one another.
const MOST_NUMBER: i128 = 1 << 62;

// The greatest factor of a cut.
const MOST_FACTOR: i128 = 1 << 31;

// How often a row is taken off the others at most.
const MOST_TURNS: u32 = 10_000;

// An equation over the places of a system's variables, and how often each of the first ones is in it.
#[derive(Debug, Drop)]
struct Tight {
    factors: Vec<i128>,
    bound: i128,
    by: Vec<i128>,
}

// The equations that hold at a point, and what each is.
#[derive(Debug, Drop)]
struct Tights {
    rows: Vec<Tight>,
    sources: Vec<Source>,
}

// The least factor of rows: the row, the variable's place.
#[derive(Clone, Copy, Debug, PartialEq, Eq)]
struct Least {
    row: usize,
    place: usize,
    size: i128,
}

fn zeros(alloc: Global, count: usize) -> Result<Vec<i128>, AllocError> {
    let mut all = Vec::new(alloc);
    for _ in 0..count {
        all.push(0)?;
    }
    Ok(all)
}

fn number_at(numbers: &[i128], place: usize) -> i128 {
    match numbers.get(place) {
        Some(number) => *number,
        None => 0,
    }
}

fn put_number(numbers: &mut Vec<i128>, place: usize, value: i128) {
    if let Some(number) = numbers.get_mut(place) {
        *number = value;
    }
}

// Adds so many times the numbers of another list.
fn add_times(numbers: &mut Vec<i128>, by: i128, others: &[i128]) {
    for (i, other) in others.iter().enumerate() {
        if let Some(number) = numbers.get_mut(i) {
            *number = plus(*number, times(by, *other));
        }
    }
}

fn are_small(numbers: &[i128], most: i128) -> bool {
    for number in numbers {
        if most < size(*number) {
            return false;
        }
    }
    true
}

fn is_zero(numbers: &[i128]) -> bool {
    for number in numbers {
        if *number != 0 {
            return false;
        }
    }
    true
}

fn divisor_of(numbers: &[i128]) -> i128 {
    let mut divisor = 0;
    for number in numbers {
        divisor = common_divisor(divisor, size(*number));
    }
    divisor
}

// The factors of a row at the places of the variables.
fn factors_of(alloc: Global, names: &[u32], parts: &[Part]) -> Result<Vec<i128>, AllocError> {
    let mut factors = zeros(alloc, names.len())?;
    for part in parts {
        if let Ok(place) = names.binary_search(&part.variable) {
            put_number(&mut factors, place, part.by);
        }
    }
    Ok(factors)
}

impl Tights {
    fn push(
        &mut self,
        alloc: Global,
        factors: Vec<i128>,
        bound: i128,
        of: Source,
    ) -> Result<(), AllocError> {
        self.rows.push(Tight {
            factors,
            bound,
            by: Vec::new(alloc),
        })?;
        self.sources.push(of)?;
        Ok(())
    }
}

// Each of the first equations is itself, once.
fn number_rows(alloc: Global, rows: &mut Vec<Tight>) -> Result<(), AllocError> {
    let count = rows.len();
    for i in 0..count {
        let mut by = zeros(alloc, count)?;
        put_number(&mut by, i, 1);
        if let Some(row) = rows.get_mut(i) {
            row.by = by;
        }
    }
    Ok(())
}

fn push_tight_row(
    alloc: Global,
    names: &[u32],
    row: &Given,
    point: &Point,
    all: &mut Tights,
) -> Result<(), AllocError> {
    if point.is_tight(&row.parts, row.bound) {
        let factors = factors_of(alloc, names, &row.parts)?;
        all.push(alloc, factors, row.bound, row.of)?;
    }
    Ok(())
}

// The side at which a variable's number is its bound.
fn tight_side(bounds: &Bounds, variable: u32, point: &Point) -> Option<Side> {
    if point.is_at(variable, bounds.low(variable)) {
        Some(Side::Low)
    } else if point.is_at(variable, bounds.high(variable)) {
        Some(Side::High)
    } else {
        None
    }
}

fn push_tight_side(
    alloc: Global,
    bounds: &Bounds,
    names: &[u32],
    place: usize,
    variable: u32,
    point: &Point,
    all: &mut Tights,
) -> Result<(), AllocError> {
    let Some(side) = tight_side(bounds, variable, point) else {
        return Ok(());
    };
    let mut factors = zeros(alloc, names.len())?;
    let entry = bounds.end(variable, side);
    let value = bounds.value(entry);
    let (by, bound) = match side {
        Side::Low => (-1, minus(0, value)),
        Side::High => (1, value),
    };
    put_number(&mut factors, place, by);
    all.push(alloc, factors, bound, Source::Entry(entry))
}

// The rows and bounds that are tight at a point.
fn tight_rows(
    alloc: Global,
    bounds: &Bounds,
    system: &System,
    point: &Point,
) -> Result<Tights, AllocError> {
    let names = system.names.as_slice();
    let mut all = Tights {
        rows: Vec::new(alloc),
        sources: Vec::new(alloc),
    };
    for row in system.rows.as_slice() {
        push_tight_row(alloc, names, row, point, &mut all)?;
    }
    for (place, variable) in names.iter().enumerate() {
        push_tight_side(alloc, bounds, names, place, *variable, point, &mut all)?;
    }
    number_rows(alloc, &mut all.rows)?;
    Ok(all)
}

// The divisor of an equation that has no integer solution: it divides each factor and not the right side.
fn divisor_without(row: &Tight) -> Option<i128> {
    let divisor = divisor_of(row.factors.as_slice());
    if divisor < 2 || remainder(row.bound, divisor) == 0 {
        None
    } else {
        Some(divisor)
    }
}

fn least_of_row(row: usize, factors: &[i128], known: Option<Least>) -> Option<Least> {
    let mut best = known;
    for (place, factor) in factors.iter().enumerate() {
        let size = size(*factor);
        let is_less = match best {
            Some(least) => size < least.size,
            None => true,
        };
        if size != 0 && is_less {
            best = Some(Least { row, place, size });
        }
    }
    best
}

fn least_factor(rows: &[Tight]) -> Option<Least> {
    let mut best = None;
    for (i, row) in rows.iter().enumerate() {
        best = least_of_row(i, row.factors.as_slice(), best);
    }
    best
}

fn kept(alloc: Global, rows: Vec<Tight>) -> Result<Vec<Tight>, AllocError> {
    let mut all = Vec::new(alloc);
    for row in rows {
        if !is_zero(row.factors.as_slice()) {
            all.push(row)?;
        }
    }
    Ok(all)
}

// Takes a row off another one, so that a variable's factor is as small as may be. Whether the factor is gone.
fn take_off(row: &mut Tight, pivot: &Tight, place: usize) -> bool {
    let own = number_at(row.factors.as_slice(), place);
    if own == 0 {
        return true;
    }
    let by = minus(0, quotient(own, number_at(pivot.factors.as_slice(), place)));
    add_times(&mut row.factors, by, pivot.factors.as_slice());
    add_times(&mut row.by, by, pivot.by.as_slice());
    row.bound = plus(row.bound, times(by, pivot.bound));
    number_at(row.factors.as_slice(), place) == 0
}

// The quotient, rounded down where the divisor is positive, and up where it is not.
fn quotient(a: i128, by: i128) -> i128 {
    if by < 0 {
        minus(0, floored(a, minus(0, by)))
    } else {
        floored(a, by)
    }
}

fn is_small(row: &Tight) -> bool {
    are_small(row.factors.as_slice(), MOST_NUMBER)
        && are_small(row.by.as_slice(), MOST_NUMBER)
        && size(row.bound) <= MOST_NUMBER
}

// An equation without an integer solution, and its divisor.
#[derive(Debug, Drop)]
struct Found {
    by: Vec<i128>,
    divisor: i128,
}

// What comes of a turn.
#[derive(Debug, Drop)]
enum Turn {
    Found(Found),
    // Each row has lost the variable, or not.
    Went(bool),
    Lost,
}

fn found_of(alloc: Global, row: &Tight, divisor: i128) -> Result<Found, AllocError> {
    let by = Vec::from_slice(alloc, row.by.as_slice())?;
    Ok(Found { by, divisor })
}

fn take_off_all(
    alloc: Global,
    rows: &mut Vec<Tight>,
    pivot: &Tight,
    place: usize,
) -> Result<Turn, AllocError> {
    let mut whole = true;
    for row in rows.iter_mut() {
        let is_gone = take_off(row, pivot, place);
        whole = whole && is_gone;
        if !is_small(row) {
            return Ok(Turn::Lost);
        }
        if let Some(divisor) = divisor_without(row) {
            return Ok(Turn::Found(found_of(alloc, row, divisor)?));
        }
    }
    Ok(Turn::Went(whole))
}

fn first_found(alloc: Global, rows: &[Tight]) -> Result<Option<Found>, AllocError> {
    for row in rows {
        if let Some(divisor) = divisor_without(row) {
            return Ok(Some(found_of(alloc, row, divisor)?));
        }
    }
    Ok(None)
}

// An equation without an integer solution among those that come of equations.
fn unsolved(alloc: Global, first: Vec<Tight>) -> Result<Option<Found>, AllocError> {
    let mut rows = first;
    for _ in 0..MOST_TURNS {
        rows = kept(alloc, rows)?;
        if rows.len() < 2 {
            return Ok(None);
        }
        let Some(least) = least_factor(rows.as_slice()) else {
            return Ok(None);
        };
        if least.row >= rows.len() {
            return Ok(None);
        }
        let pivot = rows.remove(least.row);
        match take_off_all(alloc, &mut rows, &pivot, least.place)? {
            Turn::Found(found) => return Ok(Some(found)),
            Turn::Lost => return Ok(None),
            Turn::Went(whole) => {
                if !whole {
                    rows.push(pivot)?;
                }
            }
        }
    }
    Ok(None)
}

// The sum of the first equations, each as often as the remainder of its number by the divisor says.
fn rounded(
    alloc: Global,
    tights: &Tights,
    found: &Found,
    count: usize,
) -> Result<Tight, AllocError> {
    let mut sum = Tight {
        factors: zeros(alloc, count)?,
        bound: 0,
        by: Vec::new(alloc),
    };
    for (i, row) in tights.rows.as_slice().iter().enumerate() {
        let by = remainder(number_at(found.by.as_slice(), i), found.divisor);
        add_times(&mut sum.factors, by, row.factors.as_slice());
        sum.bound = plus(sum.bound, times(by, row.bound));
        sum.by.push(by)?;
    }
    Ok(sum)
}

fn parts_of(
    alloc: Global,
    names: &[u32],
    factors: &[i128],
    divisor: i128,
) -> Result<Vec<Part>, AllocError> {
    let mut parts = Vec::new(alloc);
    for (i, factor) in factors.iter().enumerate() {
        if *factor != 0
            && let Some(variable) = names.get(i).copied()
        {
            parts.push(Part {
                variable,
                by: floored(*factor, divisor),
            })?;
        }
    }
    Ok(parts)
}

fn cut_of(
    alloc: Global,
    sources: &[Source],
    by: &[i128],
    divisor: i128,
) -> Result<Cut, AllocError> {
    let mut cut = Cut {
        atoms: Vec::new(alloc),
        entries: Vec::new(alloc),
        by: divisor,
    };
    for (i, of) in sources.iter().enumerate() {
        put_source(&mut cut, *of, number_at(by, i))?;
    }
    Ok(cut)
}

fn put_source(cut: &mut Cut, of: Source, by: i128) -> Result<(), AllocError> {
    if by < 1 {
        return Ok(());
    }
    match of {
        Source::Atom(atom) => cut.atoms.push(TimesAtom { by, atom })?,
        Source::Entry(entry) => cut.entries.push(TimesEntry { by, entry })?,
    }
    Ok(())
}

impl Engine {
    // The row of an equation without an integer solution.
    fn cut_row(
        &mut self,
        alloc: Global,
        names: &[u32],
        tights: &Tights,
        found: &Found,
    ) -> Result<Option<Given>, AllocError> {
        let sum = rounded(alloc, tights, found, names.len())?;
        let parts = parts_of(alloc, names, sum.factors.as_slice(), found.divisor)?;
        for part in &parts {
            if MOST_FACTOR < size(part.by) {
                return Ok(None);
            }
        }
        let cut = cut_of(
            alloc,
            tights.sources.as_slice(),
            sum.by.as_slice(),
            found.divisor,
        )?;
        let entry = self.bounds.push_cut(cut)?;
        Ok(Some(Given {
            parts,
            bound: floored(sum.bound, found.divisor),
            of: Source::Entry(entry),
        }))
    }

    // A rounded sum of what is tight at a point.
    pub(crate) fn cut(
        &mut self,
        alloc: Global,
        system: &System,
        point: &Point,
    ) -> Result<Option<Given>, AllocError> {
        let first = tight_rows(alloc, &self.bounds, system, point)?;
        let again = tight_rows(alloc, &self.bounds, system, point)?;
        let found = match first_found(alloc, first.rows.as_slice())? {
            Some(found) => Some(found),
            None => unsolved(alloc, again.rows)?,
        };
        match found {
            Some(found) => self.cut_row(alloc, system.names.as_slice(), &first, &found),
            None => Ok(None),
        }
    }
}
