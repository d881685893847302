//! The first tableau, line by line.
ghost use Rattle.std.specs.Prelude.{◌≡◌, ◌<◌, ◌≤◌, ◌+◌, ◌^◌, ◌++◌, ◌∷◌, [], pos, neg_ℤ, ◌-ℤ◌, true, length, map, unsigned_abs, ℕ, List, ℤ, IfOk, IfErr, OnOk, IsTrue, ◌↔◌};
ghost use Rattle.std.specs.List.{list_all};
ghost use Rattle.lucy_fraction.specs.Rationals.{ratio, IsTooWide};
ghost use Rattle.lucy_clauses.specs.Parts.{total_size};
ghost use Rattle.lucy_clauses.specs.Formulas.{weight, names_below};
ghost use Rattle.lucy_simplex.specs.Systems.{lows_of};
ghost use Rattle.lucy_simplex.specs.Steps.{IsOver, AreNumbers};
ghost use Rattle.lucy_simplex.specs.First.{dense, unit, unit_at, factor_at, row_constant, bound_constant, row_numbers, bound_numbers, row_equations, bound_equations, first_tableau};
ghost use Rattle.lucy_simplex.specs.Reading.{AreRead, AppendsLines};
ghost use Rattle.lucy_simplex.specs.Causes.{SomeTooWide, IsFirstTooWide};
ghost use Rattle.lucy_simplex.specs.Widths.{StopsAt, StopsFor};
ghost use Rattle.lucy_simplex.specs.Conditions.{is_small_range, is_narrow_row, is_system};
ghost use Rattle.lucy_simplex.specs.declared.lines.Line.{Line};

use crate::lines::Line;
use crate::numbers::{push_fraction, push_number};
use crate::pivoting::push_line;
use crate::rows::{Row, at_lows, factor_of};
use crate::stops::Stop;
use lucy_clauses::{Part, Range};
use lucy_fraction::{Fraction, Wide};
use std::alloc::{AllocError, Global};

// The greatest size of a number that is a fraction.
const MOST_WHOLE: u128 = 1 << 62;

fn is_within(number: i128) -> bool
    ensures { IsTrue result ↔ (unsigned_abs number ≤ 2 ^ 62) }
{
    number.unsigned_abs() <= MOST_WHOLE
}

fn narrowed(number: i128) -> i64
    requires { unsigned_abs number ≤ 2 ^ 62 }
    ensures { result ≡ number }
{
    number as i64
}

// The fraction of a whole number.
fn fraction_of(number: i128) -> Result<Fraction, Wide>
    ensures value { IfOk result (λ p. IsOver 1 p number) }
    ensures wide { IfErr result (λ _. IsTooWide (ratio number 1)) }
{
    if is_within(number) {
        Fraction::whole(narrowed(number))
    } else {
        Err(Wide)
    }
}

// The fractions of whole numbers.
fn fractions_of(alloc: Global, numbers: &[i128], equation: usize) -> Result<Vec<Fraction>, Stop>
    ensures over { IfOk result (λ v. AreNumbers 1 v.items numbers.now) }
    ensures wide { IfErr result (λ e. StopsAt equation (SomeTooWide numbers.now) e) }
{
    let mut all = Vec::new(alloc);
    for place in 0..numbers.len() {
        let Ok(fraction) = fraction_of(numbers[place]) else {
            return Err(Stop::Wide(equation));
        };
        push_fraction(&mut all, fraction)?;
    }
    Ok(all)
}

fn negative(number: i128) -> i128
    requires { unsigned_abs number ≤ 2 ^ 101 }
    ensures { result ≡ neg_ℤ number }
{
    -number
}

// Appends the negative of each variable's factor.
fn push_factors(all: &mut Vec<i128>, parts: &[Part], count: usize) -> Result<(), AllocError>
    requires { total_size parts.now ≤ 2 ^ 101 }
    ensures { OnOk result (all.new.items ≡ all.old.items ++ map neg_ℤ (dense count parts.now)) }
{
    for variable in 0..count {
        push_number(all, negative(factor_of(parts, variable)))?;
    }
    Ok(())
}

fn unit_at(own: usize, place: usize) -> i128
    ensures { result ≡ unit_at own place }
{
    if own == place { -1 } else { 0 }
}

// Appends -1 at the own place and 0 at the others; 0 at each where the own place is past the end.
fn push_unit(all: &mut Vec<i128>, count: usize, own: usize) -> Result<(), AllocError>
    ensures { OnOk result (all.new.items ≡ all.old.items ++ unit count own) }
{
    for place in 0..count {
        push_number(all, unit_at(own, place))?;
    }
    Ok(())
}

fn difference(left: i128, right: i128) -> i128
    requires { unsigned_abs left + unsigned_abs right ≤ 2 ^ 101 }
    ensures { result ≡ left -ℤ right }
{
    left - right
}

// The constant of a row's line.
fn row_constant(row: &Row, bounds: &[Range]) -> i128
    requires { is_narrow_row bounds.now row.now ≡ true }
    ensures { result ≡ row_constant (lows_of bounds.now) row.now }
{
    difference(row.bound, at_lows(&row.parts, bounds))
}

// The constant of a bound's line.
fn bound_constant(range: Range) -> i128
    requires { is_small_range range ≡ true }
    ensures { result ≡ bound_constant range }
{
    difference(i128::from(range.hi), i128::from(range.lo))
}

// The numbers of a row's line.
fn row_numbers(
    alloc: Global,
    row: &Row,
    bounds: &[Range],
    rows: usize,
    place: usize,
) -> Result<Vec<i128>, AllocError>
    requires { is_narrow_row bounds.now row.now ≡ true }
    ensures { IfOk result (λ v. v.items ≡ row_numbers (length bounds.now) rows (lows_of bounds.now) place row.now) }
{
    let mut numbers = Vec::new(alloc);
    push_number(&mut numbers, row_constant(row, bounds))?;
    push_number(&mut numbers, 1)?;
    push_factors(&mut numbers, &row.parts, bounds.len())?;
    push_unit(&mut numbers, rows, place)?;
    push_unit(&mut numbers, bounds.len(), bounds.len())?;
    Ok(numbers)
}

// The numbers of a bound's line.
fn bound_numbers(
    alloc: Global,
    range: Range,
    count: usize,
    rows: usize,
    place: usize,
) -> Result<Vec<i128>, AllocError>
    requires { is_small_range range ≡ true }
    ensures { IfOk result (λ v. v.items ≡ bound_numbers count rows place range) }
{
    let mut numbers = Vec::new(alloc);
    push_number(&mut numbers, bound_constant(range))?;
    push_number(&mut numbers, 1)?;
    push_unit(&mut numbers, count, place)?;
    push_unit(&mut numbers, rows, rows)?;
    push_unit(&mut numbers, count, place)?;
    Ok(numbers)
}

// Appends the line of each row.
fn push_rows(
    alloc: Global,
    lines: &mut Vec<Line>,
    rows: &[Row],
    bounds: &[Range],
) -> Result<(), Stop>
    requires { list_all (is_narrow_row bounds.now) rows.now ≡ true }
    ensures appends { OnOk result (AppendsLines lines.old.items (row_equations (length bounds.now) (length rows.now) (lows_of bounds.now) 0 rows.now) lines.new.items) }
    ensures wide { IfErr result (λ e. StopsFor (IsFirstTooWide rows.now bounds.now) e) }
{
    for (place, row) in rows.iter().enumerate() {
        let numbers = row_numbers(alloc, row, bounds, rows.len(), place)?;
        let basic = 2 + bounds.len() + place;
        match fractions_of(alloc, numbers.as_slice(), place) {
            Ok(numbers) => push_line(lines, Line { basic, numbers })?,
            Err(stop) => return Err(stop),
        }
    }
    Ok(())
}

// Appends the line of each upper bound.
fn push_bounds(
    alloc: Global,
    lines: &mut Vec<Line>,
    rows: &[Row],
    bounds: &[Range],
) -> Result<(), Stop>
    requires { list_all is_small_range bounds.now ≡ true }
    ensures appends { OnOk result (AppendsLines lines.old.items (bound_equations (length bounds.now) (length rows.now) 0 bounds.now) lines.new.items) }
    ensures wide { IfErr result (λ e. StopsFor (IsFirstTooWide rows.now bounds.now) e) }
{
    for (place, range) in bounds.iter().enumerate() {
        let numbers = bound_numbers(alloc, *range, bounds.len(), rows.len(), place)?;
        let basic = 2 + bounds.len() + rows.len() + place;
        match fractions_of(alloc, numbers.as_slice(), rows.len() + place) {
            Ok(numbers) => push_line(lines, Line { basic, numbers })?,
            Err(stop) => return Err(stop),
        }
    }
    Ok(())
}

/// The lines of the first tableau.
pub fn first_lines(alloc: Global, rows: &[Row], bounds: &[Range]) -> Result<Vec<Line>, Stop>
    requires { is_system rows.now bounds.now ≡ true }
    ensures read { IfOk result (λ v. AreRead (first_tableau rows.now bounds.now) v.items) }
    ensures wide { IfErr result (λ e. StopsFor (IsFirstTooWide rows.now bounds.now) e) }
{
    let mut lines = Vec::new(alloc);
    match push_rows(alloc, &mut lines, rows, bounds) {
        Ok(()) => {}
        Err(stop) => return Err(stop),
    }
    match push_bounds(alloc, &mut lines, rows, bounds) {
        Ok(()) => Ok(lines),
        Err(stop) => Err(stop),
    }
}
