//! Rows, the systems that are taken, and sums of rows.
ghost use Rattle.std.specs.Prelude.{◌≡◌, ◌<◌, ◌≤◌, ◌+◌, ◌*◌, ◌-◌, ◌^◌, ◌+ℤ◌, ◌*ℤ◌, pos, max, min, length, true, unsigned_abs, int_lt, if◌then◌else◌, nat_lt, slice_index_or, ◌==◌, neg_ℤ, map, false, IfSome, IfNone};
ghost use Rattle.std.specs.List.{list_all, list_any, HoldsAt};
ghost use Rattle.lucy_clauses.specs.Sums.{Form, number_at, sum_at};
ghost use Rattle.lucy_clauses.specs.Parts.{total_size};
ghost use Rattle.lucy_clauses.specs.Formulas.{range_size, size_at, weight, names_below};
ghost use Rattle.lucy_simplex.specs.Systems.{lows_of, highs_of};
ghost use Rattle.lucy_simplex.specs.First.{factor_at};
ghost use Rattle.lucy_simplex.specs.Sure.{least_of, least_number, side_part, lows_hold, is_alone};
ghost use Rattle.lucy_simplex.specs.Conditions.{is_small_range, is_narrow_row, is_system};

use lucy_clauses::{Part, Range};
use std::marker::Model;

/// The inequality `sum of the parts <= bound`. A variable may stand in it more than once.
#[derive(Debug, Drop)]
pub struct Row {
    /// The variables with their factors.
    pub parts: Vec<Part>,
    /// The greatest value of the sum.
    pub bound: i128,
}

impl Model for Row {
    ghost use Rattle.lucy_clauses.specs.Sums.{Form};

    ghost Value = { Form };

    ghost view = { λ r. record { parts = r.parts.items; bound = r.bound } };
}

// The greatest weight of a row.
const MOST_WEIGHT: u128 = 1 << 101;

// The greatest size of a bound of a variable.
const MOST_BOUND: u64 = 1 << 62;

fn range_size(range: Range) -> u64
    ensures { result ≡ range_size range }
{
    range.lo.unsigned_abs().max(range.hi.unsigned_abs()).max(1)
}

fn is_small_range(range: Range) -> bool
    ensures { result ≡ is_small_range range }
{
    range.lo <= range.hi
        && (range.lo.unsigned_abs() <= MOST_BOUND && range.hi.unsigned_abs() <= MOST_BOUND)
}

fn names_below(parts: &[Part], count: usize) -> bool
    ensures { result ≡ names_below count parts.now }
{
    for part in parts {
        if part.variable as usize >= count {
            return false;
        }
    }
    true
}

fn weight_added(total: u128, by: i128, size: u64) -> u128
    ensures { result ≡ min (total + unsigned_abs by * size) (2 ^ 128 - 1) }
{
    total.saturating_add(by.unsigned_abs().saturating_mul(u128::from(size)))
}

// The weight of the parts behind a first one.
fn weight(first: u128, parts: &[Part], bounds: &[Range]) -> u128
    requires { names_below (length bounds.now) parts.now ≡ true }
    ensures { result ≡ min (first + weight bounds.now parts.now) (2 ^ 128 - 1) }
{
    let mut total = first;
    for part in parts {
        total = weight_added(total, part.by, range_size(bounds[part.variable as usize]));
    }
    total
}

fn is_narrow_row(row: &Row, bounds: &[Range]) -> bool
    ensures { result ≡ is_narrow_row bounds.now row.now }
{
    names_below(&row.parts, bounds.len())
        && weight(row.bound.unsigned_abs(), &row.parts, bounds) <= MOST_WEIGHT
}

fn are_small_ranges(bounds: &[Range]) -> bool
    ensures { result ≡ list_all is_small_range bounds.now }
{
    for range in bounds {
        if !is_small_range(*range) {
            return false;
        }
    }
    true
}

fn are_narrow_rows(rows: &[Row], bounds: &[Range]) -> bool
    ensures { result ≡ list_all (is_narrow_row bounds.now) rows.now }
{
    for row in rows {
        if !is_narrow_row(row, bounds) {
            return false;
        }
    }
    true
}

/// True exactly where `solve` takes the rows and bounds: in each range the lower bound is at most the upper one and
/// both are at most 2^62 in size, each variable of a row has bounds, and the size of a row's bound plus the sum of each
/// factor's size times the greater size of its variable's two bounds, with 1 in place of 0, is at most 2^101. Takes no
/// memory.
pub fn is_system(rows: &[Row], bounds: &[Range]) -> bool
    ensures { result ≡ is_system rows.now bounds.now }
{
    are_small_ranges(bounds) && are_narrow_rows(rows, bounds)
}

// A sum with one more part.
fn part_added(sum: i128, by: i128, number: i64) -> i128
    requires { unsigned_abs sum + unsigned_abs by * max 1 (unsigned_abs number) ≤ 2 ^ 101 }
    ensures { result ≡ sum +ℤ by *ℤ number }
{
    sum + by * i128::from(number)
}

// The number at which a part is the least.
fn least_number(by: i128, range: Range) -> i64
    ensures { result ≡ least_number by range }
{
    if by < 0 { range.hi } else { range.lo }
}

fn range_at(bounds: &[Range], part: Part) -> Range
    requires { nat_lt part.variable (length bounds.now) ≡ true }
    ensures value { (d : Range) → slice_index_or bounds.now part.variable d ≡ result }
    ensures size { range_size result ≡ size_at bounds.now part.variable }
{
    bounds[part.variable as usize]
}

// A sum with one more part, at the lower bound of its variable.
fn low_added(sum: i128, part: Part, bounds: &[Range]) -> i128
    requires names { nat_lt part.variable (length bounds.now) ≡ true }
    requires weight { unsigned_abs sum + unsigned_abs part.by * size_at bounds.now part.variable ≤ 2 ^ 101 }
    ensures { result ≡ sum +ℤ part.by *ℤ number_at (lows_of bounds.now) part.variable }
{
    part_added(sum, part.by, range_at(bounds, part).lo)
}

// A sum with one more part, at the bound of its variable at which it is the least.
fn least_added(sum: i128, part: Part, bounds: &[Range]) -> i128
    requires names { nat_lt part.variable (length bounds.now) ≡ true }
    requires weight { unsigned_abs sum + unsigned_abs part.by * size_at bounds.now part.variable ≤ 2 ^ 101 }
    ensures { result ≡ sum +ℤ part.by *ℤ (if int_lt part.by (pos 0) then number_at (highs_of bounds.now) part.variable else number_at (lows_of bounds.now) part.variable) }
{
    part_added(sum, part.by, least_number(part.by, range_at(bounds, part)))
}

/// A row's sum at the lower bounds.
pub fn at_lows(parts: &[Part], bounds: &[Range]) -> i128
    requires names { names_below (length bounds.now) parts.now ≡ true }
    requires weight { weight bounds.now parts.now ≤ 2 ^ 101 }
    ensures value { result ≡ sum_at parts.now (lows_of bounds.now) }
    ensures size { unsigned_abs result ≤ weight bounds.now parts.now }
{
    let mut sum = 0;
    for part in parts {
        sum = low_added(sum, *part, bounds);
    }
    sum
}

/// The least value of a row's sum within the bounds.
pub fn least(parts: &[Part], bounds: &[Range]) -> i128
    requires names { names_below (length bounds.now) parts.now ≡ true }
    requires weight { weight bounds.now parts.now ≤ 2 ^ 101 }
    ensures { result ≡ least_of bounds.now parts.now }
{
    let mut sum = 0;
    for part in parts {
        sum = least_added(sum, *part, bounds);
    }
    sum
}

// A sum with the factor of a part of that variable.
fn factor_added(sum: i128, part: Part, variable: usize) -> i128
    requires { unsigned_abs sum + unsigned_abs part.by ≤ 2 ^ 101 }
    ensures { result ≡ sum +ℤ (if part.variable == variable then part.by else pos 0) }
{
    if part.variable as usize == variable {
        sum + part.by
    } else {
        sum
    }
}

/// The sum of a variable's factors.
pub fn factor_of(parts: &[Part], variable: usize) -> i128
    requires { total_size parts.now ≤ 2 ^ 101 }
    ensures value { result ≡ factor_at parts.now variable }
    ensures size { unsigned_abs result ≤ total_size parts.now }
{
    let mut sum = 0;
    for part in parts {
        sum = factor_added(sum, *part, variable);
    }
    sum
}

/// Factors above 0, which take the lower bound, or below 0, which take the upper one and are told by their size.
#[derive(Clone, Copy, Debug)]
pub enum Side {
    /// Factors above 0.
    Low,
    /// Factors below 0.
    High,
}

fn low_factor(by: i128) -> i128
    requires { unsigned_abs by ≤ 2 ^ 101 }
    ensures { result ≡ (if int_lt by (pos 0) then pos 0 else by) }
{
    if by < 0 { 0 } else { by }
}

fn high_factor(by: i128) -> i128
    requires { unsigned_abs by ≤ 2 ^ 101 }
    ensures { result ≡ (if int_lt by (pos 0) then neg_ℤ by else pos 0) }
{
    if by < 0 { -by } else { 0 }
}

// The part on one side.
fn side_part(side: Side, part: Part) -> Part
    requires { unsigned_abs part.by ≤ 2 ^ 101 }
    ensures { result ≡ side_part side part }
{
    match side {
        Side::Low => Part {
            variable: part.variable,
            by: low_factor(part.by),
        },
        Side::High => Part {
            variable: part.variable,
            by: high_factor(part.by),
        },
    }
}

/// The sum of a variable's factors on one side.
pub fn side_factor_of(side: Side, parts: &[Part], variable: usize) -> i128
    requires { total_size parts.now ≤ 2 ^ 101 }
    ensures { result ≡ factor_at (map (side_part side) parts.now) variable }
{
    let mut sum = 0;
    for part in parts {
        sum = factor_added(sum, side_part(side, *part), variable);
    }
    sum
}

/// True exactly where the point of all lower bounds satisfies each row.
pub fn lows_hold(rows: &[Row], bounds: &[Range]) -> bool
    requires { list_all (is_narrow_row bounds.now) rows.now ≡ true }
    ensures { result ≡ lows_hold rows.now bounds.now }
{
    for row in rows {
        if at_lows(&row.parts, bounds) > row.bound {
            return false;
        }
    }
    true
}

fn is_alone(row: &Row, bounds: &[Range]) -> bool
    requires { is_narrow_row bounds.now row.now ≡ true }
    ensures { result ≡ is_alone bounds.now row.now }
{
    row.bound < least(&row.parts, bounds)
}

/// The first row whose least value within the bounds is above its bound.
pub fn alone_at(rows: &[Row], bounds: &[Range]) -> Option<usize>
    requires { list_all (is_narrow_row bounds.now) rows.now ≡ true }
    ensures below { IfSome result (λ place. place < length rows.now) }
    ensures found { IfSome result (λ place. HoldsAt (λ (r : Form). is_alone bounds.now r ≡ true) rows.now place) }
    ensures none { IfNone result (list_any (is_alone bounds.now) rows.now ≡ false) }
{
    for (i, row) in rows.iter().enumerate() {
        if is_alone(row, bounds) {
            return Some(i);
        }
    }
    None
}
