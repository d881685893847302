//! What the simplex method answers of rows and bounds.

use crate::formulas::{parts_of, ranges_of};
use crate::making::wrong_row;
use lucy_clauses::{Part, Range};
use lucy_fraction::Fraction;
use lucy_simplex::{Answer, Multipliers, Row, is_system, solve};
use std::alloc::Global;

// Rows with a semicolon between two; the bounds of the variables; the most pivots; the answer.
const SYSTEMS: &str = "1*0 1*1 <= 1; -1*0 <= -1; -1*1 <= -1|0..5 0..5|100|farkas
1*0 1*1 <= 1; -1*0 <= -1; -1*1 <= -1|0..5 0..5|3|farkas
1*0 1*1 <= 1; -1*0 <= -1; -1*1 <= -1|0..5 0..5|2|turns
1*0 1*1 <= 1; -1*0 <= -1; -1*1 <= -1|0..5 0..5|0|turns
|0..5|100|point
|0..5|0|point
1*0 1*1 <= -1|0..5 0..5|0|farkas
1*0 <= 4; -1*0 <= -3|0..4611686018427387904|100|wide 2
1*0 <= 4; -1*0 <= -3|0..4611686018427387904|0|turns
2*0 <= 1; -2*0 <= -1|0..5|100|point
2*0 3*1 <= -7; -1*0 <= 1|-2..2 -2..2|100|point
1*0 1*1 <= 3; -1*0 -1*1 <= -3; 1*0 -1*1 <= 0; -1*0 1*1 <= 0|0..3 0..3|100|point
1*0 1*1 -2*2 <= 0; -1*0 -1*1 2*2 <= 0; 1*0 -1*1 <= -3; -1*0 1*1 <= 2|-9..9 -9..9 -9..9|100|farkas";

fn row_of(alloc: Global, text: &str) -> Option<Row> {
    let (parts, bound) = text.split_once(" <= ")?;
    let parts = parts_of(alloc, parts)?;
    let bound = bound.parse::<i128>().ok()?;
    Some(Row { parts, bound })
}

fn rows_of(alloc: Global, text: &str) -> Option<Vec<Row>> {
    let mut rows = Vec::new(alloc);
    if text.is_empty() {
        return Some(rows);
    }
    for row in text.split("; ") {
        rows.push(row_of(alloc, row)?).ok()?;
    }
    Some(rows)
}

// A sum over fractions, if none of its parts is too wide.
fn sum_at(parts: &[Part], point: &[Fraction]) -> Option<Fraction> {
    let mut sum = Fraction::whole(0).ok()?;
    for part in parts {
        let number = point.get(part.variable as usize)?;
        let by = Fraction::whole(i64::try_from(part.by).ok()?).ok()?;
        sum = sum.add(number.mul(by).ok()?).ok()?;
    }
    Some(sum)
}

fn is_at_most(least: Fraction, most: i128) -> Option<bool> {
    let most = Fraction::whole(i64::try_from(most).ok()?).ok()?;
    Some(least.compare(most).is_le())
}

fn satisfies_rows(rows: &[Row], point: &[Fraction]) -> Option<bool> {
    for row in rows {
        if !is_at_most(sum_at(row.parts.as_slice(), point)?, row.bound)? {
            return Some(false);
        }
    }
    Some(true)
}

fn is_within(range: Range, number: Fraction) -> Option<bool> {
    let is_low = is_at_most(number.opposite(), i128::from(range.lo).wrapping_neg())?;
    Some(is_low && is_at_most(number, i128::from(range.hi))?)
}

fn is_point(rows: &[Row], bounds: &[Range], point: &[Fraction]) -> Option<bool> {
    if point.len() != bounds.len() {
        return Some(false);
    }
    for (place, range) in bounds.iter().enumerate() {
        if !is_within(*range, *point.get(place)?)? {
            return Some(false);
        }
    }
    satisfies_rows(rows, point)
}

fn none_negative(numbers: &[i128]) -> bool {
    for number in numbers {
        if *number < 0 {
            return false;
        }
    }
    true
}

// The factor of a variable in a row.
fn factor_of(parts: &[Part], variable: usize) -> i128 {
    let mut factor = 0i128;
    for part in parts {
        if part.variable as usize == variable {
            factor = factor.wrapping_add(part.by);
        }
    }
    factor
}

// The factor of a variable in the sum of the rows, each times its multiplier.
fn factor_in_sum(rows: &[Row], by: &[i128], variable: usize) -> Option<i128> {
    let mut sum = 0i128;
    for (place, row) in rows.iter().enumerate() {
        let factor = factor_of(row.parts.as_slice(), variable);
        sum = sum.wrapping_add(factor.wrapping_mul(*by.get(place)?));
    }
    Some(sum)
}

fn right_side(rows: &[Row], by: &[i128]) -> Option<i128> {
    let mut sum = 0i128;
    for (place, row) in rows.iter().enumerate() {
        sum = sum.wrapping_add(row.bound.wrapping_mul(*by.get(place)?));
    }
    Some(sum)
}

// Whether the rows and bounds, each times its multiplier, add up to `0 <= b` with `b` below 0.
fn is_contradiction(rows: &[Row], bounds: &[Range], found: &Multipliers) -> Option<bool> {
    let mut right = right_side(rows, found.rows.as_slice())?;
    for (variable, range) in bounds.iter().enumerate() {
        let low = *found.lows.get(variable)?;
        let high = *found.highs.get(variable)?;
        let factor = factor_in_sum(rows, found.rows.as_slice(), variable)?;
        if factor.wrapping_add(high) != low {
            return Some(false);
        }
        right = right
            .wrapping_add(high.wrapping_mul(i128::from(range.hi)))
            .wrapping_sub(low.wrapping_mul(i128::from(range.lo)));
    }
    Some(right < 0)
}

fn are_multipliers(rows: &[Row], bounds: &[Range], found: &Multipliers) -> Option<bool> {
    let are_enough = found.rows.len() == rows.len()
        && found.lows.len() == bounds.len()
        && found.highs.len() == bounds.len();
    let has_sign = none_negative(found.rows.as_slice())
        && none_negative(found.lows.as_slice())
        && none_negative(found.highs.as_slice());
    Some(are_enough && has_sign && is_contradiction(rows, bounds, found)?)
}

fn is_answer(rows: &[Row], bounds: &[Range], answer: &Answer, want: &str) -> Option<bool> {
    match answer {
        Answer::Point(point) => Some(want == "point" && is_point(rows, bounds, point.as_slice())?),
        Answer::Farkas(found) => Some(want == "farkas" && are_multipliers(rows, bounds, found)?),
        Answer::Wide(equation) => {
            let (word, number) = want.split_once(' ')?;
            Some(word == "wide" && *equation as u64 == number.parse::<u64>().ok()?)
        }
        Answer::Turns => Some(want == "turns"),
    }
}

fn is_solved(alloc: Global, row: &str) -> Option<bool> {
    let mut words = row.split('|');
    let rows = rows_of(alloc, words.next()?)?;
    let bounds = ranges_of(alloc, words.next()?)?;
    let turns = words.next()?.parse::<u64>().ok()?;
    if !is_system(rows.as_slice(), bounds.as_slice()) {
        return None;
    }
    let answer = solve(alloc, rows.as_slice(), bounds.as_slice(), turns).ok()?;
    is_answer(rows.as_slice(), bounds.as_slice(), &answer, words.next()?)
}

#[test]
fn systems_are_solved(rt: HostRuntime) {
    assert_eq!(rt; wrong_row(rt.alloc(), SYSTEMS, is_solved), None);
}
