//! A point of rows and bounds, or multipliers that refute them.
ghost use Rattle.std.specs.Prelude.{◌≡◌, ◌<◌, ◌≤◌, ◌^◌, ◌++◌, ◌∷◌, [], ◌==◌, if◌then◌else◌, pos, true, false, length, map, IfOk, IfErr, OnOk};
ghost use Rattle.std.specs.List.{list_any, HoldsAt};
ghost use Rattle.lucy_clauses.specs.Sums.{Form};
ghost use Rattle.lucy_clauses.specs.Parts.{total_size};
ghost use Rattle.lucy_simplex.specs.Systems.{Refutes};
ghost use Rattle.lucy_simplex.specs.First.{bumped, zeros, dense, first_tableau};
ghost use Rattle.lucy_simplex.specs.Ends.{Ended};
ghost use Rattle.lucy_simplex.specs.Sure.{side_part, lows_hold, is_alone};
ghost use Rattle.lucy_simplex.specs.Conditions.{is_system};
ghost use Rattle.lucy_simplex.specs.Reading.{AreRead};
ghost use Rattle.lucy_simplex.specs.Widths.{StopsFor};
ghost use Rattle.lucy_simplex.specs.Causes.{IsEndTooWide, IsSomewhereTooWide};
ghost use Rattle.lucy_simplex.specs.Answers.{IsPoint, IsFarkas, IsRight};

use crate::first::first_lines;
use crate::lines::Line;
use crate::multipliers::{Multipliers, multipliers_of};
use crate::numbers::push_number;
use crate::pointing::{lows_point, point_of};
use crate::quotients::lowest;
use crate::rows::{Row, Side, alone_at, lows_hold, side_factor_of};
use crate::runs::{Look, Ran, run};
use crate::stops::Stop;
use lucy_clauses::{Part, Range};
use lucy_fraction::Fraction;
use std::alloc::{AllocError, Global};

/// What is found of rows and bounds.
#[derive(Debug, Drop)]
pub enum Answer {
    /// A point that satisfies each row and each bound.
    Point(Vec<Fraction>),
    /// Multipliers that are not negative: the rows and bounds, each times its multiplier, add up to `0 <= b` with `b`
    /// below 0. So no point satisfies them.
    Farkas(Multipliers),
    /// A fraction computed for that equation passed the limit of a fraction. Equations are numbered: the rows, then the
    /// upper bounds of the variables.
    Wide(usize),
    /// All pivots were made, and no answer stood after them.
    Turns,
}

// The sums of the factors on one side, for so many variables.
fn side_factors(
    alloc: Global,
    side: Side,
    parts: &[Part],
    count: usize,
) -> Result<Vec<i128>, AllocError>
    requires { total_size parts.now ≤ 2 ^ 101 }
    ensures { IfOk result (λ v. v.items ≡ dense count (map (side_part side) parts.now)) }
{
    let mut all = Vec::new(alloc);
    for variable in 0..count {
        push_number(&mut all, side_factor_of(side, parts, variable))?;
    }
    Ok(all)
}

fn one_at(own: usize, place: usize) -> i128
    ensures { result ≡ (if own == place then pos 1 else pos 0) }
{
    if own == place { 1 } else { 0 }
}

// 1 at one place, 0 at the others.
fn one_alone(alloc: Global, count: usize, own: usize) -> Result<Vec<i128>, AllocError>
    ensures { IfOk result (λ v. v.items ≡ bumped (zeros count) own (pos 1)) }
{
    let mut all = Vec::new(alloc);
    for place in 0..count {
        push_number(&mut all, one_at(own, place))?;
    }
    Ok(all)
}

// The multipliers of a row whose least value is above its bound.
fn alone(
    alloc: Global,
    rows: &[Row],
    bounds: &[Range],
    place: usize,
) -> Result<Multipliers, AllocError>
    requires system { is_system rows.now bounds.now ≡ true }
    requires below { place < length rows.now }
    requires alone { HoldsAt (λ (r : Form). is_alone bounds.now r ≡ true) rows.now place }
    ensures refutes { IfOk result (λ m. Refutes rows.now bounds.now m.rows.items m.lows.items m.highs.items) }
    ensures alone { list_any (is_alone bounds.now) rows.now ≡ true }
{
    let row = &rows[place];
    let lows = side_factors(alloc, Side::Low, &row.parts, bounds.len())?;
    let highs = side_factors(alloc, Side::High, &row.parts, bounds.len())?;
    let of_rows = one_alone(alloc, rows.len(), place)?;
    Ok(Multipliers {
        rows: of_rows,
        lows,
        highs,
    })
}

// The answer of the lines where a run ended.
fn ended_answer(
    alloc: Global,
    ran: &Ran,
    rows: &[Row],
    bounds: &[Range],
    turns: u64,
) -> Result<Answer, Stop>
    requires system { is_system rows.now bounds.now ≡ true }
    requires turns { 0 < turns }
    requires breaks { lows_hold rows.now bounds.now ≡ false }
    requires none_alone { list_any (is_alone bounds.now) rows.now ≡ false }
    requires ended { Ended (first_tableau rows.now bounds.now) turns ran.now.lines.items ran.now.look }
    ensures right { IfOk result (λ a. IsRight rows.now bounds.now turns a) }
    ensures wide { IfErr result (λ e. StopsFor (IsEndTooWide rows.now bounds.now turns) e) }
{
    match ran.look {
        Look::Point => match point_of(alloc, ran.lines.as_slice(), bounds) {
            Ok(point) => Ok(Answer::Point(point)),
            Err(stop) => Err(stop),
        },
        Look::Stuck(place) => {
            let numbers = ran.lines[place].numbers.as_slice();
            match multipliers_of(alloc, numbers, bounds.len(), rows.len()) {
                Ok(found) => Ok(Answer::Farkas(found)),
                Err(stop) => Err(stop),
            }
        }
        Look::Improves { .. } => Ok(Answer::Turns),
    }
}

// The run from the lines of the first tableau, where the point of all lower bounds breaks a row.
fn run_from(
    alloc: Global,
    first: &[Line],
    rows: &[Row],
    bounds: &[Range],
    turns: u64,
) -> Result<Answer, Stop>
    requires system { is_system rows.now bounds.now ≡ true }
    requires turns { 0 < turns }
    requires breaks { lows_hold rows.now bounds.now ≡ false }
    requires none_alone { list_any (is_alone bounds.now) rows.now ≡ false }
    requires first { AreRead (first_tableau rows.now bounds.now) first.now }
    ensures right { IfOk result (λ a. IsRight rows.now bounds.now turns a) }
    ensures wide { IfErr result (λ e. StopsFor (IsSomewhereTooWide rows.now bounds.now turns) e) }
{
    let width = 2 + bounds.len() + rows.len() + bounds.len();
    match lowest(first) {
        Some(best) => match run(alloc, first, width, best.place, turns) {
            Ok(ran) => ended_answer(alloc, &ran, rows, bounds, turns),
            Err(stop) => Err(stop),
        },
        None => unreachable!(),
    }
}

// The run from the first tableau.
fn pivoting(alloc: Global, rows: &[Row], bounds: &[Range], turns: u64) -> Result<Answer, Stop>
    requires system { is_system rows.now bounds.now ≡ true }
    requires turns { 0 < turns }
    requires breaks { lows_hold rows.now bounds.now ≡ false }
    requires none_alone { list_any (is_alone bounds.now) rows.now ≡ false }
    ensures right { IfOk result (λ a. IsRight rows.now bounds.now turns a) }
    ensures wide { IfErr result (λ e. StopsFor (IsSomewhereTooWide rows.now bounds.now turns) e) }
{
    match first_lines(alloc, rows, bounds) {
        Ok(first) => run_from(alloc, first.as_slice(), rows, bounds, turns),
        Err(stop) => Err(stop),
    }
}

/// A point of the rows and bounds, or multipliers that refute them, by the simplex method over exact fractions, with at
/// most so many pivots. Each variable is shifted to begin at 0; each row and each upper bound gets a slack, and an
/// auxiliary variable, which is in each of them, is made least. The first pivot brings it in at the least constant; each
/// other one the least variable that improves it, and the least of those that bind leaves. Variables are ordered: the
/// auxiliary one, those of the rows, the slacks of rows, the slacks of bounds.
///
/// It is `Wide` only where a fraction of that equation passes the limit: a number of the first tableau, one of a pivot,
/// the common denominator of the multipliers up to the equation's slack, or a coordinate that is shifted back.
///
/// Two cases are answered first, without a pivot: where the point of all lower bounds satisfies every row the answer is
/// `Point`, and where the least value of some row within the bounds is above its bound it is `Farkas`.
pub fn solve(
    alloc: Global,
    rows: &[Row],
    bounds: &[Range],
    turns: u64,
) -> Result<Answer, AllocError>
    requires { is_system rows.now bounds.now ≡ true }
    ensures right { IfOk result (λ a. IsRight rows.now bounds.now turns a) }
    ensures lows { lows_hold rows.now bounds.now ≡ true → IfOk result IsPoint }
    ensures alone { list_any (is_alone bounds.now) rows.now ≡ true → IfOk result IsFarkas }
{
    if lows_hold(rows, bounds) {
        let point = lows_point(alloc, bounds)?;
        return Ok(Answer::Point(point));
    }
    if let Some(place) = alone_at(rows, bounds) {
        let found = alone(alloc, rows, bounds, place)?;
        return Ok(Answer::Farkas(found));
    }
    if turns == 0 {
        return Ok(Answer::Turns);
    }
    match pivoting(alloc, rows, bounds, turns) {
        Ok(answer) => Ok(answer),
        Err(Stop::Wide(equation)) => Ok(Answer::Wide(equation)),
        Err(Stop::OutOfMemory) => Err(AllocError),
    }
}
