//! The point of a tableau: the lower bounds, moved by the constants of the lines whose basic variable is one.
ghost use Rattle.std.specs.Prelude.{◌≡◌, ◌<◌, ◌≤◌, ◌+◌, ◌⊎◌, ◌*ℤ◌, pos, true, length, map, ℕ, List, ℤ, IfOk, IfErr, OnOk, IfSome, IfNone};
ghost use Rattle.std.specs.List.{All, list_all};
ghost use Rattle.lucy_simplex.specs.Systems.{lows_of};
ghost use Rattle.lucy_simplex.specs.Steps.{IsOver, AreNumbers};
ghost use Rattle.lucy_simplex.specs.Tableaus.{Equation, IsTableau};
ghost use Rattle.lucy_simplex.specs.Reading.{AreRead};
ghost use Rattle.lucy_simplex.specs.Runs.{HasNoAuxiliary};
ghost use Rattle.lucy_simplex.specs.Widths.{StopsAt, StopsFor};
ghost use Rattle.lucy_simplex.specs.Causes.{IsPointTooWide};
ghost use Rattle.lucy_simplex.specs.Points.{HaveShares, moved_all, Moves, KeepsOthers, IsMoveTooWide};
ghost use Rattle.lucy_simplex.specs.Conditions.{is_small_range};
ghost use Rattle.lucy_simplex.specs.declared.lines.Line.{Line};

use crate::lines::Line;
use crate::numbers::push_fraction;
use crate::stops::Stop;
use lucy_clauses::Range;
use lucy_fraction::Fraction;
use std::alloc::{AllocError, Global};

fn low_of(range: Range) -> Fraction
    requires { is_small_range range ≡ true }
    ensures { IsOver 1 result range.lo }
{
    match Fraction::whole(range.lo) {
        Ok(low) => low,
        Err(_) => unreachable!(),
    }
}

/// The lower bounds as a point.
pub fn lows_point(alloc: Global, bounds: &[Range]) -> Result<Vec<Fraction>, AllocError>
    requires { list_all is_small_range bounds.now ≡ true }
    ensures { IfOk result (λ v. AreNumbers 1 v.items (lows_of bounds.now)) }
{
    let mut point = Vec::new(alloc);
    for range in bounds {
        push_fraction(&mut point, low_of(*range))?;
    }
    Ok(point)
}

// The variable that is basic, where it is one of so many and no slack.
fn variable_of(basic: usize, count: usize) -> Option<usize>
    ensures some { IfSome result (λ variable. basic ≡ 2 + variable) }
    ensures below { IfSome result (λ variable. variable < count) }
    ensures none { IfNone result ((basic < 2) ⊎ (2 + count ≤ basic)) }
{
    if basic < 2 {
        return None;
    }
    let variable = basic - 2;
    if variable < count {
        Some(variable)
    } else {
        None
    }
}

// The point moved by the constant of a line.
fn move_by(point: &mut Vec<Fraction>, line: &Line, equation: usize) -> Result<(), Stop>
    requires { 0 < length line.now.numbers.items }
    ensures moves { OnOk result (Moves line.now point.old.items point.new.items) }
    ensures keeps { OnOk result (KeepsOthers line.now point.old.items point.new.items) }
    ensures wide { IfErr result (λ e. StopsAt equation (IsMoveTooWide line.now point.old.items) e) }
{
    let Some(variable) = variable_of(line.basic, point.len()) else {
        return Ok(());
    };
    let Ok(sum) = point[variable].add(line.numbers[0]) else {
        return Err(Stop::Wide(equation));
    };
    point[variable] = sum;
    Ok(())
}

/// The point of the lines.
pub fn point_of(alloc: Global, lines: &[Line], bounds: &[Range]) -> Result<Vec<Fraction>, Stop>
    requires small { list_all is_small_range bounds.now ≡ true }
    requires lengths { All (λ (l : Line). 0 < length l.numbers.items) lines.now }
    ensures point { IfOk result (λ v. (qs : List Equation) → AreRead qs lines.now → (s : HaveShares qs)
        → AreNumbers s.common v.items (moved_all (length bounds.now) qs s.tops (map (λ (x : ℤ). pos s.common *ℤ x) (lows_of bounds.now)))) }
    ensures wide { IfErr result (λ e. (qs : List Equation) (n : ℕ) → AreRead qs lines.now → IsTableau n qs → HasNoAuxiliary qs → StopsFor (IsPointTooWide bounds.now qs) e) }
{
    let mut point = lows_point(alloc, bounds)?;
    for (i, line) in lines.iter().enumerate() {
        match move_by(&mut point, line, i) {
            Ok(()) => {}
            Err(stop) => return Err(stop),
        }
    }
    Ok(point)
}
