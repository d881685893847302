//! A pivot.
ghost use Rattle.std.specs.Prelude.{◌≡◌, ◌≢◌, ◌<◌, ◌++◌, ◌∷◌, [], pos, length, vec_len, map, List, IfOk, IfErr, OnOk, ℕ, slice_get};
ghost use Rattle.std.specs.List.{All, HoldsAt};
ghost use Rattle.lucy_fraction.specs.Rationals.{Ratio};
ghost use Rattle.lucy_simplex.specs.declared.lines.Line.{Line};
ghost use Rattle.lucy_simplex.specs.Tableaus.{Equation, solved, eliminated, exchanged};
ghost use Rattle.lucy_simplex.specs.Reading.{Reads, AreRead, HasShape};
ghost use Rattle.lucy_simplex.specs.Widths.{StopsFor, HasEliminatedTooWide, IsPivotTooWide};

use crate::lines::{Line, eliminated, solved};
use crate::stops::Stop;
use std::alloc::{AllocError, Global};

pub fn push_line(all: &mut Vec<Line>, line: Line) -> Result<(), AllocError>
    ensures { OnOk result (all.new.items ≡ all.old.items ++ line ∷ []) }
{
    all.push(line)?;
    Ok(())
}

// The solved line put into every line.
fn swept(alloc: Global, lines: &[Line], by: &Line, entering: usize) -> Result<Vec<Line>, Stop>
    requires below { entering < length by.now.numbers.items }
    requires lengths { All (λ (l : Line). length l.numbers.items ≡ length by.now.numbers.items) lines.now }
    ensures reads { IfOk result (λ v. (qs : List Equation) (s : Equation) → AreRead qs lines.now → Reads s by.now → AreRead (map (eliminated s entering) qs) v.items) }
    ensures length { IfOk result (λ v. vec_len v ≡ length lines.now) }
    ensures wide { IfErr result (λ e. (qs : List Equation) (s : Equation) → AreRead qs lines.now → Reads s by.now → StopsFor (HasEliminatedTooWide s entering qs) e) }
{
    let mut all = Vec::new(alloc);
    for (i, line) in lines.iter().enumerate() {
        match eliminated(alloc, line, by, entering, i) {
            Ok(next) => push_line(&mut all, next)?,
            Err(stop) => return Err(stop),
        }
    }
    Ok(all)
}

// The solved line at its place, and put into the others.
fn with_solved(
    alloc: Global,
    lines: &[Line],
    place: usize,
    by: Line,
    entering: usize,
) -> Result<Vec<Line>, Stop>
    requires below { entering < length by.numbers.items }
    requires place { place < length lines.now }
    requires lengths { All (λ (l : Line). length l.numbers.items ≡ length by.numbers.items) lines.now }
    ensures reads { IfOk result (λ v. (qs : List Equation) (s : Equation) → AreRead qs lines.now → Reads s by → AreRead (exchanged s entering place qs) v.items) }
    ensures wide { IfErr result (λ e. (qs : List Equation) (s : Equation) → AreRead qs lines.now → Reads s by → StopsFor (HasEliminatedTooWide s entering qs) e) }
{
    match swept(alloc, lines, &by, entering) {
        Ok(mut all) => {
            all[place] = by;
            Ok(all)
        }
        Err(stop) => Err(stop),
    }
}

/// The lines after the entering variable has taken the place of a line's basic one.
pub fn pivoted(
    alloc: Global,
    lines: &[Line],
    width: usize,
    place: usize,
    entering: usize,
) -> Result<Vec<Line>, Stop>
    requires above { 0 < entering }
    requires below { entering < width }
    requires place { place < length lines.now }
    requires shape { HasShape width lines.now }
    requires nonzero { HoldsAt (λ (l : Line). HoldsAt (λ (p : Ratio). p.top ≢ pos 0) l.numbers.items entering) lines.now place }
    ensures reads { IfOk result (λ v. (qs : List Equation) → AreRead qs lines.now → (q : Equation) → slice_get qs place ≡ Some q → AreRead (exchanged (solved entering q) entering place qs) v.items) }
    ensures shape { IfOk result (λ v. HasShape width v.items) }
    ensures wide { IfErr result (λ e. (qs : List Equation) → AreRead qs lines.now → (q : Equation) → slice_get qs place ≡ Some q → StopsFor (IsPivotTooWide entering place q qs) e) }
{
    match solved(alloc, &lines[place], entering, place) {
        Ok(by) => with_solved(alloc, lines, place, by, entering),
        Err(stop) => Err(stop),
    }
}
