//! The lines of a tableau.
ghost use Rattle.std.specs.Prelude.{◌≡◌, ◌≢◌, ◌<◌, pos, length, IfOk, IfErr};
ghost use Rattle.std.specs.List.{HoldsAt};
ghost use Rattle.lucy_fraction.specs.Rationals.{Ratio};
ghost use Rattle.lucy_simplex.specs.Tableaus.{Equation, solved, eliminated};
ghost use Rattle.lucy_simplex.specs.Reading.{Reads};
ghost use Rattle.lucy_simplex.specs.Widths.{StopsAt, IsSolvedTooWide, IsEliminatedTooWide};

use crate::numbers::{all_added, all_divided};
use crate::stops::Stop;
use lucy_fraction::Fraction;
use std::alloc::Global;

/// A line: the basic variable's place, and the numbers of all places.
#[derive(Debug, Drop)]
pub struct Line {
    /// The place of the basic variable.
    pub basic: usize,
    /// The numbers of all places.
    pub numbers: Vec<Fraction>,
}

/// The line solved for the entering variable, whose number is not 0.
pub fn solved(alloc: Global, line: &Line, entering: usize, equation: usize) -> Result<Line, Stop>
    requires below { entering < length line.now.numbers.items }
    requires nonzero { HoldsAt (λ (p : Ratio). p.top ≢ pos 0) line.now.numbers.items entering }
    ensures reads { IfOk result (λ l. (q : Equation) → Reads q line.now → Reads (solved entering q) l) }
    ensures wide { IfErr result (λ e. (q : Equation) → Reads q line.now → StopsAt equation (IsSolvedTooWide entering q) e) }
    ensures length { IfOk result (λ l. length l.numbers.items ≡ length line.now.numbers.items) }
{
    let factor = line.numbers[entering].opposite();
    match all_divided(alloc, line.numbers.as_slice(), factor, equation) {
        Ok(numbers) => Ok(Line {
            basic: entering,
            numbers,
        }),
        Err(stop) => Err(stop),
    }
}

/// The line with the solved one put in for the entering variable.
pub fn eliminated(
    alloc: Global,
    line: &Line,
    by: &Line,
    entering: usize,
    equation: usize,
) -> Result<Line, Stop>
    requires below { entering < length line.now.numbers.items }
    requires lengths { length line.now.numbers.items ≡ length by.now.numbers.items }
    ensures reads { IfOk result (λ l. (q s : Equation) → Reads q line.now → Reads s by.now → Reads (eliminated s entering q) l) }
    ensures wide { IfErr result (λ e. (q s : Equation) → Reads q line.now → Reads s by.now → StopsAt equation (IsEliminatedTooWide s entering q) e) }
{
    let factor = line.numbers[entering];
    match all_added(
        alloc,
        line.numbers.as_slice(),
        factor,
        by.numbers.as_slice(),
        equation,
    ) {
        Ok(numbers) => Ok(Line {
            basic: line.basic,
            numbers,
        }),
        Err(stop) => Err(stop),
    }
}
