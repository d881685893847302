//! The choice among lines: the least quotient, the least basic variable among equals.
ghost use Rattle.std.specs.Prelude.{◌≡◌, ◌<◌, ◌<ℤ◌, ◌*ℤ◌, ◌↔◌, IsTrue, pos, length, List, IfOk, IfErr};
ghost use Rattle.std.specs.List.{All};
ghost use Rattle.std.specs.Ordering.{int_cmp};
ghost use Rattle.lucy_simplex.specs.Tableaus.{Equation};
ghost use Rattle.lucy_simplex.specs.Reading.{Reads, AreRead};
ghost use Rattle.lucy_simplex.specs.Choices.{fall, own_below, QuotientOf, IsBest, is_earlier, best_of};
ghost use Rattle.lucy_simplex.specs.Widths.{StopsFor, IsQuotientTooWide, HasQuotientTooWide};
ghost use Rattle.lucy_simplex.specs.declared.lines.Line.{Line};

use crate::lines::Line;
use crate::stops::Stop;
use lucy_fraction::{Fraction, Wide};
use std::cmp::Ordering;

pub fn is_below_zero(number: Fraction) -> bool
    ensures { IsTrue result ↔ (number.top <ℤ pos 0) }
{
    number.numerator() < 0
}

// The constant over the negative of the number at the entering variable, where that number is below 0.
fn quotient(line: &Line, entering: usize) -> Result<Option<Fraction>, Wide>
    requires below { entering < length line.now.numbers.items }
    ensures value { IfOk result (λ o. (q : Equation) → Reads q line.now → QuotientOf (fall entering) q o) }
    ensures wide { IfErr result (λ _. (q : Equation) → Reads q line.now → IsQuotientTooWide entering q) }
{
    let factor = line.numbers[entering];
    if is_below_zero(factor) {
        match line.numbers[0].div(factor.opposite()) {
            Ok(quotient) => Ok(Some(quotient)),
            Err(wide) => Err(wide),
        }
    } else {
        Ok(None)
    }
}

/// The line with the least quotient so far.
#[derive(Clone, Copy, Debug)]
pub struct Best {
    /// The line's place.
    pub place: usize,
    /// Its basic variable.
    pub basic: usize,
    /// Its quotient.
    pub quotient: Fraction,
}

// A quotient that is less, or equal with a basic variable that is.
fn is_earlier(quotient: Fraction, basic: usize, other: Fraction, other_basic: usize) -> bool
    ensures { result ≡ is_earlier (int_cmp (quotient.top *ℤ pos other.bottom) (other.top *ℤ pos quotient.bottom)) basic other_basic }
{
    match quotient.compare(other) {
        Ordering::Less => true,
        Ordering::Equal => basic < other_basic,
        Ordering::Greater => false,
    }
}

// The best, with one more line's quotient.
fn least_of(
    old: Option<Best>,
    place: usize,
    basic: usize,
    quotient: Option<Fraction>,
) -> Option<Best>
    ensures { result ≡ best_of old place basic quotient }
{
    match (old, quotient) {
        (_, None) => old,
        (None, Some(quotient)) => Some(Best {
            place,
            basic,
            quotient,
        }),
        (Some(least), Some(quotient)) => {
            if is_earlier(quotient, basic, least.quotient, least.basic) {
                Some(Best {
                    place,
                    basic,
                    quotient,
                })
            } else {
                Some(least)
            }
        }
    }
}

/// The line that binds the entering variable: its quotient is the least, and among equals its basic variable. None
/// where no number is below 0.
pub fn leaving(lines: &[Line], entering: usize) -> Result<Option<Best>, Stop>
    requires { All (λ (l : Line). entering < length l.numbers.items) lines.now }
    ensures best { IfOk result (λ o. (qs : List Equation) → AreRead qs lines.now → IsBest (fall entering) qs (length lines.now) o) }
    ensures wide { IfErr result (λ e. (qs : List Equation) → AreRead qs lines.now → StopsFor (HasQuotientTooWide entering qs) e) }
{
    let mut least = None;
    for (i, line) in lines.iter().enumerate() {
        let Ok(next) = quotient(line, entering) else {
            return Err(Stop::Wide(i));
        };
        least = least_of(least, i, line.basic, next);
    }
    Ok(least)
}

/// The line with the least constant, and among equals the least basic variable. None where there is no line.
pub fn lowest(lines: &[Line]) -> Option<Best>
    requires { All (λ (l : Line). 0 < length l.numbers.items) lines.now }
    ensures { (qs : List Equation) → AreRead qs lines.now → IsBest own_below qs (length lines.now) result }
{
    let mut least = None;
    for (i, line) in lines.iter().enumerate() {
        least = least_of(least, i, line.basic, Some(line.numbers[0]));
    }
    least
}
