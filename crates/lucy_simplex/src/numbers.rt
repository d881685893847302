//! The numbers of one line of a tableau.
ghost use Rattle.std.specs.Prelude.{◌≡◌, ◌≢◌, ◌<◌, ◌++◌, ◌∷◌, [], pos, length, IfOk, IfErr, OnOk};
ghost use Rattle.std.specs.Result.{MatchResult};
ghost use Rattle.std.specs.List.{AllZip};
ghost use Rattle.lucy_simplex.specs.Steps.{IsDivided, IsAdded, IsAddedTooWide, AreAdded};
ghost use Rattle.lucy_simplex.specs.Widths.{StopsAt, HasWideQuotient, HasWideSum};

use crate::stops::Stop;
use lucy_fraction::{Fraction, Wide};
use std::alloc::{AllocError, Global};

pub fn push_number(all: &mut Vec<i128>, number: i128) -> Result<(), AllocError>
    ensures { OnOk result (all.new.items ≡ all.old.items ++ number ∷ []) }
{
    all.push(number)?;
    Ok(())
}

pub fn push_fraction(all: &mut Vec<Fraction>, number: Fraction) -> Result<(), AllocError>
    ensures { OnOk result (all.new.items ≡ all.old.items ++ number ∷ []) }
{
    all.push(number)?;
    Ok(())
}

// A number and f times another.
fn added(number: Fraction, factor: Fraction, other: Fraction) -> Result<Fraction, Wide>
    ensures { MatchResult result (IsAdded factor number other) (λ _. IsAddedTooWide factor number other) }
{
    let more = factor.mul(other)?;
    number.add(more)
}

/// Each number of an equation divided by one that is not 0.
pub fn all_divided(
    alloc: Global,
    numbers: &[Fraction],
    by: Fraction,
    equation: usize,
) -> Result<Vec<Fraction>, Stop>
    requires { by.top ≢ pos 0 }
    ensures divided { IfOk result (λ v. AllZip (IsDivided by) v.items numbers.now) }
    ensures wide { IfErr result (λ e. StopsAt equation (HasWideQuotient by numbers.now) e) }
{
    let mut all = Vec::new(alloc);
    for number in numbers {
        let Ok(quotient) = number.div(by) else {
            return Err(Stop::Wide(equation));
        };
        push_fraction(&mut all, quotient)?;
    }
    Ok(all)
}

/// Each number of an equation and f times the one at its place among others.
pub fn all_added(
    alloc: Global,
    numbers: &[Fraction],
    factor: Fraction,
    others: &[Fraction],
    equation: usize,
) -> Result<Vec<Fraction>, Stop>
    requires { length numbers.now ≡ length others.now }
    ensures added { IfOk result (λ v. AreAdded factor numbers.now others.now v.items) }
    ensures wide { IfErr result (λ e. StopsAt equation (HasWideSum factor numbers.now others.now) e) }
{
    let mut all = Vec::new(alloc);
    for (i, number) in numbers.iter().enumerate() {
        let Ok(sum) = added(*number, factor, others[i]) else {
            return Err(Stop::Wide(equation));
        };
        push_fraction(&mut all, sum)?;
    }
    Ok(all)
}
