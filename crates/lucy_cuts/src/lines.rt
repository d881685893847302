//! What one line derives.
ghost use Rattle.std.specs.Prelude.{◌≡◌, IfOk, MatchResult, [], pos, Ok, Err, true};
ghost use Rattle.lucy_clauses.specs.Sums.{form};
ghost use Rattle.lucy_clauses.specs.Lines.{form_of_ref, added_ref, sum_form, divided_ref, quotient_form, line_form};
ghost use Rattle.lucy_cuts.specs.Deriving.{Gives};

use crate::causes::{Cause, Stop};
use lucy_clauses::{Atom, Inequality, Line, Range, Ref, Times};
use std::alloc::{AllocError, Global};

// The inequality that is referred to, where it is there.
fn form_of_ref(
    alloc: Global,
    atoms: &[Atom],
    ranges: &[Range],
    done: &[Inequality],
    of: Ref,
) -> Result<Option<Inequality>, AllocError>
    ensures { IfOk result (λ f. f ≡ form_of_ref atoms.now ranges.now done.now of) }
{
    match of {
        Ref::Negated(place) => match atoms.get(place as usize) {
            Some(atom) => Ok(Some(Inequality::from_complement(alloc, atom)?)),
            None => Ok(None),
        },
        Ref::Low(variable) => match ranges.get(variable as usize) {
            Some(range) => Ok(Some(Inequality::at_least(alloc, variable, range.lo)?)),
            None => Ok(None),
        },
        Ref::High(variable) => match ranges.get(variable as usize) {
            Some(range) => Ok(Some(Inequality::at_most(alloc, variable, range.hi)?)),
            None => Ok(None),
        },
        Ref::Derived(line) => match done.get(line as usize) {
            Some(earlier) => Ok(Some(earlier.copied(alloc)?)),
            None => Ok(None),
        },
    }
}

// The sum with a multiple of the inequality that is referred to.
fn added_ref(
    alloc: Global,
    by: i128,
    of: Option<Inequality>,
    sum: Inequality,
) -> Result<Inequality, Stop>
    ensures { Gives (added_ref by of sum) result }
{
    let mut sum = sum;
    let Some(of) = of else {
        return Err(Stop::Unjustified(Cause::Unknown));
    };
    if !sum.add_multiple(alloc, by, &of)? {
        return Err(Stop::Unjustified(Cause::TooWide));
    }
    if by <= 0 {
        return Err(Stop::Unjustified(Cause::NoConflict));
    }
    Ok(sum)
}

// The sum with one more inequality, times its multiplier.
fn sum_with(
    alloc: Global,
    atoms: &[Atom],
    ranges: &[Range],
    done: &[Inequality],
    one: Times,
    sum: Inequality,
) -> Result<Inequality, Stop>
    ensures { Gives (added_ref one.by (form_of_ref atoms.now ranges.now done.now one.of) sum) result }
{
    let of = form_of_ref(alloc, atoms, ranges, done, one.of)?;
    added_ref(alloc, one.by, of, sum)
}

// The sum of what is referred to, in the order written.
fn sum_form(
    alloc: Global,
    atoms: &[Atom],
    ranges: &[Range],
    done: &[Inequality],
    times: &[Times],
) -> Result<Inequality, Stop>
    ensures { Gives (sum_form atoms.now ranges.now done.now times.now (form [] (pos 0))) result }
{
    let mut sum = Inequality::new(alloc);
    for one in times {
        sum = sum_with(alloc, atoms, ranges, done, *one, sum)?;
    }
    Ok(sum)
}

// The quotient, where the divisor is at least 1 and divides each factor.
fn divided_ref(by: i128, of: Option<Inequality>) -> Result<Inequality, Stop>
    ensures { Gives (divided_ref by of) result }
{
    let Some(mut quotient) = of else {
        return Err(Stop::Unjustified(Cause::Unknown));
    };
    if !quotient.divide(by) {
        return Err(Stop::Unjustified(Cause::NoConflict));
    }
    Ok(quotient)
}

/// The inequality that a line derives from the complements of the atoms, the ranges and the lines before.
pub fn line_form(
    alloc: Global,
    atoms: &[Atom],
    ranges: &[Range],
    done: &[Inequality],
    line: &Line,
) -> Result<Inequality, Stop>
    ensures { Gives (line_form atoms.now ranges.now done.now line.now) result }
{
    match line {
        Line::Sum(times) => sum_form(alloc, atoms, ranges, done, times.as_slice()),
        Line::Divide { by, of } => {
            let of = form_of_ref(alloc, atoms, ranges, done, *of)?;
            divided_ref(*by, of)
        }
    }
}
