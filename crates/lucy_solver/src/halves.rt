//! A box and its two halves.
ghost use Rattle.std.specs.Prelude.{◌≡◌, ◌++◌, ◌∷◌, [], IfOk, IfSome, true, length, ◌<◌, ◌^◌, ◌≤ℤ◌, ◌<ℤ◌, Some, None, slice_get, slice_set, pos, int_le};
ghost use Rattle.std.specs.List.{list_all};
ghost use Rattle.lucy_clauses.specs.Sums.{complement};
ghost use Rattle.lucy_clauses.specs.Lines.{one_variable};
ghost use Rattle.lucy_clauses.specs.declared.formulas.Range.{Range};
ghost use Rattle.lucy_solver.specs.Boxes.{IsBox, point, all_single};
ghost use Rattle.lucy_solver.specs.Spans.{IsOpen, IsHigh, IsLow, span, whole};

use crate::boxes::Bound;
use lucy_clauses::{Atom, Formula, Ref};
use sqlite_items::Items;
use std::alloc::{AllocError, Global};

/// A variable with two numbers or more, and its bound.
#[derive(Clone, Copy, Debug, PartialEq, Eq)]
pub struct Open {
    /// The variable.
    pub variable: u32,
    /// What is left of its range.
    pub bound: Bound,
}

/// A number of the lower half's end: at least `lo`, and below `hi`.
pub fn middle(lo: i64, hi: i64) -> i64
    requires { lo <ℤ hi }
    ensures low { lo ≤ℤ result }
    ensures high { result <ℤ hi }
{
    lo + (hi.abs_diff(lo) / 2) as i64
}

/// A variable with two numbers or more in its range; none exactly where each has one.
pub fn open_bound(bounds: &[Bound]) -> Option<Open>
    requires { length bounds.now < 2 ^ 32 }
    ensures wide { IfSome result (λ o. IsOpen bounds.now o) }
    ensures single { result ≡ None → all_single bounds.now ≡ true }
{
    for (i, bound) in bounds.iter().enumerate() {
        if bound.lo < bound.hi {
            return Some(Open {
                variable: i as u32,
                bound: *bound,
            });
        }
    }
    None
}

/// The lower ends of a box.
pub fn point(alloc: Global, bounds: &[Bound]) -> Result<Items<i64>, AllocError>
    ensures { IfOk result (λ p. p ≡ point bounds.now) }
{
    let mut numbers = Vec::new(alloc);
    for bound in bounds {
        numbers.push(bound.lo)?;
    }
    Ok(Items::from_vec(numbers))
}

fn with_high(bound: Bound, middle: i64, place: u32) -> Bound
    requires low { bound.lo ≤ℤ middle }
    requires high { middle <ℤ bound.hi }
    ensures { IsHigh place middle bound result }
{
    Bound {
        hi: middle,
        high: Ref::Negated(place),
        ..bound
    }
}

fn with_low(bound: Bound, middle: i64, place: u32) -> Bound
    requires low { bound.lo ≤ℤ middle }
    requires high { middle <ℤ bound.hi }
    ensures { IsLow place middle bound result }
{
    Bound {
        lo: middle + 1,
        low: Ref::Negated(place),
        ..bound
    }
}

// The bounds with another one at a place.
fn replaced(
    alloc: Global,
    bounds: &[Bound],
    variable: u32,
    bound: Bound,
) -> Result<Vec<Bound>, AllocError>
    requires { variable < length bounds.now }
    ensures { IfOk result (λ v. v.items ≡ slice_set bounds.now variable bound) }
{
    let mut all = Vec::from_slice(alloc, bounds)?;
    all[variable as usize] = bound;
    Ok(all)
}

/// The lower half of a box, under the decisions and `x <= middle`.
pub fn low_half(
    alloc: Global,
    formula: &Formula,
    decisions: &[Atom],
    bounds: &[Bound],
    wide: Open,
    middle: i64,
    lower: &[Atom],
) -> Result<Vec<Bound>, AllocError>
    requires bounds { IsBox formula.now.ranges decisions.now bounds.now }
    requires wide { IsOpen bounds.now wide }
    requires low { wide.bound.lo ≤ℤ middle }
    requires high { middle <ℤ wide.bound.hi }
    requires lower { lower.now ≡ decisions.now ++ one_variable wide.variable (pos 1) middle ∷ [] }
    ensures bounds { IfOk result (λ v. IsBox formula.now.ranges lower.now v.items) }
    ensures falls { IfOk result (λ v. span v.items < span bounds.now) }
    ensures count { IfOk result (λ v. length v.items ≡ length bounds.now) }
{
    let Ok(place) = u32::try_from(decisions.len()) else {
        return Err(AllocError);
    };
    let half = with_high(wide.bound, middle, place);
    let all = replaced(alloc, bounds, wide.variable, half)?;
    Ok(all)
}

/// The upper half of a box, under the decisions and `x >= middle + 1`.
pub fn high_half(
    alloc: Global,
    formula: &Formula,
    decisions: &[Atom],
    bounds: &[Bound],
    wide: Open,
    middle: i64,
    upper: &[Atom],
) -> Result<Vec<Bound>, AllocError>
    requires bounds { IsBox formula.now.ranges decisions.now bounds.now }
    requires wide { IsOpen bounds.now wide }
    requires low { wide.bound.lo ≤ℤ middle }
    requires high { middle <ℤ wide.bound.hi }
    requires upper { upper.now ≡ decisions.now ++ complement (one_variable wide.variable (pos 1) middle) ∷ [] }
    ensures bounds { IfOk result (λ v. IsBox formula.now.ranges upper.now v.items) }
    ensures falls { IfOk result (λ v. span v.items < span bounds.now) }
    ensures count { IfOk result (λ v. length v.items ≡ length bounds.now) }
{
    let Ok(place) = u32::try_from(decisions.len()) else {
        return Err(AllocError);
    };
    let half = with_low(wide.bound, middle, place);
    let all = replaced(alloc, bounds, wide.variable, half)?;
    Ok(all)
}

/// The whole box of a formula.
pub fn whole(alloc: Global, formula: &Formula) -> Result<Vec<Bound>, AllocError>
    requires few { length formula.now.ranges < 2 ^ 32 }
    ensures { IfOk result (λ v. v.items ≡ whole 0 formula.now.ranges) }
{
    let mut all = Vec::new(alloc);
    for (i, range) in formula.ranges.as_slice().iter().enumerate() {
        all.push(Bound {
            lo: range.lo,
            hi: range.hi,
            low: Ref::Low(i as u32),
            high: Ref::High(i as u32),
        })?;
    }
    Ok(all)
}
