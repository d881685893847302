//! Whole numbers and ranges.

ghost use Rattle.std.specs.Prelude.{◌≡◌};
ghost use Rattle.lucy_gather.specs.Steps.{Answers};
ghost use Rattle.lucy_gather.specs.Ranges as spec;

use crate::error::ElabError;
use lucy_model::{Kind, Leaf, MOST_BOUND};
use lucy_plan::Limits;
use lucy_tree::{Bounds, Int};

/// A number with or without a `-` before it.
pub fn signed(is_minus: bool, size: u64) -> i128
    ensures { result ≡ spec.signed is_minus size }
{
    let size = i128::from(size);
    if is_minus { -size } else { size }
}

fn number_of(int: Int) -> i128
    ensures { result ≡ spec.number_of int }
{
    match int.minus {
        None => signed(false, int.number.value),
        Some(_) => signed(true, int.number.value),
    }
}

/// Where its first token starts.
pub fn int_start(int: Int) -> usize
    ensures { result ≡ spec.start_of int }
{
    match int.minus {
        None => int.number.span.start,
        Some(minus) => minus.start,
    }
}

#[tactic(auto, unfolding(crate::specs::Ranges::bound))]
fn bound(int: Int) -> Result<i64, ElabError>
    ensures answers { Answers (spec.bound int) result }
    ensures exact { result ≡ spec.bound int }
{
    if int.number.value > MOST_BOUND as u64 {
        return Err(ElabError::Range(int_start(int)));
    }
    let size = int.number.value as i64;
    match int.minus {
        None => Ok(size),
        Some(_) => Ok(-size),
    }
}

#[tactic(auto, unfolding(crate::specs::Ranges::leaf_of))]
fn leaf_of(kind: Kind, lo: i64, hi: i64) -> Option<Leaf>
    ensures { result ≡ spec.leaf_of kind lo hi }
{
    Leaf::new(kind, lo, hi)
}

#[tactic(auto, unfolding(crate::specs::Ranges::limits_of))]
fn limits_of(lo: i64, hi: i64) -> Option<Limits>
    ensures { result ≡ spec.limits_of lo hi }
{
    Limits::new(lo, hi)
}

/// The leaf of this kind over these bounds.
#[tactic(auto, unfolding(crate::specs::Ranges::leaf_between))]
pub fn leaf_between(kind: Kind, bounds: Bounds) -> Result<Leaf, ElabError>
    ensures answers { Answers (spec.leaf_between kind bounds) result }
    ensures exact { result ≡ spec.leaf_between kind bounds }
{
    let lo = bound(bounds.low)?;
    let hi = bound(bounds.high)?;
    match leaf_of(kind, lo, hi) {
        None => Err(ElabError::Range(int_start(bounds.high))),
        Some(leaf) => Ok(leaf),
    }
}

/// The range of a parameter.
#[tactic(auto, unfolding(crate::specs::Ranges::limits_between))]
pub fn limits_between(bounds: Bounds) -> Result<Limits, ElabError>
    ensures answers { Answers (spec.limits_between bounds) result }
    ensures exact { result ≡ spec.limits_between bounds }
{
    let lo = bound(bounds.low)?;
    let hi = bound(bounds.high)?;
    match limits_of(lo, hi) {
        None => Err(ElabError::Range(int_start(bounds.high))),
        Some(limits) => Ok(limits),
    }
}

/// The number, where its leaf allows it.
#[tactic(auto, unfolding(crate::specs::Ranges::allowed))]
pub fn allowed(leaf: &Leaf, int: Int) -> Option<i64>
    ensures { result ≡ spec.allowed leaf.now int }
{
    let number = number_of(int);
    if leaf.allows(number) {
        Some(number as i64)
    } else {
        None
    }
}
