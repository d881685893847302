ghost use Rattle.std.specs.Prelude.{◌≡◌, ◌++◌, ◌∷◌, [], IfOk, IsTrue, true, map};
ghost use Rattle.lucy_model.specs.Conditions.{is_condition};
ghost use Rattle.lucy_normal.specs.Flat.{flat_any};
ghost use Rattle.lucy_closure.specs.Points.{are_points, all_numbers};
ghost use Rattle.lucy_closure.specs.Formulas as formulas;

use crate::points::{add_at_points, add_off_points};
use lucy_model::{Condition, State};
use lucy_normal::{Joint, Normal, Variables, add_normal_form, normal_form, one_any};
use sqlite_items::Items;
use std::alloc::{AllocError, Global};

/// Adds to several parts that a state satisfies the invariant and a condition, and is none of the points.
pub fn add_inside(
    alloc: Global,
    parts: &mut Items<Normal>,
    at: Variables,
    invariant: &Condition,
    condition: &Condition,
    points: &[State],
) -> Result<(), AllocError>
    requires invariant { IsTrue (is_condition at.leaves 0 invariant.now) }
    requires condition { IsTrue (is_condition at.leaves 0 condition.now) }
    requires points { are_points at.leaves points.now ≡ true }
    ensures parts { IfOk result (λ _. parts.new ≡ parts.old ++ formulas.inside at.first invariant.now condition.now points.now) }
    ensures numbers { IfOk result (λ _. all_numbers points.now ≡ true) }
{
    let first = normal_form(alloc, invariant, at, true)?;
    parts.push(first)?;
    let second = normal_form(alloc, condition, at, true)?;
    parts.push(second)?;
    add_off_points(alloc, parts, at, points)
}

// Adds to the parts of an `Any` that a state does not satisfy a condition, or is one of the points.
fn add_left_out(
    alloc: Global,
    flat: &mut Items<Normal>,
    at: Variables,
    condition: &Condition,
    points: &[State],
) -> Result<(), AllocError>
    requires condition { IsTrue (is_condition at.leaves 0 condition.now) }
    requires points { are_points at.leaves points.now ≡ true }
    ensures { IfOk result (λ _. flat.new ≡ flat.old ++ flat_any (formulas.left_out at.first condition.now points.now)) }
{
    add_normal_form(alloc, flat, condition, at, false, Joint::Any)?;
    add_at_points(alloc, flat, at, points)
}

/// That a state does not satisfy a condition, or is one of the points.
pub fn left_out(
    alloc: Global,
    at: Variables,
    condition: &Condition,
    points: &[State],
) -> Result<Normal, AllocError>
    requires condition { IsTrue (is_condition at.leaves 0 condition.now) }
    requires points { are_points at.leaves points.now ≡ true }
    ensures { IfOk result (λ n. n ≡ formulas.any_left_out at.first condition.now points.now) }
{
    let mut flat = Items::new(alloc);
    add_left_out(alloc, &mut flat, at, condition, points)?;
    Ok(one_any(flat))
}

/// That a state does not satisfy the invariant, or not a condition, or is one of the points.
pub fn outside(
    alloc: Global,
    at: Variables,
    invariant: &Condition,
    condition: &Condition,
    points: &[State],
) -> Result<Normal, AllocError>
    requires invariant { IsTrue (is_condition at.leaves 0 invariant.now) }
    requires condition { IsTrue (is_condition at.leaves 0 condition.now) }
    requires points { are_points at.leaves points.now ≡ true }
    ensures { IfOk result (λ n. n ≡ formulas.outside at.first invariant.now condition.now points.now) }
{
    let mut flat = Items::new(alloc);
    add_normal_form(alloc, &mut flat, invariant, at, false, Joint::Any)?;
    add_left_out(alloc, &mut flat, at, condition, points)?;
    Ok(one_any(flat))
}
