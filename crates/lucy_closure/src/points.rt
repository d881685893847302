ghost use Rattle.std.specs.Prelude.{◌≡◌, ◌++◌, ◌∷◌, [], ◌+◌, ◌≤◌, ◌^◌, IfOk, length, map, true, unsigned_abs};
ghost use Rattle.lucy_normal.specs.Flat.{flat_any};
ghost use Rattle.lucy_normal.specs.declared.normals.Normal.TheVariants.{Atom as Lone};
ghost use Rattle.lucy_clauses.specs.Bounds as bounds;
ghost use Rattle.lucy_closure.specs.Points as pointing;

use lucy_clauses::{at_least, at_most};
use lucy_model::State;
use lucy_normal::{Normal, Variables, add_any};
use sqlite_items::Items;
use std::alloc::{AllocError, Global};

// That a number is at most `most`, and that it is at least `least`.
fn add_bounds(
    alloc: Global,
    parts: &mut Items<Normal>,
    variable: u32,
    most: i128,
    least: i128,
) -> Result<(), AllocError>
    requires { unsigned_abs least ≤ 2 ^ 126 }
    ensures { IfOk result (λ _. parts.new ≡ parts.old ++ Lone (bounds.at_most variable most) ∷ Lone (bounds.at_least variable least) ∷ []) }
{
    let below = at_most(alloc, variable, most)?;
    parts.push(Normal::Atom(below))?;
    let above = at_least(alloc, variable, least)?;
    parts.push(Normal::Atom(above))?;
    Ok(())
}

// That a state has a number of the point at a leaf.
fn add_on_leaf(
    alloc: Global,
    parts: &mut Items<Normal>,
    variable: u32,
    number: i64,
) -> Result<(), AllocError>
    ensures { IfOk result (λ _. parts.new ≡ parts.old ++ pointing.on_leaf variable number) }
{
    let number = i128::from(number);
    add_bounds(alloc, parts, variable, number, number)
}

// That it has another one there.
fn add_off_leaf(
    alloc: Global,
    parts: &mut Items<Normal>,
    variable: u32,
    number: i64,
) -> Result<(), AllocError>
    ensures parts { IfOk result (λ _. parts.new ≡ parts.old ++ pointing.off_leaf variable number) }
    ensures number { pointing.is_number number ≡ true }
{
    let number = i128::from(number);
    add_bounds(alloc, parts, variable, number - 1, number + 1)
}

/// That a state is a point.
pub fn at_point(alloc: Global, at: Variables, point: &[i64]) -> Result<Normal, AllocError>
    requires { length point.now ≡ at.leaves }
    ensures { IfOk result (λ n. n ≡ pointing.at_point at.first point.now) }
{
    let mut parts = Items::new(alloc);
    for (leaf, number) in point.iter().enumerate() {
        add_on_leaf(alloc, &mut parts, at.first + leaf as u32, *number)?;
    }
    Ok(Normal::All(parts))
}

/// That a state is not a point.
pub fn off_point(alloc: Global, at: Variables, point: &[i64]) -> Result<Normal, AllocError>
    requires { length point.now ≡ at.leaves }
    ensures part { IfOk result (λ n. n ≡ pointing.off_point at.first point.now) }
    ensures numbers { IfOk result (λ _. pointing.are_numbers point.now ≡ true) }
{
    let mut parts = Items::new(alloc);
    for (leaf, number) in point.iter().enumerate() {
        add_off_leaf(alloc, &mut parts, at.first + leaf as u32, *number)?;
    }
    Ok(Normal::Any(parts))
}

/// Adds to the parts of an `Any` that a state is one of the points.
pub fn add_at_points(
    alloc: Global,
    flat: &mut Items<Normal>,
    at: Variables,
    points: &[State],
) -> Result<(), AllocError>
    requires { pointing.are_points at.leaves points.now ≡ true }
    ensures { IfOk result (λ _. flat.new ≡ flat.old ++ flat_any (map (pointing.at_point at.first) points.now)) }
{
    for point in points {
        let part = at_point(alloc, at, point.as_slice())?;
        add_any(alloc, flat, part)?;
    }
    Ok(())
}

/// Adds to several parts that a state is none of the points.
pub fn add_off_points(
    alloc: Global,
    parts: &mut Items<Normal>,
    at: Variables,
    points: &[State],
) -> Result<(), AllocError>
    requires { pointing.are_points at.leaves points.now ≡ true }
    ensures parts { IfOk result (λ _. parts.new ≡ parts.old ++ map (pointing.off_point at.first) points.now) }
    ensures numbers { IfOk result (λ _. pointing.all_numbers points.now ≡ true) }
{
    for point in points {
        let part = off_point(alloc, at, point.as_slice())?;
        parts.push(part)?;
    }
    Ok(())
}
