ghost use Rattle.std.specs.Prelude.{◌≡◌, ◌++◌, [], ◌∷◌, IfOk, OnErr, take, drop, reverse};
ghost use Rattle.lucy_normal.specs.Flat as flats;
ghost use Rattle.lucy_normal.specs.Flat.{within_all, within_any};
ghost use Rattle.lucy_normal.specs.Joints as joints;
ghost use Rattle.lucy_normal.specs.Fronts.{Begins};
ghost use Rattle.lucy_normal.specs.declared.normals.Normal.TheViews.{out-Normal};

use crate::fronts::shorten;
use crate::joints::Joint;
use crate::normals::Normal;
use sqlite_items::Items;
use std::alloc::{AllocError, Global};

// Moves the items behind the first so many to the end of another list, the last first. On `Err` some of them may stand
// there.
fn pour(from: &mut Items<Normal>, start: usize, to: &mut Items<Normal>) -> Result<(), AllocError>
    ensures ok { IfOk result (λ _. (from.new ≡ take start from.old) × (to.new ≡ to.old ++ reverse (drop start from.old))) }
    ensures front { Begins (take start from.old) from.new }
    ensures behind { Begins to.old to.new }
{
    while from.len() > start {
        match from.pop() {
            None => return Ok(()),
            Some(last) => to.push(last)?,
        }
    }
    Ok(())
}

/// Moves the items behind the first so many to the end of another list, in their order. On `Err` some of them may stand
/// there.
pub fn take_behind(
    alloc: Global,
    items: &mut Items<Normal>,
    start: usize,
    taken: &mut Items<Normal>,
) -> Result<(), AllocError>
    ensures ok { IfOk result (λ _. (items.new ≡ take start items.old) × (taken.new ≡ taken.old ++ drop start items.old)) }
    ensures front { Begins (take start items.old) items.new }
    ensures behind { Begins taken.old taken.new }
{
    let mut turned = Items::new(alloc);
    pour(items, start, &mut turned)?;
    pour(&mut turned, 0, taken)?;
    Ok(())
}

// Moves parts to the end of a list, in their order. On `Err` some of them may stand there.
fn move_each(
    alloc: Global,
    flat: &mut Items<Normal>,
    parts: Items<Normal>,
) -> Result<(), AllocError>
    ensures ok { IfOk result (λ _. flat.new ≡ flat.old ++ parts) }
    ensures front { Begins flat.old flat.new }
{
    let mut left = parts;
    take_behind(alloc, &mut left, 0, flat)
}

// The same, but on `Err` the list is as it was.
fn move_all(alloc: Global, flat: &mut Items<Normal>, parts: Items<Normal>) -> Result<(), AllocError>
    ensures ok { IfOk result (λ _. flat.new ≡ flat.old ++ parts) }
    ensures err { OnErr result (flat.new ≡ flat.old) }
{
    let length = flat.len();
    match move_each(alloc, flat, parts) {
        Ok(()) => Ok(()),
        Err(e) => {
            shorten(flat, length);
            Err(e)
        }
    }
}

// The same. An empty list takes the parts as they are.
fn spread(alloc: Global, flat: &mut Items<Normal>, parts: Items<Normal>) -> Result<(), AllocError>
    ensures ok { IfOk result (λ _. flat.new ≡ flat.old ++ parts) }
    ensures err { OnErr result (flat.new ≡ flat.old) }
{
    if flat.is_empty() {
        *flat = parts;
        return Ok(());
    }
    move_all(alloc, flat, parts)
}

/// Adds a part to those of an `All`: the parts of one that is an `All` itself, else the part. On `Err` the list is as it
/// was.
pub fn add_all(alloc: Global, flat: &mut Items<Normal>, part: Normal) -> Result<(), AllocError>
    ensures ok { IfOk result (λ _. flat.new ≡ flat.old ++ within_all part (out-Normal part)) }
    ensures err { OnErr result (flat.new ≡ flat.old) }
{
    match part {
        Normal::Atom(atom) => flat.push(Normal::Atom(atom)),
        Normal::All(parts) => spread(alloc, flat, parts),
        Normal::Any(parts) => flat.push(Normal::Any(parts)),
    }
}

/// Adds a part to those of an `Any`: the parts of one that is an `Any` itself, else the part. On `Err` the list is as it
/// was.
pub fn add_any(alloc: Global, flat: &mut Items<Normal>, part: Normal) -> Result<(), AllocError>
    ensures ok { IfOk result (λ _. flat.new ≡ flat.old ++ within_any part (out-Normal part)) }
    ensures err { OnErr result (flat.new ≡ flat.old) }
{
    match part {
        Normal::Atom(atom) => flat.push(Normal::Atom(atom)),
        Normal::All(parts) => flat.push(Normal::All(parts)),
        Normal::Any(parts) => spread(alloc, flat, parts),
    }
}

/// Adds a part to those of an `All` or of an `Any`.
pub fn add(
    alloc: Global,
    flat: &mut Items<Normal>,
    part: Normal,
    joint: Joint,
) -> Result<(), AllocError>
    ensures ok { IfOk result (λ _. flat.new ≡ flat.old ++ joints.within joint part) }
    ensures err { OnErr result (flat.new ≡ flat.old) }
{
    match joint {
        Joint::All => add_all(alloc, flat, part),
        Joint::Any => add_any(alloc, flat, part),
    }
}

/// All of these parts: the part itself where there is one alone.
pub fn one_all(parts: Items<Normal>) -> Normal
    ensures { result ≡ flats.one_all parts }
{
    let mut parts = parts;
    if parts.len() != 1 {
        return Normal::All(parts);
    }
    match parts.pop() {
        Some(only) => only,
        None => Normal::All(parts),
    }
}

/// Any of these parts: the part itself where there is one alone.
pub fn one_any(parts: Items<Normal>) -> Normal
    ensures { result ≡ flats.one_any parts }
{
    let mut parts = parts;
    if parts.len() != 1 {
        return Normal::Any(parts);
    }
    match parts.pop() {
        Some(only) => only,
        None => Normal::Any(parts),
    }
}

/// All of these parts, or any of them.
pub fn one(parts: Items<Normal>, joint: Joint) -> Normal
    ensures { result ≡ joints.one joint parts }
{
    match joint {
        Joint::All => one_all(parts),
        Joint::Any => one_any(parts),
    }
}

/// All of two parts, or any of them.
pub fn two(alloc: Global, left: Normal, right: Normal, joint: Joint) -> Result<Normal, AllocError>
    ensures { IfOk result (λ n. n ≡ joints.joined joint (left ∷ right ∷ [])) }
{
    let mut flat = Items::new(alloc);
    add(alloc, &mut flat, left, joint)?;
    add(alloc, &mut flat, right, joint)?;
    Ok(one(flat, joint))
}
