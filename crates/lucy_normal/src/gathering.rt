ghost use Rattle.std.specs.Prelude.{◌≡◌, ◌++◌, List, length};
ghost use Rattle.lucy_normal.specs.Joints as joints;
ghost use Rattle.lucy_normal.specs.Gathering as gathering;
ghost use Rattle.lucy_normal.specs.declared.normals.Normal.{Normal};

use crate::flattening::{add, one, take_behind};
use crate::joints::Joint;
use crate::normals::Normal;
use sqlite_items::Items;
use std::alloc::{AllocError, Global};

/// Parts that are joined within a list of the other joint.
#[derive(Drop)]
pub enum Gathered {
    /// These parts.
    Parts(Items<Normal>),
    /// One part alone, which is joined as the list around it. Its own parts stand in that list, behind the first so many.
    Alone(usize),
}

/// The other of the two joints.
pub fn other(joint: Joint) -> Joint
    ensures { result ≡ joints.other joint }
{
    match joint {
        Joint::All => Joint::Any,
        Joint::Any => Joint::All,
    }
}

// A list of these parts, however many.
fn list_of(parts: Items<Normal>, joint: Joint) -> Normal
    ensures { result ≡ joints.list_of joint parts }
{
    match joint {
        Joint::All => Normal::All(parts),
        Joint::Any => Normal::Any(parts),
    }
}

/// What was added to the list around, as a part of the other joint.
pub fn settled(
    alloc: Global,
    flat: &mut Items<Normal>,
    start: usize,
    joint: Joint,
) -> Result<Gathered, AllocError>
    ensures { (old more : List Normal) → start ≡ length old → flat.old ≡ old ++ more → gathering.Gave joint old flat.new result (joints.within (joints.other joint) (joints.one joint more)) }
{
    let added = flat.len().saturating_sub(start);
    if added != 1 {
        return Ok(Gathered::Alone(start));
    }
    match flat.pop() {
        Some(only) => {
            let mut parts = Items::new(alloc);
            add(alloc, &mut parts, only, other(joint))?;
            Ok(Gathered::Parts(parts))
        }
        None => Ok(Gathered::Alone(start)),
    }
}

/// What stood alone, with more parts behind it.
pub fn joined(
    alloc: Global,
    flat: &mut Items<Normal>,
    start: usize,
    more: Items<Normal>,
    joint: Joint,
) -> Result<Gathered, AllocError>
    ensures { (old parts : List Normal) → gathering.StandsAlone joint old flat.old start parts → gathering.Gave joint old flat.new result (parts ++ more) }
{
    if more.is_empty() {
        return Ok(Gathered::Alone(start));
    }
    let mut alone = Items::new(alloc);
    take_behind(alloc, flat, start, &mut alone)?;
    let mut parts = Items::new(alloc);
    parts.push(list_of(alone, joint))?;
    parts.append(more)?;
    Ok(Gathered::Parts(parts))
}

/// Adds what was gathered to the list around it. On `Err` some parts more may stand there.
pub fn finish(
    alloc: Global,
    flat: &mut Items<Normal>,
    gathered: Gathered,
    joint: Joint,
) -> Result<(), AllocError>
    ensures { (old parts : List Normal) → gathering.Gathers joint old flat.old gathered parts → gathering.Added old flat.new result (joints.within joint (joints.one (joints.other joint) parts)) }
{
    match gathered {
        Gathered::Parts(parts) => add(alloc, flat, one(parts, other(joint)), joint),
        Gathered::Alone(_) => Ok(()),
    }
}
