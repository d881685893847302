ghost use Rattle.std.specs.Prelude.{◌≡◌, ◌++◌, ◌∷◌, [], ◌<◌, ◌+◌, ◌≤◌, IfOk, length};
ghost use Rattle.lucy_closure.specs.Merges as merges;

use lucy_clauses::Atom;
use lucy_model::{Kind, Leaf};
use lucy_normal::{Normal, at_least_other, at_most_other};
use sqlite_items::Items;
use std::alloc::{AllocError, Global};

// That at least one of two atoms holds.
fn either(alloc: Global, left: Atom, right: Atom) -> Result<Normal, AllocError>
    ensures { IfOk result (λ n. n ≡ merges.either left right) }
{
    let mut parts = Items::new(alloc);
    parts.push(Normal::Atom(left))?;
    parts.push(Normal::Atom(right))?;
    Ok(Normal::Any(parts))
}

// That the number of v does not pass that of m, into which it is merged.
fn not_past(alloc: Global, kind: Kind, v: u32, m: u32) -> Result<Atom, AllocError>
    requires { v < m }
    ensures { IfOk result (λ t. t ≡ merges.not_past kind v m) }
{
    match kind {
        Kind::Max => at_most_other(alloc, v, m),
        Kind::Min => at_least_other(alloc, v, m),
    }
}

// That it does not fall short of it.
fn not_short(alloc: Global, kind: Kind, v: u32, m: u32) -> Result<Atom, AllocError>
    requires { v < m }
    ensures { IfOk result (λ t. t ≡ merges.not_short kind v m) }
{
    match kind {
        Kind::Max => at_least_other(alloc, v, m),
        Kind::Min => at_most_other(alloc, v, m),
    }
}

// That m is the merge of a and b.
fn add_merged_leaf(
    alloc: Global,
    parts: &mut Items<Normal>,
    kind: Kind,
    a: u32,
    b: u32,
    m: u32,
) -> Result<(), AllocError>
    requires { (a < m) × (b < m) }
    ensures { IfOk result (λ _. parts.new ≡ parts.old ++ merges.merged_leaf kind a b m) }
{
    let first = not_past(alloc, kind, a, m)?;
    parts.push(Normal::Atom(first))?;
    let second = not_past(alloc, kind, b, m)?;
    parts.push(Normal::Atom(second))?;
    let left = not_short(alloc, kind, a, m)?;
    let right = not_short(alloc, kind, b, m)?;
    let one = either(alloc, left, right)?;
    parts.push(one)?;
    Ok(())
}

/// That the third state is the merge of the first two, leaf by leaf.
pub fn add_merged(
    alloc: Global,
    parts: &mut Items<Normal>,
    object: &[Leaf],
) -> Result<(), AllocError>
    requires { length object.now ≤ 64 }
    ensures { IfOk result (λ _. parts.new ≡ parts.old ++ merges.merged_leaves (length object.now) 0 object.now) }
{
    let leaves = object.len() as u32;
    for (i, leaf) in object.iter().enumerate() {
        let a = i as u32;
        add_merged_leaf(
            alloc,
            parts,
            leaf.kind,
            a,
            leaves + a,
            leaves + (leaves + a),
        )?;
    }
    Ok(())
}
