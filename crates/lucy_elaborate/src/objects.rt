//! The leaves and the names of an object.

ghost use Rattle.std.specs.Prelude.{◌≡◌, map};
ghost use Rattle.lucy_gather.specs.Steps.{Gives, Answers, each};
ghost use Rattle.lucy_elaborate.specs.Objects as spec;

use crate::limits::next_place;
use lucy_gather::{ElabError, Meaning, Scope, Table, leaf_between, one_more};
use lucy_model::{Kind, Leaf};
use lucy_plan::{FIRST_VERSION, What, most_leaves};
use lucy_tree::{Bounds, Extreme, Field, FlagKind, Name};
use sqlite_items::Items;
use std::alloc::Global;

fn kind_of(extreme: Extreme) -> Kind
    ensures { result ≡ spec.kind_of extreme }
{
    match extreme {
        Extreme::Max => Kind::Max,
        Extreme::Min => Kind::Min,
    }
}

fn flag_kind(kind: FlagKind) -> Kind
    ensures { result ≡ spec.flag_kind kind }
{
    match kind {
        FlagKind::Or => Kind::Max,
        FlagKind::And => Kind::Min,
    }
}

/// A leaf that is 0 or 1.
#[tactic(auto, unfolding(crate::specs::Objects::bit))]
fn bit(kind: Kind) -> Leaf
    ensures { result ≡ spec.bit kind }
{
    Leaf { kind, lo: 0, hi: 1 }
}

/// The number of the next leaf.
#[tactic(auto, unfolding(crate::specs::Objects::next_leaf))]
fn next_leaf(scope: &Scope) -> Result<u32, ElabError>
    ensures { Gives (spec.next_leaf scope.now) result scope.now }
{
    next_place(scope.leaves.len(), most_leaves(FIRST_VERSION), What::Leaves)
}

#[tactic(auto, unfolding(crate::specs::Objects::with_leaf))]
fn with_leaf(scope: &mut Scope, leaf: Leaf) -> Result<(), ElabError>
    ensures { Gives (spec.with_leaf leaf scope.old) result scope.new }
{
    scope.leaves.push(leaf)?;
    Ok(())
}

#[tactic(auto, unfolding(crate::specs::Objects::untaken))]
fn untaken(scope: &Scope, group: usize, name: &Name) -> Result<(), ElabError>
    ensures { Gives (spec.untaken group name.now scope.now) result scope.now }
{
    match scope.entries.held(group, name.text.as_slice()) {
        None => Ok(()),
        Some(_) => Err(ElabError::Twice(name.span.start)),
    }
}

/// Puts a name that is not taken in its group.
#[tactic(auto, unfolding(crate::specs::Objects::named))]
fn named<'t>(
    scope: &mut Scope<'t>,
    group: usize,
    name: &'t Name,
    meaning: Meaning,
) -> Result<(), ElabError>
    ensures { Gives (spec.named group name.now meaning scope.old) result scope.new }
{
    match scope.entries.put(group, name.text.as_slice(), meaning)? {
        None => Ok(()),
        Some(_) => Err(ElabError::Twice(name.span.start)),
    }
}

/// A group that no name has yet.
#[tactic(auto, unfolding(crate::specs::Objects::next_group))]
fn next_group(scope: &Scope) -> Result<usize, ElabError>
    ensures { Gives (spec.next_group scope.now) result scope.now }
{
    let group = one_more(scope.entries.len())?;
    Ok(group)
}

#[tactic(auto, unfolding(crate::specs::Objects::number_field))]
fn number_field<'t>(
    scope: &mut Scope<'t>,
    group: usize,
    extreme: Extreme,
    name: &'t Name,
    bounds: Bounds,
) -> Result<(), ElabError>
    ensures { Gives (spec.number_field group extreme name.now bounds scope.old) result scope.new }
{
    let number = next_leaf(scope)?;
    untaken(scope, group, name)?;
    let leaf = leaf_between(kind_of(extreme), bounds)?;
    named(scope, group, name, Meaning::Number(number))?;
    with_leaf(scope, leaf)?;
    Ok(())
}

#[tactic(auto, unfolding(crate::specs::Objects::flag_field))]
fn flag_field<'t>(
    scope: &mut Scope<'t>,
    group: usize,
    kind: FlagKind,
    name: &'t Name,
) -> Result<(), ElabError>
    ensures { Gives (spec.flag_field group kind name.now scope.old) result scope.new }
{
    let number = next_leaf(scope)?;
    named(scope, group, name, Meaning::Flag(number))?;
    with_leaf(scope, bit(flag_kind(kind)))?;
    Ok(())
}

#[tactic(auto, unfolding(crate::specs::Objects::atom_field))]
fn atom_field<'t>(scope: &mut Scope<'t>, group: usize, name: &'t Name) -> Result<(), ElabError>
    ensures { Gives (spec.atom_field group name.now scope.old) result scope.new }
{
    untaken(scope, group, name)?;
    let number = next_leaf(scope)?;
    named(scope, group, name, Meaning::Atom(number))?;
    with_leaf(scope, bit(Kind::Max))?;
    Ok(())
}

fn atom_fields<'t>(scope: &mut Scope<'t>, group: usize, atoms: &'t [Name]) -> Result<(), ElabError>
    ensures { Gives (spec.atom_fields group atoms.now scope.old) result scope.new }
{
    for atom in atoms {
        atom_field(scope, group, atom)?;
    }
    Ok(())
}

/// Puts a set's name before its atoms, of which there are so many and whose leaves are the next
/// ones. Tells their group.
#[tactic(auto, unfolding(crate::specs::Objects::set_name, crate::specs::Objects::leaf_count))]
fn set_name<'t>(
    scope: &mut Scope<'t>,
    group: usize,
    name: &'t Name,
    count: usize,
) -> Result<usize, ElabError>
    ensures { Gives (spec.set_name group name.now count scope.old) result scope.new }
{
    let inner = next_group(scope)?;
    let meaning = Meaning::Set {
        group: inner,
        first: scope.leaves.len(),
        count,
    };
    named(scope, group, name, meaning)?;
    Ok(inner)
}

#[tactic(auto, unfolding(crate::specs::Objects::set_field))]
fn set_field<'t>(
    scope: &mut Scope<'t>,
    group: usize,
    name: &'t Name,
    atoms: &'t [Name],
) -> Result<(), ElabError>
    ensures { Gives (spec.set_field group name.now atoms.now scope.old) result scope.new }
{
    let inner = set_name(scope, group, name, atoms.len())?;
    atom_fields(scope, inner, atoms)?;
    Ok(())
}

#[tactic(auto, unfolding(crate::specs::Objects::pair_name))]
fn pair_name<'t>(scope: &mut Scope<'t>, group: usize, name: &'t Name) -> Result<usize, ElabError>
    ensures { Gives (spec.pair_name group name.now scope.old) result scope.new }
{
    let inner = next_group(scope)?;
    named(scope, group, name, Meaning::Pair(inner))?;
    Ok(inner)
}

#[cycle(fields)]
fn field_in<'t>(scope: &mut Scope<'t>, group: usize, field: &'t Field) -> Result<(), ElabError>
    ensures { Gives (spec.field_in field.now group scope.old) result scope.new }
{
    match field {
        Field::Number {
            extreme,
            name,
            bounds,
            ..
        } => number_field(scope, group, *extreme, name, *bounds),
        Field::Flag { kind, name, .. } => flag_field(scope, group, *kind, name),
        Field::Set { name, atoms, .. } => set_field(scope, group, name, atoms.as_slice()),
        Field::Pair { name, fields, .. } => {
            let inner = pair_name(scope, group, name)?;
            fields_in(scope, inner, fields.as_slice())?;
            Ok(())
        }
    }
}

#[cycle(fields)]
fn fields_in<'t>(scope: &mut Scope<'t>, group: usize, fields: &'t [Field]) -> Result<(), ElabError>
    ensures { Gives (each (λ field. field group) (map spec.field_in fields.now) scope.old) result scope.new }
{
    for field in fields {
        field_in(scope, group, field)?;
    }
    Ok(())
}

#[tactic(auto, unfolding(crate::specs::Objects::not_empty))]
fn not_empty<'t>(scope: Scope<'t>) -> Result<Scope<'t>, ElabError>
    ensures { Answers (spec.not_empty scope.entry) result }
{
    if scope.leaves.len() > 0 {
        Ok(scope)
    } else {
        Err(ElabError::Limit {
            what: What::Leaves,
            count: 0,
        })
    }
}

/// The leaves and the names of an object.
#[tactic(auto, unfolding(crate::specs::Objects::object_of))]
pub fn object_of<'t>(alloc: Global, fields: &'t [Field]) -> Result<Scope<'t>, ElabError>
    ensures { Answers (spec.object_of fields.now) result }
{
    let mut scope = Scope {
        leaves: Items::new(alloc),
        entries: Table::new(alloc),
    };
    fields_in(&mut scope, 0, fields)?;
    let scope = not_empty(scope)?;
    Ok(scope)
}
