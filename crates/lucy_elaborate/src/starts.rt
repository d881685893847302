//! The start: each leaf's first number.

ghost use Rattle.std.specs.Prelude.{◌≡◌, map, IfOk};
ghost use Rattle.lucy_gather.specs.Steps.{Gives, Answers};
ghost use Rattle.lucy_elaborate.specs.Starts as spec;

use crate::given::Given;
use lucy_gather::{ElabError, Meaning, Scope, allowed, atom_in, int_start, meaning_at, path_start};
use lucy_model::{Kind, Leaf, State};
use lucy_tree::{Int, Name, Setting, Value};
use sqlite_items::Items;
use std::alloc::{AllocError, Global};

/// The numbers so far, and which leaves and which sets were given.
#[derive(Drop)]
pub struct Started {
    pub numbers: Items<i64>,
    /// The places of leaves.
    pub leaves: Given,
    /// The groups of sets.
    pub groups: Given,
}

fn first_of(leaf: &Leaf) -> i64
    ensures { result ≡ spec.first_of leaf.now }
{
    match leaf.kind {
        Kind::Max => leaf.lo,
        Kind::Min => leaf.hi,
    }
}

fn first_numbers(alloc: Global, leaves: &[Leaf]) -> Result<Items<i64>, AllocError>
    ensures { IfOk result (λ numbers. numbers ≡ map spec.first_of leaves.now) }
{
    let mut numbers = Items::new(alloc);
    for leaf in leaves {
        numbers.push(first_of(leaf))?;
    }
    Ok(numbers)
}

#[tactic(auto, unfolding(crate::specs::Starts::with_number))]
fn with_number(started: &mut Started, leaf: u32, number: i64) -> Result<(), ElabError>
    ensures { Gives (spec.with_number leaf number started.old) result started.new }
{
    match started.numbers.get(leaf as usize) {
        None => Ok(()),
        Some(_) => {
            started.numbers.set(leaf as usize, number);
            Ok(())
        }
    }
}

/// Notes a place, which may be given once.
#[tactic(auto, unfolding(crate::specs::Starts::once_among))]
fn once_among(given: &mut Given, at: usize, place: usize) -> Result<(), ElabError>
    ensures { Gives (spec.once_among at place given.old) result given.new }
{
    if given.put(place)? {
        Ok(())
    } else {
        Err(ElabError::Twice(at))
    }
}

/// Notes that a field is given, which may be once.
#[tactic(auto, unfolding(crate::specs::Starts::once, crate::specs::Starts::leaf_once, crate::specs::Starts::set_once, crate::specs::Starts::once_among))]
fn once(started: &mut Started, at: usize, meaning: Meaning) -> Result<(), ElabError>
    ensures { Gives (spec.once at meaning started.old) result started.new }
{
    match meaning {
        Meaning::Number(leaf) => once_among(&mut started.leaves, at, leaf as usize),
        Meaning::Flag(leaf) => once_among(&mut started.leaves, at, leaf as usize),
        Meaning::Set { group, .. } => once_among(&mut started.groups, at, group),
        _ => Ok(()),
    }
}

#[tactic(auto, unfolding(crate::specs::Starts::in_range))]
fn in_range(scope: &Scope, at: usize, leaf: u32, int: Int) -> Result<i64, ElabError>
    ensures { Answers (spec.in_range scope.now at leaf int) result }
{
    match scope.leaves.get(leaf as usize) {
        None => Err(ElabError::Kind(at)),
        Some(leaf) => match allowed(leaf, int) {
            None => Err(ElabError::BadStart(int_start(int))),
            Some(number) => Ok(number),
        },
    }
}

#[tactic(auto, unfolding(crate::specs::Starts::number_value))]
fn number_value(
    scope: &Scope,
    started: &mut Started,
    at: usize,
    leaf: u32,
    value: &Value,
) -> Result<(), ElabError>
    ensures { Gives (spec.number_value scope.now at leaf value.now started.old) result started.new }
{
    match value {
        Value::Int(int) => {
            let number = in_range(scope, at, leaf, *int)?;
            with_number(started, leaf, number)
        }
        _ => Err(ElabError::Kind(at)),
    }
}

#[tactic(auto, unfolding(crate::specs::Starts::flag_value))]
fn flag_value(started: &mut Started, at: usize, leaf: u32, value: &Value) -> Result<(), ElabError>
    ensures { Gives (spec.flag_value at leaf value.now started.old) result started.new }
{
    match value {
        Value::On(_) => with_number(started, leaf, 1),
        Value::Off(_) => with_number(started, leaf, 0),
        _ => Err(ElabError::Kind(at)),
    }
}

#[tactic(auto, unfolding(crate::specs::Starts::member_value))]
fn member_value(
    scope: &Scope,
    started: &mut Started,
    group: usize,
    atom: &Name,
) -> Result<(), ElabError>
    ensures { Gives (spec.member_value scope.now group atom.now started.old) result started.new }
{
    let leaf = atom_in(&scope.entries, group, atom)?;
    with_number(started, leaf, 1)?;
    Ok(())
}

fn member_values(
    scope: &Scope,
    started: &mut Started,
    group: usize,
    atoms: &[Name],
) -> Result<(), ElabError>
    ensures { Gives (spec.member_values scope.now group atoms.now started.old) result started.new }
{
    for atom in atoms {
        member_value(scope, started, group, atom)?;
    }
    Ok(())
}

#[tactic(auto, unfolding(crate::specs::Starts::set_value))]
fn set_value(
    scope: &Scope,
    started: &mut Started,
    at: usize,
    group: usize,
    value: &Value,
) -> Result<(), ElabError>
    ensures { Gives (spec.set_value scope.now at group value.now started.old) result started.new }
{
    match value {
        Value::Set { atoms, .. } => member_values(scope, started, group, atoms.as_slice()),
        _ => Err(ElabError::Kind(at)),
    }
}

#[tactic(auto, unfolding(crate::specs::Starts::value_in))]
fn value_in(
    scope: &Scope,
    started: &mut Started,
    at: usize,
    meaning: Meaning,
    value: &Value,
) -> Result<(), ElabError>
    ensures { Gives (spec.value_in scope.now at meaning value.now started.old) result started.new }
{
    match meaning {
        Meaning::Number(leaf) => number_value(scope, started, at, leaf, value),
        Meaning::Flag(leaf) => flag_value(started, at, leaf, value),
        Meaning::Set { group, .. } => set_value(scope, started, at, group, value),
        _ => Err(ElabError::Kind(at)),
    }
}

#[tactic(auto, unfolding(crate::specs::Starts::setting_in))]
fn setting_in(scope: &Scope, started: &mut Started, setting: &Setting) -> Result<(), ElabError>
    ensures { Gives (spec.setting_in scope.now setting.now started.old) result started.new }
{
    let meaning = meaning_at(scope, &[], &setting.path)?;
    let at = path_start(&setting.path);
    once(started, at, meaning)?;
    value_in(scope, started, at, meaning, &setting.value)?;
    Ok(())
}

fn settings_in(scope: &Scope, started: &mut Started, settings: &[Setting]) -> Result<(), ElabError>
    ensures { Gives (spec.settings_in scope.now settings.now started.old) result started.new }
{
    for setting in settings {
        setting_in(scope, started, setting)?;
    }
    Ok(())
}

/// The state that all replicas start from.
#[tactic(auto, unfolding(crate::specs::Starts::start_of))]
pub fn start_from(alloc: Global, scope: &Scope, settings: &[Setting]) -> Result<State, ElabError>
    ensures { Answers (spec.start_of scope.now settings.now) result }
{
    let numbers = first_numbers(alloc, scope.leaves.as_slice())?;
    let mut started = Started {
        numbers,
        leaves: Given::new(alloc),
        groups: Given::new(alloc),
    };
    settings_in(scope, &mut started, settings)?;
    let state = State::new(alloc, started.numbers.as_slice())?;
    Ok(state)
}
