//! Changes and branches of a transaction.

ghost use Rattle.std.specs.Prelude.{◌≡◌, []};
ghost use Rattle.lucy_gather.specs.Steps.{Gives, Answers};
ghost use Rattle.lucy_elaborate.specs.Changes as spec;

use lucy_gather::{
    ElabError, Entry, Meaning, Scope, assigned, atom_at, condition_of, meaning_at, path_start,
};
use lucy_model::Term;
use lucy_plan::{Branch, Set};
use lucy_tree::{Assigned, Change, Name, Path};
use sqlite_items::Items;
use std::alloc::Global;

fn constant_term(alloc: Global, constant: i64) -> Term
    ensures { result ≡ spec.constant_term constant }
{
    Term {
        leaves: Items::new(alloc),
        arguments: Items::new(alloc),
        constant,
    }
}

fn is_set(sets: &[Set], leaf: u32) -> bool
    ensures { result ≡ spec.is_set sets.now leaf }
{
    sets.iter().any(|earlier| earlier.leaf == leaf)
}

/// A branch sets a leaf once.
#[tactic(auto, unfolding(crate::specs::Changes::unset))]
fn unset(sets: &Items<Set>, at: usize, leaf: u32) -> Result<(), ElabError>
    ensures { Gives (spec.unset at leaf sets.now) result sets.now }
{
    if is_set(sets.as_slice(), leaf) {
        return Err(ElabError::Twice(at));
    }
    Ok(())
}

#[tactic(auto, unfolding(crate::specs::Changes::unset_of))]
fn unset_of(sets: &Items<Set>, at: usize, meaning: Meaning) -> Result<(), ElabError>
    ensures { Gives (spec.unset_of at meaning sets.now) result sets.now }
{
    match meaning {
        Meaning::Number(leaf) => unset(sets, at, leaf),
        Meaning::Flag(leaf) => unset(sets, at, leaf),
        _ => Ok(()),
    }
}

#[tactic(auto, unfolding(crate::specs::Changes::with_set))]
fn with_set(sets: &mut Items<Set>, leaf: u32, to: Term) -> Result<(), ElabError>
    ensures { Gives (spec.with_set leaf to sets.old) result sets.new }
{
    sets.push(Set { leaf, to })?;
    Ok(())
}

#[tactic(auto, unfolding(crate::specs::Changes::flag_change))]
fn flag_change(
    alloc: Global,
    sets: &mut Items<Set>,
    at: usize,
    leaf: u32,
    value: &Assigned,
) -> Result<(), ElabError>
    ensures { Gives (spec.flag_change at leaf value.now sets.old) result sets.new }
{
    match value {
        Assigned::On(_) => with_set(sets, leaf, constant_term(alloc, 1)),
        Assigned::Off(_) => with_set(sets, leaf, constant_term(alloc, 0)),
        _ => Err(ElabError::Kind(at)),
    }
}

#[tactic(auto, unfolding(crate::specs::Changes::number_change))]
fn number_change(
    alloc: Global,
    scope: &Scope,
    params: &[Entry],
    sets: &mut Items<Set>,
    at: usize,
    leaf: u32,
    value: &Assigned,
) -> Result<(), ElabError>
    ensures { Gives (spec.number_change scope.now params.now at leaf value.now sets.old) result sets.new }
{
    match value {
        Assigned::Term(term) => {
            let to = assigned(alloc, scope, params, term)?;
            with_set(sets, leaf, to)
        }
        _ => Err(ElabError::Kind(at)),
    }
}

#[tactic(auto, unfolding(crate::specs::Changes::value_change))]
fn value_change(
    alloc: Global,
    scope: &Scope,
    params: &[Entry],
    sets: &mut Items<Set>,
    at: usize,
    meaning: Meaning,
    value: &Assigned,
) -> Result<(), ElabError>
    ensures { Gives (spec.value_change scope.now params.now at meaning value.now sets.old) result sets.new }
{
    match meaning {
        Meaning::Number(leaf) => number_change(alloc, scope, params, sets, at, leaf, value),
        Meaning::Flag(leaf) => flag_change(alloc, sets, at, leaf, value),
        _ => Err(ElabError::Kind(at)),
    }
}

#[tactic(auto, unfolding(crate::specs::Changes::assign_in))]
fn assign_in(
    alloc: Global,
    scope: &Scope,
    params: &[Entry],
    sets: &mut Items<Set>,
    path: &Path,
    value: &Assigned,
) -> Result<(), ElabError>
    ensures { Gives (spec.assign_in scope.now params.now path.now value.now sets.old) result sets.new }
{
    let meaning = meaning_at(scope, params, path)?;
    let at = path_start(path);
    unset_of(sets, at, meaning)?;
    value_change(alloc, scope, params, sets, at, meaning, value)?;
    Ok(())
}

#[tactic(auto, unfolding(crate::specs::Changes::insert_in))]
fn insert_in(
    alloc: Global,
    scope: &Scope,
    params: &[Entry],
    sets: &mut Items<Set>,
    at: usize,
    set: &Path,
    atom: &Name,
) -> Result<(), ElabError>
    ensures { Gives (spec.insert_in scope.now params.now at set.now atom.now sets.old) result sets.new }
{
    let leaf = atom_at(scope, params, set, atom)?;
    unset(sets, at, leaf)?;
    with_set(sets, leaf, constant_term(alloc, 1))?;
    Ok(())
}

fn change_in(
    alloc: Global,
    scope: &Scope,
    params: &[Entry],
    sets: &mut Items<Set>,
    change: &Change,
) -> Result<(), ElabError>
    ensures { Gives (spec.change_in scope.now params.now change.now sets.old) result sets.new }
{
    match change {
        Change::Assign { path, value, .. } => assign_in(alloc, scope, params, sets, path, value),
        Change::Insert {
            word,
            atom,
            set,
            ..
        } => insert_in(alloc, scope, params, sets, word.start, set, atom),
    }
}

fn changes_in(
    alloc: Global,
    scope: &Scope,
    params: &[Entry],
    sets: &mut Items<Set>,
    changes: &[Change],
) -> Result<(), ElabError>
    ensures { Gives (spec.changes_in scope.now params.now changes.now sets.old) result sets.new }
{
    for change in changes {
        change_in(alloc, scope, params, sets, change)?;
    }
    Ok(())
}

#[tactic(auto, unfolding(crate::specs::Changes::sets_of))]
fn sets_of(
    alloc: Global,
    scope: &Scope,
    params: &[Entry],
    changes: &[Change],
) -> Result<Items<Set>, ElabError>
    ensures { Answers (spec.sets_of scope.now params.now changes.now) result }
{
    let mut sets = Items::new(alloc);
    changes_in(alloc, scope, params, &mut sets, changes)?;
    Ok(sets)
}

#[tactic(auto, unfolding(crate::specs::Changes::branch_of))]
fn branch_of(
    alloc: Global,
    scope: &Scope,
    params: &[Entry],
    branch: &lucy_tree::Branch,
    count: &mut u32,
) -> Result<Branch, ElabError>
    ensures { Gives (spec.branch_of scope.now params.now branch.now count.old) result count.new }
{
    let when = condition_of(alloc, scope, params, &branch.cond, count)?;
    sets_of(alloc, scope, params, branch.changes.as_slice()).map(|sets| Branch { when, sets })
}

/// The branches of a transaction. Counts the nodes of their conditions.
pub fn branches_of(
    alloc: Global,
    scope: &Scope,
    params: &[Entry],
    branches: &[lucy_tree::Branch],
    count: &mut u32,
) -> Result<Items<Branch>, ElabError>
    ensures { Gives (spec.branches_of scope.now params.now branches.now [] count.old) result count.new }
{
    let mut found = Items::new(alloc);
    for branch in branches {
        let made = branch_of(alloc, scope, params, branch, count)?;
        found.push(made)?;
    }
    Ok(found)
}
