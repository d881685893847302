//! What names and paths stand for.

ghost use Rattle.std.specs.Prelude.{◌≡◌};
ghost use Rattle.lucy_gather.specs.Steps.{Answers};
ghost use Rattle.lucy_gather.specs.Scopes as spec;

use crate::error::ElabError;
use crate::tables::Table;
use lucy_model::Leaf;
use lucy_tree::{Name, Path, Then};
use sqlite_items::Items;

/// What a name stands for.
#[derive(Clone, Copy, Debug, PartialEq, Eq)]
pub enum Meaning {
    /// A number's field, with its leaf.
    Number(u32),
    /// A flag, with its leaf.
    Flag(u32),
    /// A set.
    Set {
        /// The group of its atoms.
        group: usize,
        /// The leaf of its first atom. Those of the others follow.
        first: usize,
        /// How many atoms it has.
        count: usize,
    },
    /// A pair, with the group of its fields.
    Pair(usize),
    /// An atom of a set, with its leaf.
    Atom(u32),
    /// A parameter, with its place.
    Argument(u32),
}

/// What a product of a term adds to.
#[derive(Clone, Copy, Debug, PartialEq, Eq)]
pub enum Variable {
    /// A leaf's number.
    Leaf(u32),
    /// An argument's place.
    Argument(u32),
    /// The numbers of so many leaves.
    Leaves {
        /// The first leaf.
        first: usize,
        /// How many there are.
        count: usize,
    },
}

/// A declared name. Its group is 0 for an outermost field and for a parameter; each set and each
/// pair has a group of its own.
#[derive(Drop)]
pub struct Entry {
    /// Where the name is looked up.
    pub group: usize,
    /// The bytes of the name.
    pub name: Items<u8>,
    /// What it stands for.
    pub meaning: Meaning,
}

/// The leaves of an object, and the names of its fields and atoms.
#[derive(Drop)]
pub struct Scope<'t> {
    /// The leaves, in the order of the fields.
    pub leaves: Items<Leaf>,
    /// The names of fields and atoms, in text order.
    pub entries: Table<'t>,
}

/// What a name stands for among the parameters of a transaction.
pub fn held_param(params: &[Entry], name: &[u8]) -> Option<Meaning>
    ensures { result ≡ spec.held 0 name.now params.now }
{
    for param in params {
        if 0 == param.group && name == param.name.as_slice() {
            return Some(param.meaning);
        }
    }
    None
}

fn within(entries: &Table, outer: Meaning, name: &Name) -> Option<Meaning>
    ensures { result ≡ spec.within entries.now outer name.now }
{
    match outer {
        Meaning::Pair(group) => entries.held(group, name.text.as_slice()),
        _ => None,
    }
}

fn walked(entries: &Table, first: Meaning, others: &[Then<Name>]) -> Option<Meaning>
    ensures { result ≡ spec.walked entries.now first others.now }
{
    let mut found = first;
    for other in others {
        found = within(entries, found, &other.item)?;
    }
    Some(found)
}

fn outermost(scope: &Scope, params: &[Entry], name: &Name) -> Option<Meaning>
    ensures { result ≡ spec.outermost scope.now params.now name.now }
{
    match scope.entries.held(0, name.text.as_slice()) {
        Some(meaning) => Some(meaning),
        None => held_param(params, name.text.as_slice()),
    }
}

/// What a path stands for.
pub fn meaning_of(scope: &Scope, params: &[Entry], path: &Path) -> Option<Meaning>
    ensures { result ≡ spec.meaning_of scope.now params.now path.now }
{
    let found = outermost(scope, params, &path.first)?;
    walked(&scope.entries, found, path.others.as_slice())
}

/// Where a path's first name starts.
pub fn path_start(path: &Path) -> usize
    ensures { result ≡ spec.start_of path.now }
{
    path.first.span.start
}

/// What a path stands for, or that it is not known.
#[tactic(auto, unfolding(crate::specs::Scopes::meaning_at))]
pub fn meaning_at(scope: &Scope, params: &[Entry], path: &Path) -> Result<Meaning, ElabError>
    ensures answers { Answers (spec.meaning_at scope.now params.now path.now) result }
    ensures exact { result ≡ spec.meaning_at scope.now params.now path.now }
{
    match meaning_of(scope, params, path) {
        None => Err(ElabError::UnknownName(path_start(path))),
        Some(meaning) => Ok(meaning),
    }
}

/// The leaf of a flag.
#[tactic(auto, unfolding(crate::specs::Scopes::flag_at))]
pub fn flag_at(scope: &Scope, params: &[Entry], path: &Path) -> Result<u32, ElabError>
    ensures answers { Answers (spec.flag_at scope.now params.now path.now) result }
    ensures exact { result ≡ spec.flag_at scope.now params.now path.now }
{
    match meaning_at(scope, params, path)? {
        Meaning::Flag(leaf) => Ok(leaf),
        _ => Err(ElabError::Kind(path_start(path))),
    }
}

/// The group of a set's atoms.
#[tactic(auto, unfolding(crate::specs::Scopes::set_at))]
fn set_at(scope: &Scope, params: &[Entry], path: &Path) -> Result<usize, ElabError>
    ensures answers { Answers (spec.set_at scope.now params.now path.now) result }
    ensures exact { result ≡ spec.set_at scope.now params.now path.now }
{
    match meaning_at(scope, params, path)? {
        Meaning::Set { group, .. } => Ok(group),
        _ => Err(ElabError::Kind(path_start(path))),
    }
}

/// The leaf of an atom in the group of a set.
#[tactic(auto, unfolding(crate::specs::Scopes::atom_in))]
pub fn atom_in(entries: &Table, group: usize, atom: &Name) -> Result<u32, ElabError>
    ensures answers { Answers (spec.atom_in entries.now group atom.now) result }
    ensures exact { result ≡ spec.atom_in entries.now group atom.now }
{
    match entries.held(group, atom.text.as_slice()) {
        Some(Meaning::Atom(leaf)) => Ok(leaf),
        _ => Err(ElabError::UnknownName(atom.span.start)),
    }
}

/// The leaf of an atom of a set, after the set's path.
#[tactic(auto, unfolding(crate::specs::Scopes::atom_at))]
pub fn atom_at(scope: &Scope, params: &[Entry], set: &Path, atom: &Name) -> Result<u32, ElabError>
    ensures answers { Answers (spec.atom_at scope.now params.now set.now atom.now) result }
    ensures exact { result ≡ spec.atom_at scope.now params.now set.now atom.now }
{
    let group = set_at(scope, params, set)?;
    let leaf = atom_in(&scope.entries, group, atom)?;
    Ok(leaf)
}

/// What a path adds to in a term.
#[tactic(auto, unfolding(crate::specs::Scopes::number_at))]
pub fn number_at(scope: &Scope, params: &[Entry], path: &Path) -> Result<Variable, ElabError>
    ensures answers { Answers (spec.number_at scope.now params.now path.now) result }
    ensures exact { result ≡ spec.number_at scope.now params.now path.now }
{
    match meaning_at(scope, params, path)? {
        Meaning::Number(leaf) => Ok(Variable::Leaf(leaf)),
        Meaning::Argument(slot) => Ok(Variable::Argument(slot)),
        _ => Err(ElabError::Kind(path_start(path))),
    }
}

/// What the size of a set adds to in a term.
#[tactic(auto, unfolding(crate::specs::Scopes::size_at))]
pub fn size_at(scope: &Scope, params: &[Entry], path: &Path) -> Result<Variable, ElabError>
    ensures answers { Answers (spec.size_at scope.now params.now path.now) result }
    ensures exact { result ≡ spec.size_at scope.now params.now path.now }
{
    match meaning_at(scope, params, path)? {
        Meaning::Set { first, count, .. } => Ok(Variable::Leaves { first, count }),
        _ => Err(ElabError::Kind(path_start(path))),
    }
}
