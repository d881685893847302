//! A table of names.

ghost use Rattle.std.specs.Prelude.{◌≡◌, [], IfOk, OnOk, OnErr, length};
ghost use Rattle.lucy_gather.specs.Tables as spec;

use crate::scopes::Meaning;
use indexmap::IndexMap;
use std::alloc::{AllocError, Global};
use std::marker::Model;

/// A name in a group.
#[derive(Clone, Copy, PartialEq, Eq, Hash)]
struct Key<'t> {
    group: usize,
    name: &'t [u8],
}

/// What names stand for, in the order in which they were put. The names of a group differ. The
/// bytes of names are borrowed, and a name is found without a walk over the others. Contracts see
/// a list of entries.
#[derive(Drop)]
pub struct Table<'t> {
    rows: IndexMap<Key<'t>, Meaning>,
}

impl<'t> Model for Table<'t> {
    ghost use Rattle.std.specs.Prelude.{List};
    ghost use Rattle.lucy_gather.specs.declared.scopes.Entry.{Entry};
    ghost use Rattle.lucy_gather.specs.Tables.{entries_of};

    ghost Value = { List Entry };

    ghost view = { λ t. entries_of (λ key. key.group) (λ key. key.name.now) t.rows.entries };
}

impl<'t> Table<'t> {
    /// No names.
    pub fn new(alloc: Global) -> Table<'t>
        ensures { result ≡ [] }
    {
        Table {
            rows: IndexMap::new(alloc),
        }
    }

    /// How many names there are.
    pub fn len(&self) -> usize
        ensures { result ≡ length self.now }
    {
        self.rows.len()
    }

    /// What a name stands for in a group.
    pub fn held(&self, group: usize, name: &[u8]) -> Option<Meaning>
        ensures { result ≡ spec.held group name.now self.now }
    {
        match self.rows.get(&Key { group, name }) {
            None => None,
            Some(meaning) => Some(*meaning),
        }
    }

    /// Puts a name behind the others, if it is not there in its group. Tells what it stands for if
    /// it is there.
    pub fn put(
        &mut self,
        group: usize,
        name: &'t [u8],
        meaning: Meaning,
    ) -> Result<Option<Meaning>, AllocError>
        ensures taken { IfOk result (λ taken. taken ≡ spec.held group name.now self.old) }
        ensures value { OnOk result (self.new ≡ spec.with_entry self.old (spec.entry_of group name.now meaning)) }
        ensures unchanged { OnErr result (self.new ≡ self.old) }
    {
        match self.held(group, name) {
            Some(taken) => Ok(Some(taken)),
            None => {
                self.rows.insert(Key { group, name }, meaning)?;
                Ok(None)
            }
        }
    }
}
