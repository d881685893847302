//! A table of names.

ghost use Rattle.std.specs.Prelude.{◌≡◌, ◌<◌, [], IsTrue, not, length, IfOk, OnOk, OnErr};
ghost use Rattle.lucy_names.specs.Tables as tables;

use indexmap::IndexSet;
use std::alloc::{AllocError, Global};
use std::marker::Model;

/// Names that differ, in the order in which they came, fewer than 2^32. Contracts see a list of
/// lists of bytes.
#[derive(Drop)]
pub struct NameTable {
    texts: IndexSet<String>,
}

impl Model for NameTable {
    ghost use Rattle.std.specs.Prelude.{List, ℕ, ◌<◌, ◌^◌, IsTrue, map, length};
    ghost use Rattle.std.specs.String.{string_bytes};
    ghost use Rattle.lucy_names.specs.Tables.{differ};

    ghost Value = { List (List ℕ) };

    ghost view = { λ t. map string_bytes t.texts.keys };

    ghost invariant = { λ t. IsTrue (differ (map string_bytes t.texts.keys)) × (length t.texts.keys < 2 ^ 32) };
}

impl NameTable {
    /// No names.
    pub fn new(alloc: Global) -> NameTable
        ensures { result ≡ [] }
    {
        NameTable {
            texts: IndexSet::new(alloc),
        }
    }

    /// The names differ.
    pub fn facts(&self)
        ensures { IsTrue (tables.differ self.now) }
    {
        let _texts = &self.texts;
    }

    /// The place of this name. `None` exactly where it is not there.
    pub fn find(&self, name: &str) -> Option<u32>
        ensures { result ≡ tables.place_of self.now name.now }
    {
        match self.texts.get_index_of(name) {
            None => None,
            Some(place) => Some(place as u32),
        }
    }

    /// The place of the name with these bytes. `None` exactly where it is not there.
    pub fn find_bytes(&self, name: &[u8]) -> Option<u32>
        ensures { result ≡ tables.place_of self.now name.now }
    {
        let texts = &self.texts;
        let Ok(text) = str::from_utf8(name) else {
            return None;
        };
        match texts.get_index_of(text) {
            None => None,
            Some(place) => Some(place as u32),
        }
    }

    /// The name at a place.
    pub fn name_at(&self, place: u32) -> &str
        requires { place < length self.now }
        ensures { result.now ≡ tables.name_at self.now place }
    {
        match self.texts.get_index(place as usize) {
            None => "",
            Some(text) => text.as_str(),
        }
    }

    /// Puts a name behind the others, if it is not there. Tells whether it was put.
    pub fn add(&mut self, alloc: Global, name: &str) -> Result<bool, AllocError>
        ensures new { IfOk result (λ put. put ≡ not (tables.is_among self.old name.now)) }
        ensures value { OnOk result (self.new ≡ tables.with_name self.old name.now) }
        ensures unchanged { OnErr result (self.new ≡ self.old) }
    {
        if self.texts.len() >= u32::MAX as usize {
            return Err(AllocError);
        }
        let text = String::from_str(alloc, name)?;
        let put = self.texts.insert(text)?;
        Ok(put)
    }
}
