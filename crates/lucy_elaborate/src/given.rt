//! Places that were given.

ghost use Rattle.std.specs.Prelude.{◌≡◌, [], not, IfOk, OnOk, OnErr};
ghost use Rattle.lucy_elaborate.specs.Starts as spec;

use indexmap::IndexSet;
use std::alloc::{AllocError, Global};
use std::marker::Model;

/// Places that differ, in the order in which they came. Contracts see their list.
#[derive(Drop)]
pub struct Given {
    places: IndexSet<usize>,
}

impl Model for Given {
    ghost use Rattle.std.specs.Prelude.{List, ℕ};

    ghost Value = { List ℕ };

    ghost view = { λ g. g.places.keys };
}

impl Given {
    /// No places.
    pub fn new(alloc: Global) -> Given
        ensures { result ≡ [] }
    {
        Given {
            places: IndexSet::new(alloc),
        }
    }

    /// Puts a place behind the others, if it is not there. Tells whether it was put.
    pub fn put(&mut self, place: usize) -> Result<bool, AllocError>
        ensures new { IfOk result (λ put. put ≡ not (spec.is_in place self.old)) }
        ensures value { OnOk result (self.new ≡ spec.with_place self.old place) }
        ensures unchanged { OnErr result (self.new ≡ self.old) }
    {
        let put = self.places.insert(place)?;
        Ok(put)
    }
}
