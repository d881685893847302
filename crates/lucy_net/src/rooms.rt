//! What waits in one mailbox.
ghost use Rattle.std.specs.Prelude.{◌≡◌, ◌≤◌, [], length, slice_get, remove, Some, IfOk, MatchOption};
ghost use Rattle.lucy_net.specs.Draws.{drawn};
ghost use Rattle.lucy_net.specs.Rooms.{with_item};

use crate::draws::Chaos;
use std::alloc::{AllocError, Global};
use std::marker::Model;

// The most items that wait.
const MOST: usize = 64;

/// What waits in one mailbox: at most 64 items, the first to come first. Contracts see the list of
/// the items. The memory for all of them is taken when the room is made.
#[derive(Drop)]
pub struct Room<T> {
    items: Vec<T>,
}

impl<T> Model for Room<T> {
    ghost use Rattle.std.specs.Prelude.{◌≤◌, List, vec_len, vec_capacity};
    ghost use Rattle.std.specs.Coded.{coded_list};

    ghost Value = { List T };

    ghost coded = { coded_list T.code };

    ghost view = { λ r. r.items.items };

    ghost invariant = { λ r. (vec_len r.items ≤ 64) × (64 ≤ vec_capacity r.items) };
}

impl<T> Room<T> {
    /// A room in which nothing waits.
    pub fn new(alloc: Global) -> Result<Room<T>, AllocError>
        ensures { IfOk result (λ room. room ≡ []) }
    {
        let items = Vec::with_capacity(alloc, MOST)?;
        Ok(Room { items })
    }

    /// At most 64 items wait.
    pub fn facts(&self)
        ensures { length self.now ≤ 64 }
    {
        let _items = &self.items;
    }

    /// Puts the item behind the others. Where 64 wait, the first is dropped before. Takes no memory.
    pub fn put(&mut self, item: T)
    where
        T: Drop,
        ensures { self.new ≡ with_item item self.old }
    {
        if self.items.len() == MOST {
            drop(self.items.remove(0));
        }
        self.items.push_reserved(item);
    }

    /// Takes out the item at the place that is drawn, and the others keep their order. Where
    /// nothing waits, the answer is `None`, and nothing is drawn. Takes no memory.
    pub fn pull(&mut self, chaos: &mut Chaos) -> Option<T>
        ensures { MatchOption result
            ((self.old ≡ []) × (self.new ≡ []) × (chaos.new ≡ chaos.old))
            (λ item. let draw = drawn (length self.old) chaos.old in
            (slice_get self.old draw.0 ≡ Some item) × (self.new ≡ remove self.old draw.0) × (chaos.new ≡ draw.1)) }
    {
        if self.items.is_empty() {
            return None;
        }
        let place = chaos.draw(self.items.len() as u32);
        Some(self.items.remove(place as usize))
    }
}
