//! The list of all records that were opened.
use crate::epochs::Epoch;
use std::alloc::{AllocError, Global};
use std::marker::Model;
use std::sync::Arc;

/// All records that were opened, the oldest first, each at the place of its number. Nothing is ever
/// taken out. Contracts see the records, and for how many more there is room.
#[derive(Drop)]
pub struct Table {
    list: Vec<Arc<Epoch>>,
}

impl Model for Table {
    ghost use Rattle.std.specs.Prelude.{map, ◌-◌, vec_len, vec_capacity};
    ghost use Rattle.std.specs.Arc.{arc_value};
    ghost use Rattle.lucy_epochs.specs.Lists.{Listed, listed_code, AreNumbered};

    ghost Value = { Listed };

    ghost coded = { listed_code };

    ghost view = { λ t. record { records = map arc_value t.list.items; spare = vec_capacity t.list - vec_len t.list } };

    ghost invariant = { λ t. AreNumbered (map arc_value t.list.items) };
}

ghost use Rattle.std.specs.Prelude.{◌≡◌, ◌≤◌, ◌++◌, ◌∷◌, [], map, length, Some, IfOk, OnOk};
ghost use Rattle.std.specs.Arc.{arc_value};
ghost use Rattle.lucy_epochs.specs.Lists.{AreNumbered, last_of};

impl Table {
    /// The table of the first record, which has the number 0.
    pub fn new(alloc: Global, first: Arc<Epoch>) -> Result<Table, AllocError>
        requires { (arc_value first).number ≡ 0 }
        ensures { IfOk result (λ t. t.records ≡ arc_value first ∷ []) }
    {
        let mut list = Vec::new(alloc);
        list.push(first)?;
        Ok(Table { list })
    }

    /// The record that was opened last.
    pub fn last(&self) -> &Arc<Epoch>
        ensures { last_of self.now.records ≡ Some (arc_value result.now) }
    {
        &self.list[self.list.len() - 1]
    }

    /// Makes room for one record more. The records stay as they are, with want of memory too.
    pub fn reserve(&mut self) -> Result<(), AllocError>
        ensures records { self.new.records ≡ self.old.records }
        ensures ok { OnOk result (1 ≤ self.new.spare) }
    {
        self.list.reserve(1)
    }

    /// Adds the next record, for which room was reserved. Its number is one more than that of the last.
    pub fn push(&mut self, epoch: Arc<Epoch>)
        requires room { 1 ≤ self.old.spare }
        requires number { (arc_value epoch).number ≡ length self.old.records }
        ensures { self.new.records ≡ self.old.records ++ arc_value epoch ∷ [] }
    {
        self.list.push_reserved(epoch);
    }

    /// The records, each at the place of its number.
    pub fn list(&self) -> &[Arc<Epoch>]
        ensures records { map arc_value result.now ≡ self.now.records }
        ensures numbered { AreNumbered self.now.records }
    {
        self.list.as_slice()
    }
}
