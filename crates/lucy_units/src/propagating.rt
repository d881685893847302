//! What follows from the true atoms.

ghost use Rattle.std.specs.Prelude.{◌≡◌, IfOk, OnOk, OnErr};
ghost use Rattle.lucy_units.specs.Propagations.{Finds, Grows, Passes};

use crate::store::Store;
use sqlite_items::Items;
use std::alloc::{AllocError, Global};

/// What a propagation comes to.
#[derive(Debug, Drop)]
pub enum Found {
    /// Numbers of clauses that lead from the assumed atoms to a clause all of whose atoms are false.
    Conflict(Items<u64>),
    /// No clause is empty or unit.
    Quiet,
}

/// What a look at a clause comes to.
#[derive(Clone, Copy, Debug, PartialEq, Eq)]
pub enum Look {
    /// All its atoms are false.
    Conflict,
    /// Its last atom is true now.
    Changed,
    /// It is neither empty nor unit.
    Settled,
}

// The store after looks at all clauses.
#[derive(Clone, Copy, Debug, PartialEq, Eq)]
pub(crate) enum Pass {
    // This clause is empty.
    Conflict(usize),
    // Atoms became true.
    Changed,
    // Each clause is neither empty nor unit.
    Quiet,
}

impl Store {
    // Looks at each clause once.
    fn pass(&mut self, alloc: Global) -> Result<Pass, AllocError>
        ensures passes { IfOk result (λ pass. Passes self.old self.new pass) }
        ensures grows { OnErr result (Grows self.old self.new) }
    {
        let mut changed = false;
        for number in 0..self.count() {
            match self.look(alloc, number)? {
                Look::Conflict => return Ok(Pass::Conflict(number)),
                Look::Changed => changed = true,
                Look::Settled => {}
            }
        }
        if changed {
            Ok(Pass::Changed)
        } else {
            Ok(Pass::Quiet)
        }
    }

    /// Makes the last atoms of unit clauses true, until a clause is empty, or no clause is empty or unit.
    pub fn propagate(&mut self, alloc: Global) -> Result<Found, AllocError>
        ensures grows { OnOk result (Grows self.old self.new) }
        ensures found { IfOk result (λ found. Finds self.new found) }
        ensures memory { OnErr result (self.new ≡ self.old) }
    {
        self.facts();
        let mark = self.mark();
        match self.propagated(alloc) {
            Ok(found) => Ok(found),
            Err(error) => {
                self.undo(mark);
                Err(error)
            }
        }
    }

    // The same; after want of memory some of these atoms are true.
    fn propagated(&mut self, alloc: Global) -> Result<Found, AllocError>
        ensures grows { Grows self.old self.new }
        ensures found { IfOk result (λ found. Finds self.new found) }
    {
        for _ in 0..u64::MAX {
            match self.pass(alloc)? {
                Pass::Conflict(number) => return Ok(Found::Conflict(self.hints(alloc, number)?)),
                Pass::Quiet => return Ok(Found::Quiet),
                Pass::Changed => {}
            }
        }
        Err(AllocError)
    }
}
