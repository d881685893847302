//! The clauses that steps added and that are not dropped.
ghost use Rattle.std.specs.Prelude.{◌≡◌, ◌<◌, ◌+◌, [], length, slice_index, true, false, IfOk, MatchOption};
ghost use Rattle.std.specs.Option.{option_copied};
ghost use Rattle.lucy_cert.specs.Numbers.{contains};
ghost use Rattle.lucy_checker.specs.Held.{named, kept_with, kept_without, ascends};

use lucy_clauses::Clause;
use sqlite_items::Items;
use std::alloc::{AllocError, Global};
use std::marker::Model;

/// Clauses with their numbers, in the order in which they were added. A clause that is dropped is let go of.
#[derive(Debug, Drop)]
pub struct Held {
    next: u64,
    numbers: Items<u64>,
    clauses: Items<Clause>,
}

impl Model for Held {
    ghost use Rattle.lucy_checker.specs.Held.{Kept, IsKept};

    ghost Value = { Kept };

    ghost view = { λ h. record { next = h.next; numbers = h.numbers; clauses = h.clauses } };

    ghost invariant = { λ h. IsKept h.next h.numbers h.clauses };
}

// The place of a number among numbers that ascend.
fn place(numbers: &[u64], number: u64) -> Option<usize>
    requires { ascends numbers.now ≡ true }
    ensures { MatchOption result (contains number numbers.now ≡ false) (λ i. (i < length numbers.now) × (slice_index numbers.now i ≡ number)) }
{
    match numbers.binary_search(&number) {
        Ok(place) => Some(place),
        Err(_) => None,
    }
}

impl Held {
    /// No clause. The next one gets this number.
    pub fn new(alloc: Global, next: u64) -> Held
        ensures { result ≡ record { next = next; numbers = []; clauses = [] } }
    {
        Held {
            next,
            numbers: Items::new(alloc),
            clauses: Items::new(alloc),
        }
    }

    /// The clause of a number.
    pub fn get(&self, number: u64) -> Option<&Clause>
        ensures { option_copied result ≡ named self.now.numbers self.now.clauses number }
    {
        match place(self.numbers.as_slice(), number) {
            Some(place) => self.clauses.get(place),
            None => None,
        }
    }

    /// Whether a clause has this number.
    pub fn contains(&self, number: u64) -> bool
        ensures { result ≡ contains number self.now.numbers }
    {
        match place(self.numbers.as_slice(), number) {
            Some(_) => true,
            None => false,
        }
    }

    /// With one clause more.
    pub fn with(self, clause: Clause) -> Result<Held, AllocError>
        ensures { IfOk result (λ held. held ≡ kept_with self clause) }
    {
        let Held {
            next,
            mut numbers,
            mut clauses,
        } = self;
        let Some(after) = next.checked_add(1) else {
            return Err(AllocError);
        };
        numbers.push(next)?;
        clauses.push(clause)?;
        Ok(Held {
            next: after,
            numbers,
            clauses,
        })
    }

    /// Without the clause of a number, which is let go of.
    pub fn without(self, number: u64) -> Held
        ensures { result ≡ kept_without self number }
    {
        let Held {
            next,
            mut numbers,
            mut clauses,
        } = self;
        if let Some(place) = place(numbers.as_slice(), number) {
            let _number = numbers.remove(place);
            let _clause = clauses.remove(place);
        }
        Held {
            next,
            numbers,
            clauses,
        }
    }

    /// Without any clause. The number of the next one stays.
    pub fn emptied(self, alloc: Global) -> Held
        ensures { result ≡ record { next = self.next; numbers = []; clauses = [] } }
    {
        let Held {
            next,
            numbers: _,
            clauses: _,
        } = self;
        Held::new(alloc, next)
    }

    /// The clauses.
    pub fn clauses(&self) -> &[Clause]
        ensures { result.now ≡ self.now.clauses }
    {
        self.clauses.as_slice()
    }
}
