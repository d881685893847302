ghost use Rattle.std.specs.Prelude.{◌≡◌, ◌++◌, ◌≤◌, vec_len, length, [], ◌∷◌, Some, ℕ, ◌+◌, List, take, map, IfOk, IfSome, OnOk, OnErr, string_bytes, option_map};
ghost use Rattle.lucy_io.specs.Inputs.{entry, entries_of, IsFetched};
ghost use Rattle.lucy_io.specs.InputsInMemory.{InputsInMemory, pair_of, input_of, Answers};
ghost use Rattle.lucy_io.specs.Noted.{noted_all};

use crate::noting::{Noted, note};
use crate::{Ending, FetchError, Inputs};
use std::alloc::Global;
use std::marker::Model;

/// Inputs in memory, of which chosen fetches fail.
#[derive(Drop)]
pub struct MemoryInputs {
    pairs: Vec<(String, Vec<u8>)>,
    failing: Vec<u64>,
    calls: u64,
    journal: Vec<Noted>,
}

impl Model for MemoryInputs {
    ghost Value = { InputsInMemory };

    ghost view = { λ m. record { pairs = map pair_of m.pairs.items; failing = m.failing.items; calls = m.calls; journal = noted_all m.journal.items } };
}

impl MemoryInputs {
    /// Inputs by name, of several pairs with one name the first. The fetches whose numbers, from 0, are in `failing`
    /// fail; a fetch that wanted memory is not counted.
    pub fn new(alloc: Global, pairs: Vec<(String, Vec<u8>)>, failing: Vec<u64>) -> MemoryInputs
        ensures { result ≡ record { pairs = map pair_of pairs.items; failing = failing.items; calls = 0; journal = [] } }
    {
        MemoryInputs {
            pairs,
            failing,
            calls: 0,
            journal: Vec::new(alloc),
        }
    }
}

// The first bytes, one more than the most.
fn front(bytes: &[u8], most: usize) -> &[u8]
    ensures front { result.now ≡ take (most + 1) bytes.now }
    ensures bound { length result.now ≤ most + 1 }
{
    if bytes.len() > most {
        &bytes[..most + 1]
    } else {
        bytes
    }
}

// What stands behind a name.
fn find<'a>(pairs: &'a [(String, Vec<u8>)], name: &str) -> Option<&'a [u8]>
    ensures { option_map (λ v. v.now) result ≡ input_of (map pair_of pairs.now) name.now }
{
    for pair in pairs {
        if pair.0.as_str() == name {
            return Some(pair.1.as_slice());
        }
    }
    None
}

impl Inputs for MemoryInputs {
    ghost told = { λ m. Some (input_of m.pairs) };

    ghost journal = { λ m. m.journal };

    fn fetch(
        &mut self,
        alloc: Global,
        name: &str,
        most: usize,
    ) -> Result<Option<Vec<u8>>, FetchError>
        ensures told { Some (input_of self.new.pairs) ≡ Some (input_of self.old.pairs) }
        ensures journal { self.new.journal ≡ self.old.journal ++ entries_of name.now result }
        ensures bound { IfOk result (λ given. IfSome given (λ bytes. vec_len bytes ≤ most + 1)) }
        ensures bytes { IfSome (Some (input_of self.old.pairs)) (λ t. IsFetched most (t name.now) result) }
        ensures pairs { self.new.pairs ≡ self.old.pairs }
        ensures failing { self.new.failing ≡ self.old.failing }
        ensures answers { Answers self.old self.new result }
    {
        if self.failing.contains(&self.calls) {
            note(alloc, &mut self.journal, name, Ending::Failed)?;
            self.calls = self.calls.saturating_add(1);
            return Err(FetchError::Failed);
        }
        match find(&self.pairs, name) {
            Some(bytes) => {
                let bytes = Vec::from_slice(alloc, front(bytes, most))?;
                note(alloc, &mut self.journal, name, Ending::Given)?;
                self.calls = self.calls.saturating_add(1);
                Ok(Some(bytes))
            }
            None => {
                note(alloc, &mut self.journal, name, Ending::Absent)?;
                self.calls = self.calls.saturating_add(1);
                Ok(None)
            }
        }
    }
}
