//! A table of atoms.

ghost use Rattle.std.specs.Prelude.{◌≡◌, ◌<◌, ◌^◌, ◌++◌, ◌∷◌, [], true, false, IfOk, IfSome, OnOk, OnErr, Some, not, length, slice_get, option_copied};
ghost use Rattle.lucy_clauses.specs.Sums.{complement};
ghost use Rattle.lucy_atoms.specs.Tables as tables;

use indexmap::IndexSet;
use lucy_clauses::Atom;
use std::alloc::{AllocError, Global};
use std::marker::Model;

/// Atoms that differ, in the order in which they were first put, fewer than 2^32. An atom's number is its place. Contracts
/// see the list of the atoms.
#[derive(Drop)]
pub struct AtomTable {
    atoms: IndexSet<Atom>,
    complements: Vec<Option<u32>>,
}

impl Model for AtomTable {
    ghost use Rattle.std.specs.Prelude.{List};
    ghost use Rattle.lucy_clauses.specs.Sums.{Form};
    ghost use Rattle.lucy_atoms.specs.Tables.{IsTable};

    ghost Value = { List Form };

    ghost view = { λ t. t.atoms.keys };

    ghost invariant = { λ t. IsTable t.atoms.keys t.complements.items };
}

// Writes a number at a place, if there is one.
fn mark(complements: &mut Vec<Option<u32>>, place: Option<u32>, number: u32)
    requires { IfSome place (λ i. i < length complements.old.items) }
    ensures { complements.new.items ≡ tables.marked place number complements.old.items }
{
    if let Some(place) = place {
        complements[place as usize] = Some(number);
    }
}

impl AtomTable {
    /// No atoms. Takes no memory.
    pub fn new(alloc: Global) -> AtomTable
        ensures { result ≡ [] }
    {
        AtomTable {
            atoms: IndexSet::new(alloc),
            complements: Vec::new(alloc),
        }
    }

    /// The atoms differ, and there are fewer than 2^32.
    pub fn facts(&self)
        ensures differ { tables.differ self.now ≡ true }
        ensures few { length self.now < 2 ^ 32 }
    {
        let _atoms = &self.atoms;
    }

    /// How many atoms there are.
    pub fn len(&self) -> usize
        ensures { result ≡ length self.now }
    {
        self.atoms.len()
    }

    /// The number of this atom. `None` exactly where it is not there. Takes no memory, and constant time but for the
    /// atom's own length, as far as hashes differ.
    pub fn find(&self, atom: &Atom) -> Option<u32>
        ensures { result ≡ tables.place_of self.now atom.now }
    {
        match self.atoms.get_index_of(atom) {
            None => None,
            Some(place) => Some(place as u32),
        }
    }

    /// The number of the complement of the atom with this number. `None` exactly where the complement is not there.
    /// Takes no memory, and constant time.
    pub fn find_complement(&self, number: u32) -> Option<u32>
        requires { number < length self.now }
        ensures { result ≡ tables.complement_of self.now (tables.atom_at self.now number) }
    {
        self.complements[number as usize]
    }

    /// The atom with this number. `None` exactly where there is none.
    pub fn get(&self, number: u32) -> Option<&Atom>
        ensures { option_copied result ≡ slice_get self.now number }
    {
        self.atoms.get_index(number as usize)
    }

    // The number of the complement of an atom.
    fn number_of_complement(&self, alloc: Global, atom: &Atom) -> Result<Option<u32>, AllocError>
        ensures { IfOk result (λ number. number ≡ tables.complement_of self.now atom.now) }
    {
        let mut opposite = atom.copied(alloc)?;
        opposite.complement();
        Ok(self.find(&opposite))
    }

    // Puts an atom that is not there behind the others, and gives its number.
    fn add(&mut self, alloc: Global, atom: &Atom) -> Result<u32, AllocError>
        requires { tables.is_among self.old atom.now ≡ false }
        ensures number { IfOk result (λ number. number ≡ length self.old) }
        ensures value { OnOk result (self.new ≡ self.old ++ atom.now ∷ []) }
        ensures unchanged { OnErr result (self.new ≡ self.old) }
    {
        let number = self.atoms.len();
        if number >= u32::MAX as usize {
            return Err(AllocError);
        }
        let copy = atom.copied(alloc)?;
        let complement = self.number_of_complement(alloc, atom)?;
        self.complements.push(complement)?;
        match self.atoms.insert(copy) {
            Err(_) => {
                let _ = self.complements.pop();
                Err(AllocError)
            }
            Ok(_) => {
                mark(&mut self.complements, complement, number as u32);
                Ok(number as u32)
            }
        }
    }

    /// The number of an atom, which is put behind the others if it is not there, and whether it was put. Want of memory
    /// is told also where there are 2^32 - 1 atoms already.
    pub fn insert(&mut self, alloc: Global, atom: &Atom) -> Result<(u32, bool), AllocError>
        ensures number { IfOk result (λ put. tables.place_of self.new atom.now ≡ Some put.0) }
        ensures new { IfOk result (λ put. put.1 ≡ not (tables.is_among self.old atom.now)) }
        ensures value { OnOk result (self.new ≡ tables.with_atom self.old atom.now) }
        ensures unchanged { OnErr result (self.new ≡ self.old) }
    {
        match self.find(atom) {
            Some(number) => Ok((number, false)),
            None => {
                let number = self.add(alloc, atom)?;
                Ok((number, true))
            }
        }
    }
}
