//! Clauses over numbers of atoms, and the atoms that are true.

use crate::numbers::{next, place_of};
use crate::table::opposite;
use lucy_cert::ProofStep;
use std::alloc::{AllocError, Global};
use std::mem;

/// Where a clause of the store stands in the proof.
#[derive(Debug, Drop)]
pub enum Place {
    /// It is the clause of this number.
    Number(u64),
    /// This step is to add it.
    Waiting(ProofStep),
}

/// A clause of the store.
#[derive(Debug, Drop)]
pub struct Stored {
    /// The numbers of its atoms.
    pub atoms: Vec<u32>,
    /// Where it stands in the proof.
    pub place: Place,
}

/// Whether an atom is true, and why.
#[derive(Clone, Copy, Debug, PartialEq, Eq)]
pub enum Truth {
    /// It is not true.
    Not,
    /// It was assumed.
    Assumed,
    /// It is the last atom of this clause that is not false.
    By(u32),
}

#[derive(Clone, Copy, Debug, PartialEq, Eq)]
enum State {
    Empty,
    Unit(u32),
    Settled,
}

/// Clauses and true atoms.
#[derive(Debug, Drop)]
pub struct Store {
    /// The clauses.
    pub clauses: Vec<Stored>,
    /// The true atoms, in the order in which they became true.
    pub trues: Vec<u32>,
    // Of each atom whether it is true.
    truths: Vec<Truth>,
    // Of each atom the clauses that name it.
    occurs: Vec<Vec<u32>>,
    // Clauses that may be unit at a lower mark.
    fresh: Vec<u32>,
    // How many true atoms were followed.
    taken: usize,
}

impl Store {
    /// No clauses.
    pub fn new(alloc: Global) -> Store {
        Store {
            clauses: Vec::new(alloc),
            trues: Vec::new(alloc),
            truths: Vec::new(alloc),
            occurs: Vec::new(alloc),
            fresh: Vec::new(alloc),
            taken: 0,
        }
    }

    /// Makes room for so many atoms.
    pub fn grow(&mut self, alloc: Global, count: usize) -> Result<(), AllocError> {
        for _ in self.truths.len()..count {
            self.truths.push(Truth::Not)?;
            self.occurs.push(Vec::new(alloc))?;
        }
        Ok(())
    }

    /// Whether an atom is true, and why.
    pub fn truth(&self, atom: u32) -> Truth {
        match self.truths.get(atom as usize) {
            Some(truth) => *truth,
            None => Truth::Not,
        }
    }

    /// Whether an atom is true.
    pub fn is_true(&self, atom: u32) -> bool {
        match self.truth(atom) {
            Truth::Not => false,
            Truth::Assumed => true,
            Truth::By(_) => true,
        }
    }

    /// Whether an atom was assumed.
    pub fn is_assumed(&self, atom: u32) -> bool {
        match self.truth(atom) {
            Truth::Assumed => true,
            Truth::Not => false,
            Truth::By(_) => false,
        }
    }

    /// Whether an atom is false.
    pub fn is_false(&self, atom: u32) -> bool {
        self.is_true(opposite(atom))
    }

    /// Whether a clause names the atom.
    pub fn is_named(&self, atom: u32) -> bool {
        match self.occurs.get(atom as usize) {
            Some(clauses) => !clauses.is_empty(),
            None => false,
        }
    }

    fn put_occurrence(&mut self, atom: u32, number: u32) -> Result<(), AllocError> {
        if let Some(clauses) = self.occurs.get_mut(atom as usize) {
            clauses.push(number)?;
        }
        Ok(())
    }

    /// Adds a clause.
    pub fn add(&mut self, atoms: Vec<u32>, place: Place) -> Result<(), AllocError> {
        let number = place_of(self.clauses.len())?;
        for atom in atoms.as_slice() {
            self.put_occurrence(*atom, number)?;
        }
        self.clauses.push(Stored { atoms, place })?;
        self.fresh.push(number)?;
        Ok(())
    }

    /// No clause that is there can be unit at a lower mark.
    pub fn settle(&mut self) {
        self.fresh.clear();
    }

    fn set(&mut self, atom: u32, truth: Truth) {
        if let Some(old) = self.truths.get_mut(atom as usize) {
            *old = truth;
        }
    }

    fn make(&mut self, atom: u32, truth: Truth) -> Result<(), AllocError> {
        self.trues.push(atom)?;
        self.set(atom, truth);
        Ok(())
    }

    /// Makes an atom true by assumption.
    pub fn assume(&mut self, atom: u32) -> Result<(), AllocError> {
        self.make(atom, Truth::Assumed)
    }

    /// Keeps the first true atoms.
    pub fn undo(&mut self, mark: usize) {
        for _ in mark..self.trues.len() {
            if let Some(atom) = self.trues.pop() {
                self.set(atom, Truth::Not);
            }
        }
        self.taken = self.taken.min(mark);
    }

    // What a clause is under the true atoms.
    fn state(&self, number: u32) -> State {
        let Some(clause) = self.clauses.get(number as usize) else {
            return State::Settled;
        };
        let mut left = None;
        for atom in clause.atoms.as_slice() {
            if self.is_true(*atom) {
                return State::Settled;
            }
            if !self.is_false(*atom) {
                if left.is_some() {
                    return State::Settled;
                }
                left = Some(*atom);
            }
        }
        match left {
            None => State::Empty,
            Some(atom) => State::Unit(atom),
        }
    }

    // Makes the last atom of a unit clause true. Whether the clause is empty.
    fn look_at(&mut self, number: u32) -> Result<bool, AllocError> {
        match self.state(number) {
            State::Settled => Ok(false),
            State::Empty => Ok(true),
            State::Unit(atom) => {
                self.make(atom, Truth::By(number))?;
                Ok(false)
            }
        }
    }

    // An empty clause among the fresh ones.
    fn look_at_fresh(&mut self) -> Result<Option<u32>, AllocError> {
        for i in 0..self.fresh.len() {
            let Some(number) = self.fresh.get(i).copied() else {
                break;
            };
            if self.look_at(number)? {
                return Ok(Some(number));
            }
        }
        Ok(None)
    }

    fn occurrences(&self, atom: u32) -> usize {
        match self.occurs.get(atom as usize) {
            Some(clauses) => clauses.len(),
            None => 0,
        }
    }

    fn occurrence(&self, atom: u32, place: usize) -> Option<u32> {
        match self.occurs.get(atom as usize) {
            Some(clauses) => clauses.get(place).copied(),
            None => None,
        }
    }

    // An empty clause among those that name an atom.
    fn look_at_naming(&mut self, atom: u32) -> Result<Option<u32>, AllocError> {
        for i in 0..self.occurrences(atom) {
            let Some(number) = self.occurrence(atom, i) else {
                break;
            };
            if self.look_at(number)? {
                return Ok(Some(number));
            }
        }
        Ok(None)
    }

    /// Makes the last atoms of unit clauses true. A clause all of whose atoms are false, where there is one.
    pub fn propagate(&mut self) -> Result<Option<u32>, AllocError> {
        if let Some(number) = self.look_at_fresh()? {
            return Ok(Some(number));
        }
        for _ in 0..u64::MAX {
            let Some(atom) = self.trues.get(self.taken).copied() else {
                break;
            };
            self.taken = next(self.taken);
            if let Some(number) = self.look_at_naming(opposite(atom))? {
                return Ok(Some(number));
            }
        }
        Ok(None)
    }

    /// The number of a clause in the proof, with its step behind the others where it waits.
    pub fn number_of(
        &mut self,
        clause: u32,
        following: u64,
        steps: &mut Vec<ProofStep>,
    ) -> Result<u64, AllocError> {
        let Some(stored) = self.clauses.get_mut(clause as usize) else {
            return Err(AllocError);
        };
        let number = following.saturating_add(steps.len() as u64);
        match mem::replace(&mut stored.place, Place::Number(number)) {
            Place::Number(old) => {
                stored.place = Place::Number(old);
                Ok(old)
            }
            Place::Waiting(step) => {
                steps.push(step)?;
                Ok(number)
            }
        }
    }

    /// The atoms of a clause.
    pub fn atoms(&self, number: u32) -> Option<&Vec<u32>> {
        match self.clauses.get(number as usize) {
            Some(clause) => Some(&clause.atoms),
            None => None,
        }
    }
}
