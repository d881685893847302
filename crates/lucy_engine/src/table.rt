//! Atoms and their forms by numbers.

use lucy_atoms::AtomTable;
use lucy_clauses::{Atom, Part};
use std::alloc::{AllocError, Global};

/// Atoms by numbers: behind each atom, at an even number, stands its complement. The same holds of forms, which are the
/// parts of atoms: behind each one stands the one with the opposite factors.
#[derive(Drop)]
pub struct Table {
    atoms: AtomTable,
    // Forms, as atoms with the bound 0.
    forms: AtomTable,
    form_of: Vec<u32>,
    of_form: Vec<Vec<u32>>,
}

/// The number of the complement.
pub fn opposite(atom: u32) -> u32 {
    atom ^ 1
}

impl Table {
    /// No atoms.
    pub fn new(alloc: Global) -> Table {
        Table {
            atoms: AtomTable::new(alloc),
            forms: AtomTable::new(alloc),
            form_of: Vec::new(alloc),
            of_form: Vec::new(alloc),
        }
    }

    /// How many atoms there are.
    pub fn count(&self) -> usize {
        self.form_of.len()
    }

    /// How many forms there are.
    pub fn count_of_forms(&self) -> usize {
        self.of_form.len()
    }

    /// The atom of a number.
    pub fn atom(&self, number: u32) -> Option<&Atom> {
        self.atoms.get(number)
    }

    /// The bound of an atom.
    pub fn bound(&self, number: u32) -> i128 {
        match self.atoms.get(number) {
            Some(atom) => atom.bound,
            None => 0,
        }
    }

    /// The parts of a form.
    pub fn form(&self, number: u32) -> Option<&Atom> {
        self.forms.get(number)
    }

    /// The atoms of a form.
    pub fn atoms_of(&self, form: u32) -> Option<&Vec<u32>> {
        self.of_form.get(form as usize)
    }

    // The number of the form of an atom, which is put in with its opposite where it is not there.
    fn form_number(&mut self, alloc: Global, atom: &Atom) -> Result<u32, AllocError> {
        let mut flat = atom.copied(alloc)?;
        flat.bound = 0;
        if let Some(number) = self.forms.find(&flat) {
            return Ok(number);
        }
        let (number, _) = self.forms.insert(alloc, &flat)?;
        flat.complement();
        flat.bound = 0;
        let _ = self.forms.insert(alloc, &flat)?;
        self.of_form.push(Vec::new(alloc))?;
        self.of_form.push(Vec::new(alloc))?;
        Ok(number)
    }

    fn put_to_form(&mut self, form: u32, number: u32) -> Result<(), AllocError> {
        if let Some(atoms) = self.of_form.get_mut(form as usize) {
            atoms.push(number)?;
        }
        Ok(())
    }

    fn added(&mut self, alloc: Global, atom: &Atom) -> Result<u32, AllocError> {
        let form = self.form_number(alloc, atom)?;
        let (number, _) = self.atoms.insert(alloc, atom)?;
        self.form_of.push(form)?;
        self.put_to_form(form, number)?;
        Ok(number)
    }

    /// The number of an atom, which is put in with its complement where it is not there.
    pub fn number_of(&mut self, alloc: Global, atom: &Atom) -> Result<u32, AllocError> {
        if let Some(number) = self.atoms.find(atom) {
            return Ok(number);
        }
        let number = self.added(alloc, atom)?;
        let mut other = atom.copied(alloc)?;
        other.complement();
        let _ = self.added(alloc, &other)?;
        Ok(number)
    }

    /// The form of the difference of two variables, where it is there.
    pub fn difference(
        &self,
        alloc: Global,
        high: u32,
        low: u32,
    ) -> Result<Option<u32>, AllocError> {
        let mut parts = Vec::new(alloc);
        let one = Part {
            variable: high,
            by: 1,
        };
        let other = Part {
            variable: low,
            by: -1,
        };
        if high < low {
            parts.push(one)?;
            parts.push(other)?;
        } else {
            parts.push(other)?;
            parts.push(one)?;
        }
        match Atom::from_parts(parts, 0) {
            Some(flat) => Ok(self.forms.find(&flat)),
            None => Ok(None),
        }
    }
}
