//! Atoms that the bounds settle.

use crate::bounds::TimesAtom;
use crate::engine::Engine;
use crate::numbers::place_of;
use crate::table::opposite;
use lucy_clauses::Range;
use std::alloc::{AllocError, Global};

impl Engine {
    fn note_form(&mut self, form: u32) -> Result<(), AllocError> {
        let Some(flat) = self.table.form(form) else {
            return Ok(());
        };
        for part in &flat.parts {
            if let Some(forms) = self.forms_of.get_mut(part.variable as usize) {
                forms.push(form)?;
            }
        }
        Ok(())
    }

    // Notes new forms at their variables.
    fn note_forms(&mut self) -> Result<(), AllocError> {
        for form in self.known_forms..self.table.count_of_forms() {
            self.note_form(place_of(form)?)?;
        }
        self.known_forms = self.table.count_of_forms();
        Ok(())
    }

    // Whether an atom is to be settled: it is not true, and a clause names its complement.
    fn is_sought(&self, atom: u32) -> bool {
        !self.store.is_true(atom) && self.store.is_named(opposite(atom))
    }

    // Whether an atom of a form is sought that holds at the form's greatest value.
    fn is_settled(&self, atom: u32, most: i128) -> bool {
        most <= self.table.bound(atom) && self.is_sought(atom)
    }

    // The lemma that the bounds imply an atom.
    fn settle(&mut self, alloc: Global, ranges: &[Range], number: u32) -> Result<bool, AllocError> {
        let Some(atom) = self.table.atom(number) else {
            return Ok(false);
        };
        let entries = self.bounds.above_all(alloc, &atom.parts)?;
        let one = [TimesAtom {
            by: 1,
            atom: opposite(number),
        }];
        self.lemma(alloc, ranges, one.as_slice(), entries.as_slice())
    }

    fn atom_of_form(&self, form: u32, place: usize) -> Option<u32> {
        match self.table.atoms_of(form) {
            Some(atoms) => atoms.get(place).copied(),
            None => None,
        }
    }

    fn greatest_of(&self, form: u32) -> i128 {
        match self.table.form(form) {
            Some(flat) => self.bounds.greatest(&flat.parts),
            None => i128::MAX,
        }
    }

    // The lemmas of the atoms of a form. Whether there is one.
    fn settle_form(
        &mut self,
        alloc: Global,
        ranges: &[Range],
        form: u32,
    ) -> Result<bool, AllocError> {
        let most = self.greatest_of(form);
        let mut found = false;
        for place in 0..usize::MAX {
            let Some(number) = self.atom_of_form(form, place) else {
                break;
            };
            if self.is_settled(number, most) && self.settle(alloc, ranges, number)? {
                found = true;
            }
        }
        Ok(found)
    }

    // The forms that name variables with new bounds, each once.
    fn changed_forms(&self, alloc: Global) -> Result<Vec<u32>, AllocError> {
        let mut all = Vec::new(alloc);
        for variable in self.bounds.changed.as_slice() {
            if let Some(forms) = self.forms_of.get(*variable as usize) {
                for form in forms {
                    all.push(*form)?;
                }
            }
        }
        all.sort()?;
        Ok(all)
    }

    // The lemmas of the atoms that new bounds settle. Whether there is one.
    pub(crate) fn settles(&mut self, alloc: Global, ranges: &[Range]) -> Result<bool, AllocError> {
        self.note_forms()?;
        let forms = self.changed_forms(alloc)?;
        self.bounds.changed.clear();
        let mut found = false;
        let mut last = u32::MAX;
        for form in forms.as_slice() {
            if *form != last && self.settle_form(alloc, ranges, *form)? {
                found = true;
            }
            last = *form;
        }
        Ok(found)
    }
}
