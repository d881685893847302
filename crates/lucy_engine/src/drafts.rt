//! Lemmas while they are written.

use crate::bounds::{Bounds, Cut, Entry, Row, Side, TimesAtom, TimesEntry, Why};
use crate::numbers::place_of;
use lucy_clauses::{Line, Ref, Times};
use sqlite_items::Items;
use std::alloc::{AllocError, Global};

// An entry and the reference to it.
#[derive(Clone, Copy, Debug, PartialEq, Eq)]
struct Named {
    entry: usize,
    of: Ref,
}

/// The true atoms that a lemma uses, and its lines.
#[derive(Debug, Drop)]
pub struct Draft {
    /// The atoms: the complement of each stands in the lemma's clause.
    pub used: Vec<u32>,
    /// The lines.
    pub lines: Vec<Line>,
    names: Vec<Named>,
}

// The entries that an entry is a sum of.
fn push_sources(entry: &Entry, all: &mut Vec<usize>) -> Result<(), AllocError> {
    match &entry.why {
        Why::Range => Ok(()),
        Why::Atom(_) => Ok(()),
        Why::Row(row) => push_entries_of(row.others.as_slice(), all),
        Why::Cut(cut) => push_entries_of(cut.entries.as_slice(), all),
    }
}

fn push_entries_of(times: &[TimesEntry], all: &mut Vec<usize>) -> Result<(), AllocError> {
    for one in times {
        all.push(one.entry)?;
    }
    Ok(())
}

// The next entry of those that wait, if it is new: it is put to the others, and what it is a sum of waits.
fn take_next(
    bounds: &Bounds,
    number: usize,
    waiting: &mut Vec<usize>,
    all: &mut Vec<usize>,
) -> Result<(), AllocError> {
    if all.contains(&number) {
        return Ok(());
    }
    all.push(number)?;
    match bounds.entries.get(number) {
        Some(entry) => push_sources(entry, waiting),
        None => Ok(()),
    }
}

// Entries and all that they are sums of, in ascending order.
fn needed(alloc: Global, bounds: &Bounds, times: &[TimesEntry]) -> Result<Vec<usize>, AllocError> {
    let mut waiting = Vec::new(alloc);
    push_entries_of(times, &mut waiting)?;
    let mut all = Vec::new(alloc);
    for _ in 0..u64::MAX {
        let Some(number) = waiting.pop() else {
            break;
        };
        take_next(bounds, number, &mut waiting, &mut all)?;
    }
    all.sort()?;
    Ok(all)
}

impl Draft {
    /// No atoms and no lines.
    pub fn new(alloc: Global) -> Draft {
        Draft {
            used: Vec::new(alloc),
            lines: Vec::new(alloc),
            names: Vec::new(alloc),
        }
    }

    // The place of an atom that is used.
    fn place(&self, atom: u32) -> Option<usize> {
        for (i, used) in self.used.iter().enumerate() {
            if *used == atom {
                return Some(i);
            }
        }
        None
    }

    // The reference to an atom.
    fn atom(&mut self, atom: u32) -> Result<Ref, AllocError> {
        if let Some(place) = self.place(atom) {
            return Ok(Ref::Negated(place_of(place)?));
        }
        let place = place_of(self.used.len())?;
        self.used.push(atom)?;
        Ok(Ref::Negated(place))
    }

    // The reference to an entry.
    fn name(&self, entry: usize) -> Ref {
        for named in self.names.as_slice() {
            if named.entry == entry {
                return named.of;
            }
        }
        Ref::Derived(u32::MAX)
    }

    fn put_atoms(&mut self, atoms: &[TimesAtom], times: &mut Vec<Times>) -> Result<(), AllocError> {
        for one in atoms {
            if 0 < one.by {
                let of = self.atom(one.atom)?;
                times.push(Times { by: one.by, of })?;
            }
        }
        Ok(())
    }

    fn put_entries(
        &self,
        entries: &[TimesEntry],
        times: &mut Vec<Times>,
    ) -> Result<(), AllocError> {
        for one in entries {
            if 0 < one.by {
                times.push(Times {
                    by: one.by,
                    of: self.name(one.entry),
                })?;
            }
        }
        Ok(())
    }

    /// A line: the sum of true atoms and entries.
    pub fn push_sum(
        &mut self,
        alloc: Global,
        atoms: &[TimesAtom],
        entries: &[TimesEntry],
    ) -> Result<(), AllocError> {
        let mut times = Vec::new(alloc);
        self.put_atoms(atoms, &mut times)?;
        self.put_entries(entries, &mut times)?;
        self.lines.push(Line::Sum(Items::from_vec(times)))?;
        Ok(())
    }

    // The reference to the last line.
    fn last_line(&self) -> Result<Ref, AllocError> {
        let place = place_of(self.lines.len())?;
        Ok(Ref::Derived(place.saturating_sub(1)))
    }

    // The last line divided by a number.
    fn divide(&mut self, by: i128) -> Result<Ref, AllocError> {
        let of = self.last_line()?;
        if by == 1 {
            return Ok(of);
        }
        self.lines.push(Line::Divide { by, of })?;
        self.last_line()
    }

    fn row(&mut self, alloc: Global, row: &Row) -> Result<Ref, AllocError> {
        let one = [TimesAtom {
            by: 1,
            atom: row.atom,
        }];
        self.push_sum(alloc, one.as_slice(), row.others.as_slice())?;
        self.divide(row.by)
    }

    fn cut(&mut self, alloc: Global, cut: &Cut) -> Result<Ref, AllocError> {
        self.push_sum(alloc, cut.atoms.as_slice(), cut.entries.as_slice())?;
        self.divide(cut.by)
    }

    fn reference(&mut self, alloc: Global, entry: &Entry) -> Result<Ref, AllocError> {
        match &entry.why {
            Why::Range => match entry.side {
                Side::Low => Ok(Ref::Low(entry.variable)),
                Side::High => Ok(Ref::High(entry.variable)),
            },
            Why::Atom(atom) => self.atom(*atom),
            Why::Row(row) => self.row(alloc, row),
            Why::Cut(cut) => self.cut(alloc, cut),
        }
    }

    fn put_name(
        &mut self,
        alloc: Global,
        bounds: &Bounds,
        number: usize,
    ) -> Result<(), AllocError> {
        if let Some(entry) = bounds.entries.get(number) {
            let of = self.reference(alloc, entry)?;
            self.names.push(Named { entry: number, of })?;
        }
        Ok(())
    }

    /// The lines of these entries and of all that they are sums of.
    pub fn put_needed(
        &mut self,
        alloc: Global,
        bounds: &Bounds,
        times: &[TimesEntry],
    ) -> Result<(), AllocError> {
        let all = needed(alloc, bounds, times)?;
        for number in all.as_slice() {
            self.put_name(alloc, bounds, *number)?;
        }
        Ok(())
    }
}
