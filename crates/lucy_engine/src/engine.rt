//! The engine.

use crate::answers::Answer;
use crate::bounds::{Bounds, TimesAtom, TimesEntry};
use crate::differences::Net;
use crate::drafts::Draft;
use crate::store::{Place, Store};
use crate::table::{Table, opposite};
use lucy_cert::ProofStep;
use lucy_clauses::{Atom, Clause, Formula, Line, Range};
use lucy_cuts::unjustified_line;
use sqlite_items::Items;
use std::alloc::{AllocError, Global};

// How many times a look begins again, at most.
const MOST_ROUNDS: u32 = 1_000_000;

/// How much an engine held at a time.
#[derive(Clone, Copy, Debug, PartialEq, Eq)]
pub struct Mark {
    trues: usize,
    entries: usize,
    edges: usize,
}

/// What the search asks: clauses, the atoms that are true under the decisions, and what follows from them.
#[derive(Drop)]
pub struct Engine {
    pub(crate) table: Table,
    pub(crate) store: Store,
    pub(crate) bounds: Bounds,
    // Of each variable the true atoms of two parts or more that name it.
    pub(crate) rows_of: Vec<Vec<u32>>,
    // How many true atoms the bounds have taken in.
    pub(crate) seen: usize,
    // Of each variable the forms that name it, and how many forms were put there.
    pub(crate) forms_of: Vec<Vec<u32>>,
    pub(crate) known_forms: usize,
    pub(crate) net: Net,
    // How many clauses the formula has.
    pub(crate) given: usize,
    // How many rounds of cuts were in vain.
    pub(crate) vain: usize,
    looks: u64,
    spoiled: Option<u64>,
}

impl Engine {
    // An engine without clauses and variables.
    pub(crate) fn empty(alloc: Global) -> Engine {
        Engine {
            table: Table::new(alloc),
            store: Store::new(alloc),
            bounds: Bounds::new(alloc),
            rows_of: Vec::new(alloc),
            seen: 0,
            forms_of: Vec::new(alloc),
            known_forms: 0,
            net: Net::new(alloc),
            given: 0,
            vain: 0,
            looks: 0,
            spoiled: None,
        }
    }

    /// How many looks there were.
    pub fn looks(&self) -> u64 {
        self.looks
    }

    /// Makes each look stuck one time in three, at random by a seed: for tests of what does not rest on the engine.
    pub fn spoil(&mut self, seed: u64) {
        self.spoiled = Some(seed);
    }

    // Whether this look is spoiled.
    fn is_spoiled(&mut self) -> bool {
        let Some(seed) = self.spoiled else {
            return false;
        };
        let turned = seed
            .wrapping_mul(6_364_136_223_846_793_005)
            .wrapping_add(1_442_695_040_888_963_407);
        self.spoiled = Some(turned);
        turned / 65_536 % 3 == 0
    }

    /// What is true now.
    pub fn mark(&self) -> Mark {
        Mark {
            trues: self.store.trues.len(),
            entries: self.bounds.entries.len(),
            edges: self.net.added.len(),
        }
    }

    /// Makes an atom true, where it is neither true nor false.
    pub fn assume(&mut self, alloc: Global, atom: &Atom) -> Result<(), AllocError> {
        let number = self.table.number_of(alloc, atom)?;
        self.store.grow(alloc, self.table.count())?;
        if self.store.is_true(number) || self.store.is_false(number) {
            return Ok(());
        }
        self.store.assume(number)
    }

    // Takes the rows of an atom away that was taken in last.
    fn take_back(&mut self, number: u32) {
        let Some(atom) = self.table.atom(number) else {
            return;
        };
        if atom.parts.len() < 2 {
            return;
        }
        for part in &atom.parts {
            if let Some(rows) = self.rows_of.get_mut(part.variable as usize) {
                let _ = rows.pop();
            }
        }
    }

    /// Keeps what was true at a mark.
    pub fn undo(&mut self, mark: Mark) {
        for place in (mark.trues..self.seen).rev() {
            if let Some(number) = self.store.trues.get(place).copied() {
                self.take_back(number);
            }
        }
        self.seen = self.seen.min(mark.trues);
        self.store.undo(mark.trues);
        self.bounds.undo(mark.entries);
        self.net.undo(mark.edges, mark.trues, mark.entries);
    }

    // The numbers of the atoms of a clause, each once.
    pub(crate) fn numbers_of(
        &mut self,
        alloc: Global,
        clause: &Clause,
    ) -> Result<Vec<u32>, AllocError> {
        let mut all = Vec::new(alloc);
        for atom in clause.atoms.as_slice() {
            let number = self.table.number_of(alloc, atom)?;
            if !all.contains(&number) {
                all.push(number)?;
            }
        }
        self.store.grow(alloc, self.table.count())?;
        Ok(all)
    }

    /// Takes a clause in, by its number.
    pub fn learn(&mut self, alloc: Global, clause: &Clause, number: u64) -> Result<(), AllocError> {
        let atoms = self.numbers_of(alloc, clause)?;
        self.store.add(atoms, Place::Number(number))
    }

    // The clause of these atoms.
    pub(crate) fn clause_of(&self, alloc: Global, numbers: &[u32]) -> Result<Clause, AllocError> {
        let mut atoms = Vec::new(alloc);
        for number in numbers {
            if let Some(atom) = self.table.atom(*number) {
                atoms.push(atom.copied(alloc)?)?;
            }
        }
        Ok(Clause {
            atoms: Items::from_vec(atoms),
        })
    }

    // Takes a lemma in, if its lines show it.
    fn take_lemma(
        &mut self,
        alloc: Global,
        ranges: &[Range],
        atoms: Vec<u32>,
        lines: Vec<Line>,
    ) -> Result<bool, AllocError> {
        let clause = self.clause_of(alloc, atoms.as_slice())?;
        let fault = unjustified_line(alloc, &clause, ranges, lines.as_slice())?;
        if fault.is_some() {
            return Ok(false);
        }
        let step = ProofStep::Lemma {
            clause,
            lines: Items::from_vec(lines),
        };
        self.store.add(atoms, Place::Waiting(step))?;
        Ok(true)
    }

    // The lemma that true atoms and entries add up to a contradiction. Whether they do.
    pub(crate) fn lemma(
        &mut self,
        alloc: Global,
        ranges: &[Range],
        atoms: &[TimesAtom],
        entries: &[TimesEntry],
    ) -> Result<bool, AllocError> {
        let mut draft = Draft::new(alloc);
        draft.put_needed(alloc, &self.bounds, entries)?;
        draft.push_sum(alloc, atoms, entries)?;
        let Draft { used, lines, .. } = draft;
        let others = opposites(alloc, used.as_slice())?;
        self.take_lemma(alloc, ranges, others, lines)
    }

    // Whether a lemma was found.
    fn finds(&mut self, alloc: Global, ranges: &[Range]) -> Result<bool, AllocError> {
        if self.moves_bounds(alloc, ranges)? {
            return Ok(true);
        }
        if self.finds_cycle(alloc, ranges)? {
            return Ok(true);
        }
        self.finds_pair(alloc, ranges)
    }

    /// What is proposed under the decisions. `following` is the number of the clause that the next step adds.
    pub fn look(
        &mut self,
        alloc: Global,
        formula: &Formula,
        following: u64,
    ) -> Result<Answer, AllocError> {
        self.looks = self.looks.saturating_add(1);
        if self.is_spoiled() {
            return Ok(Answer::Stuck);
        }
        self.bounds.begin();
        for _ in 0..MOST_ROUNDS {
            if let Some(empty) = self.store.propagate()? {
                return self.conflict(alloc, empty, following);
            }
            if !self.finds(alloc, formula.ranges.as_slice())?
                && let Some(answer) = self.choice(alloc, formula)?
            {
                return Ok(answer);
            }
        }
        Ok(Answer::Stuck)
    }
}

// The numbers of the complements.
fn opposites(alloc: Global, numbers: &[u32]) -> Result<Vec<u32>, AllocError> {
    let mut others = Vec::new(alloc);
    for number in numbers {
        others.push(opposite(*number))?;
    }
    Ok(others)
}
