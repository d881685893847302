//! An engine of a formula.

use crate::engine::Engine;
use crate::numbers::place_of;
use crate::store::Place;
use lucy_cert::ProofStep;
use lucy_clauses::{Clause, Formula, Range};
use sqlite_items::Items;
use std::alloc::{AllocError, Global};

impl Engine {
    fn add_variable(
        &mut self,
        alloc: Global,
        variable: usize,
        range: Range,
    ) -> Result<(), AllocError> {
        self.bounds.add(place_of(variable)?, range)?;
        self.rows_of.push(Vec::new(alloc))?;
        self.forms_of.push(Vec::new(alloc))?;
        self.net.add(alloc, i128::from(range.lo))
    }

    // Takes a clause of the formula in. One in which an atom stands twice can be no unit hint: a step takes its place.
    fn add_clause(
        &mut self,
        alloc: Global,
        number: u64,
        clause: &Clause,
    ) -> Result<(), AllocError> {
        let atoms = self.numbers_of(alloc, clause)?;
        if atoms.len() == clause.atoms.len() {
            return self.store.add(atoms, Place::Number(number));
        }
        let once = self.clause_of(alloc, atoms.as_slice())?;
        let hint = [number];
        let step = ProofStep::Rup {
            clause: once,
            hints: Items::from_slice(alloc, hint.as_slice())?,
        };
        self.store.add(atoms, Place::Waiting(step))
    }

    // Follows the unit clauses of the formula. Where none is left and none is empty, no decision makes one of these clauses
    // unit but by an atom that becomes true.
    fn begin(&mut self) -> Result<(), AllocError> {
        if self.store.propagate()?.is_none() {
            self.store.settle();
        }
        Ok(())
    }

    /// The engine of a formula, with no decision.
    pub fn new(alloc: Global, formula: &Formula) -> Result<Engine, AllocError> {
        let mut engine = Engine::empty(alloc);
        for (variable, range) in formula.ranges.as_slice().iter().enumerate() {
            engine.add_variable(alloc, variable, *range)?;
        }
        engine.net.add(alloc, 0)?;
        for (number, clause) in formula.clauses.as_slice().iter().enumerate() {
            engine.add_clause(alloc, number as u64, clause)?;
        }
        engine.given = formula.clauses.len();
        engine.begin()?;
        Ok(engine)
    }
}
