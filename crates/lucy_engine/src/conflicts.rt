//! What a clause all of whose atoms are false says of the decisions.

use crate::answers::{Answer, Proposed};
use crate::engine::Engine;
use crate::store::{Store, Truth};
use crate::table::opposite;
use lucy_cert::ProofStep;
use sqlite_items::Items;
use std::alloc::{AllocError, Global};

// Which true atoms a conflict needs, the clauses that it uses, and the decisions among them, the last of each first.
#[derive(Debug, Drop)]
struct Trace {
    needed: Vec<bool>,
    used: Vec<u32>,
    decisions: Vec<u32>,
}

impl Trace {
    fn is_needed(&self, atom: u32) -> bool {
        self.needed.get(atom as usize).copied() == Some(true)
    }

    fn need(&mut self, atom: u32) {
        if let Some(needed) = self.needed.get_mut(atom as usize) {
            *needed = true;
        }
    }

    // A clause is used: the complements of its atoms are needed, but for the one that it makes true.
    fn need_all(&mut self, atoms: &[u32], but: Option<u32>) {
        for atom in atoms {
            if Some(*atom) != but {
                self.need(opposite(*atom));
            }
        }
    }

    fn take_clause(
        &mut self,
        store: &Store,
        clause: u32,
        but: Option<u32>,
    ) -> Result<(), AllocError> {
        self.used.push(clause)?;
        if let Some(atoms) = store.atoms(clause) {
            self.need_all(atoms.as_slice(), but);
        }
        Ok(())
    }

    // A true atom, where it is needed.
    fn take_atom(&mut self, store: &Store, atom: u32) -> Result<(), AllocError> {
        if !self.is_needed(atom) {
            return Ok(());
        }
        match store.truth(atom) {
            Truth::Not => Ok(()),
            Truth::Assumed => {
                self.decisions.push(atom)?;
                Ok(())
            }
            Truth::By(clause) => self.take_clause(store, clause, Some(atom)),
        }
    }
}

// No atom is needed.
fn no_trace(alloc: Global, count: usize) -> Result<Trace, AllocError> {
    let mut needed = Vec::new(alloc);
    for _ in 0..count {
        needed.push(false)?;
    }
    Ok(Trace {
        needed,
        used: Vec::new(alloc),
        decisions: Vec::new(alloc),
    })
}

impl Engine {
    // The trace of a clause all of whose atoms are false, its lists in the order in which atoms became true.
    fn trace(&self, alloc: Global, empty: u32) -> Result<Trace, AllocError> {
        let mut trace = no_trace(alloc, self.table.count())?;
        trace.take_clause(&self.store, empty, None)?;
        for atom in self.store.trues.as_slice().iter().rev() {
            trace.take_atom(&self.store, *atom)?;
        }
        trace.used.reverse();
        trace.decisions.reverse();
        Ok(trace)
    }

    // The steps of clauses that wait, in the order of these clauses.
    fn waiting_steps(
        &mut self,
        alloc: Global,
        used: &[u32],
        following: u64,
    ) -> Result<Vec<ProofStep>, AllocError> {
        let mut order = Vec::from_slice(alloc, used)?;
        order.sort()?;
        let mut steps = Vec::new(alloc);
        for clause in order.as_slice() {
            let _ = self.store.number_of(*clause, following, &mut steps)?;
        }
        Ok(steps)
    }

    // The numbers of clauses, none of which waits.
    fn hints(
        &mut self,
        alloc: Global,
        used: &[u32],
        following: u64,
        steps: &mut Vec<ProofStep>,
    ) -> Result<Vec<u64>, AllocError> {
        let mut hints = Vec::new(alloc);
        for clause in used {
            hints.push(self.store.number_of(*clause, following, steps)?)?;
        }
        Ok(hints)
    }

    // The step that a conflict's decisions cannot all be true.
    fn denial(
        &self,
        alloc: Global,
        decisions: &[u32],
        hints: Vec<u64>,
    ) -> Result<ProofStep, AllocError> {
        let mut others = Vec::new(alloc);
        for atom in decisions {
            others.push(opposite(*atom))?;
        }
        let clause = self.clause_of(alloc, others.as_slice())?;
        Ok(ProofStep::Rup {
            clause,
            hints: Items::from_vec(hints),
        })
    }

    // Steps, and the number of a clause that names only decisions that are needed.
    fn denied(
        &mut self,
        alloc: Global,
        trace: &Trace,
        following: u64,
    ) -> Result<Proposed, AllocError> {
        let used = trace.used.as_slice();
        let mut steps = self.waiting_steps(alloc, used, following)?;
        let hints = self.hints(alloc, used, following, &mut steps)?;
        if let [only] = hints.as_slice() {
            let number = *only;
            return Ok(Proposed { steps, number });
        }
        let number = following.saturating_add(steps.len() as u64);
        let step = self.denial(alloc, trace.decisions.as_slice(), hints)?;
        steps.push(step)?;
        Ok(Proposed { steps, number })
    }

    // What is proposed where all atoms of a clause are false.
    pub(crate) fn conflict(
        &mut self,
        alloc: Global,
        empty: u32,
        following: u64,
    ) -> Result<Answer, AllocError> {
        let trace = self.trace(alloc, empty)?;
        let proposed = self.denied(alloc, &trace, following)?;
        Ok(Answer::Clause(proposed))
    }
}
