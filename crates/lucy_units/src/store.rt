//! The store: clauses and true atoms.
ghost use Rattle.std.specs.Prelude.{◌≡◌, ◌<◌, ◌≤◌, ◌++◌, ◌∷◌, [], IfOk, OnOk, OnErr, length, take, slice_get, Some, None};
ghost use Rattle.lucy_cert.specs.Justified.{rup_fault};
ghost use Rattle.lucy_units.specs.Leads.{opened};
ghost use Rattle.lucy_units.specs.Stores.{stored, assumed, IsStore};
ghost use Rattle.lucy_units.specs.Propagations.{Looks};

use crate::propagating::Look;
use crate::truths::{State, is_empty, state_of};
use lucy_clauses::{Atom, Clause, Formula};
use sqlite_items::Items;
use std::alloc::{AllocError, Global};
use std::marker::Model;

/// Clauses, numbered in the order in which they were added, and the atoms that are true: those that were assumed, and
/// those that are the last of a clause that is not false.
#[derive(Debug, Drop)]
pub struct Store {
    clauses: Vec<Clause>,
    atoms: Vec<Atom>,
    // For each true atom the number of the clause that made it true; none where it was assumed.
    reasons: Vec<Option<u64>>,
}

impl Model for Store {
    ghost use Rattle.lucy_units.specs.Stores.{Stored, IsStore, stored};

    ghost Value = { Stored };

    ghost view = { λ s. stored s.clauses.items s.atoms.items s.reasons.items };

    ghost invariant = { λ s. IsStore (stored s.clauses.items s.atoms.items s.reasons.items) };
}

fn copies(alloc: Global, clauses: &[Clause]) -> Result<Vec<Clause>, AllocError>
    ensures { IfOk result (λ v. v.items ≡ clauses.now) }
{
    let mut all = Vec::new(alloc);
    for clause in clauses {
        all.push(clause.copied(alloc)?)?;
    }
    Ok(all)
}

impl Store {
    /// The clauses of a formula, with no true atom.
    pub fn new(alloc: Global, formula: &Formula) -> Result<Store, AllocError>
        ensures { IfOk result (λ s. s ≡ stored formula.now.clauses [] []) }
    {
        let clauses = copies(alloc, formula.clauses.as_slice())?;
        Ok(Store {
            clauses,
            atoms: Vec::new(alloc),
            reasons: Vec::new(alloc),
        })
    }

    /// Adds a clause behind the others, and answers its number.
    pub fn add(&mut self, alloc: Global, clause: &Clause) -> Result<u64, AllocError>
        ensures number { IfOk result (λ n. n ≡ length self.old.clauses) }
        ensures added { OnOk result (self.new ≡ stored (self.old.clauses ++ clause.now ∷ []) self.old.atoms self.old.reasons) }
        ensures memory { OnErr result (self.new ≡ self.old) }
    {
        let number = self.clauses.len() as u64;
        let clause = clause.copied(alloc)?;
        self.clauses.push(clause)?;
        Ok(number)
    }

    /// Makes an atom true by assumption.
    pub fn assume(&mut self, alloc: Global, atom: &Atom) -> Result<(), AllocError>
        ensures assumed { OnOk result (self.new ≡ stored self.old.clauses (self.old.atoms ++ atom.now ∷ []) (self.old.reasons ++ None ∷ [])) }
        ensures memory { OnErr result (self.new ≡ self.old) }
    {
        let atom = atom.copied(alloc)?;
        self.atoms.reserve(1)?;
        self.reasons.push(None)?;
        self.atoms.push_reserved(atom);
        Ok(())
    }

    // Looks at a clause, and makes its last atom true where it is unit.
    pub(crate) fn look(&mut self, alloc: Global, number: usize) -> Result<Look, AllocError>
        requires { number < length self.old.clauses }
        ensures looks { IfOk result (λ look. Looks self.old self.new number look) }
        ensures memory { OnErr result (self.new ≡ self.old) }
    {
        let clause = &self.clauses[number];
        let place = match state_of(alloc, clause, self.atoms.as_slice())? {
            State::Empty => return Ok(Look::Conflict),
            State::Settled => return Ok(Look::Settled),
            State::Unit(place) => place,
        };
        let atom = clause.atoms.as_slice()[place].copied(alloc)?;
        self.atoms.reserve(1)?;
        self.reasons.push(Some(number as u64))?;
        self.atoms.push_reserved(atom);
        Ok(Look::Changed)
    }

    // The atoms that were assumed.
    fn assumed(&self, alloc: Global) -> Result<Vec<Atom>, AllocError>
        ensures { IfOk result (λ v. v.items ≡ assumed self.now.atoms self.now.reasons) }
    {
        let mut all = Vec::new(alloc);
        for i in 0..self.atoms.len() {
            match self.reasons[i] {
                None => all.push(self.atoms[i].copied(alloc)?)?,
                Some(_) => {}
            }
        }
        Ok(all)
    }

    // Hints that lead from the assumed atoms to a clause all of whose atoms are false, along the true atoms.
    pub(crate) fn hints(&self, alloc: Global, last: usize) -> Result<Items<u64>, AllocError>
        requires { opened self.now.clauses self.now.atoms last ≡ Some [] }
        ensures { IfOk result (λ hints. rup_fault (slice_get self.now.clauses) (assumed self.now.atoms self.now.reasons) hints ≡ None) }
    {
        let mut trues = self.assumed(alloc)?;
        let mut hints = Vec::new(alloc);
        for i in 0..self.atoms.len() {
            if let Some(number) = self.reasons[i] {
                hints.push(number)?;
                if is_empty(alloc, &self.clauses[number as usize], trues.as_slice())? {
                    return Ok(Items::from_vec(hints));
                }
                trues.push(self.atoms[i].copied(alloc)?)?;
            }
        }
        hints.push(last as u64)?;
        Ok(Items::from_vec(hints))
    }

    /// Each atom that was not assumed was the last one of its clause that was not false. It does nothing.
    pub fn facts(&self)
        ensures { IsStore self.now }
    {
        let _atoms = &self.atoms;
    }

    /// How many atoms are true.
    pub fn mark(&self) -> usize
        ensures { result ≡ length self.now.atoms }
    {
        self.atoms.len()
    }

    /// Keeps the first `mark` true atoms. There are so many.
    pub fn undo(&mut self, mark: usize)
        requires { mark ≤ length self.old.atoms }
        ensures { self.new ≡ stored self.old.clauses (take mark self.old.atoms) (take mark self.old.reasons) }
    {
        self.atoms.truncate(mark);
        self.reasons.truncate(mark);
    }

    /// The true atoms, in the order in which they became true.
    pub fn atoms(&self) -> &[Atom]
        ensures { result.now ≡ self.now.atoms }
    {
        self.atoms.as_slice()
    }

    /// How many clauses there are.
    pub fn count(&self) -> usize
        ensures { result ≡ length self.now.clauses }
    {
        self.clauses.len()
    }

    /// The clauses, by their numbers.
    pub fn clauses(&self) -> &[Clause]
        ensures { result.now ≡ self.now.clauses }
    {
        self.clauses.as_slice()
    }
}
