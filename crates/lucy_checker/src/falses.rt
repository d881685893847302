//! The atoms that are false while hints are followed, each found by its hash.
ghost use Rattle.std.specs.Prelude.{◌≡◌, [], IfOk, OnOk};
ghost use Rattle.lucy_checker.specs.Propagation.{is_among, with_atom, AreSame};

use indexmap::IndexSet;
use lucy_clauses::Atom;
use std::alloc::{AllocError, Global};
use std::marker::Model;

/// Atoms that are false. An atom is looked up by its hash.
#[derive(Drop)]
pub struct Falses {
    atoms: IndexSet<Atom>,
}

impl Model for Falses {
    ghost use Rattle.std.specs.Prelude.{List};
    ghost use Rattle.lucy_clauses.specs.Sums.{Form};

    ghost Value = { List Form };

    ghost view = { λ f. f.atoms.keys };
}

impl Falses {
    /// No atoms.
    pub fn new(alloc: Global) -> Falses
        ensures { result ≡ [] }
    {
        Falses {
            atoms: IndexSet::new(alloc),
        }
    }

    /// Whether this is one of them. Takes no memory, and constant time but for the atom's own length, as far as hashes
    /// differ.
    pub fn contains(&self, atom: &Atom) -> bool
        ensures { result ≡ is_among self.now atom.now }
    {
        self.atoms.contains(atom)
    }

    /// With one more.
    pub fn add(&mut self, atom: Atom) -> Result<(), AllocError>
        ensures { OnOk result (self.new ≡ with_atom self.old atom) }
    {
        self.atoms.insert(atom)?;
        Ok(())
    }
}

/// These atoms.
pub fn falses_of(alloc: Global, atoms: &[Atom]) -> Result<Falses, AllocError>
    ensures { IfOk result (λ falses. AreSame falses atoms.now) }
{
    let mut falses = Falses::new(alloc);
    for atom in atoms {
        falses.add(atom.copied(alloc)?)?;
    }
    Ok(falses)
}
