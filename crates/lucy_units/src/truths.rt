//! Which atoms are true, and which are false.
ghost use Rattle.std.specs.Prelude.{◌≡◌, ◌≤◌, IfOk, length};
ghost use Rattle.lucy_clauses.specs.Sums.{complement};
ghost use Rattle.lucy_cert.specs.Justified.{is_false, open_atoms};
ghost use Rattle.lucy_cert.specs.Refuting.{is_none_left};
ghost use Rattle.lucy_units.specs.Leads.{is_known};
ghost use Rattle.lucy_units.specs.States.{FirstOpen, StateOf};

use lucy_clauses::{Atom, Clause};
use std::alloc::{AllocError, Global};

/// The atom that holds exactly where the given one does not.
pub fn opposite(alloc: Global, atom: &Atom) -> Result<Atom, AllocError>
    ensures { IfOk result (λ t. t ≡ complement atom.now) }
{
    let mut other = atom.copied(alloc)?;
    other.complement();
    Ok(other)
}

/// Whether an atom is among the true ones.
pub fn is_known(atom: &Atom, trues: &[Atom]) -> bool
    ensures { result ≡ is_known atom.now trues.now }
{
    for known in trues {
        if *atom == *known {
            return true;
        }
    }
    false
}

/// Whether an atom is false: its complement is among the true ones.
pub fn is_false(alloc: Global, trues: &[Atom], atom: &Atom) -> Result<bool, AllocError>
    ensures { IfOk result (λ b. b ≡ is_false trues.now atom.now) }
{
    let other = opposite(alloc, atom)?;
    Ok(is_known(&other, trues))
}

/// What a clause is under true atoms.
#[derive(Clone, Copy, Debug, PartialEq, Eq)]
pub enum State {
    /// All its atoms are false.
    Empty,
    /// All but the atom at this place are false, and that one is not true.
    Unit(usize),
    /// Anything else.
    Settled,
}

// The first place from `from` on whose atom is not false.
fn first_open(
    alloc: Global,
    atoms: &[Atom],
    from: usize,
    trues: &[Atom],
) -> Result<Option<usize>, AllocError>
    requires { from ≤ length atoms.now }
    ensures { IfOk result (λ place. FirstOpen trues.now atoms.now from place) }
{
    for i in from..atoms.len() {
        if !is_false(alloc, trues, &atoms[i])? {
            return Ok(Some(i));
        }
    }
    Ok(None)
}

/// What a clause is under true atoms.
pub fn state_of(alloc: Global, clause: &Clause, trues: &[Atom]) -> Result<State, AllocError>
    ensures { IfOk result (λ state. StateOf trues.now clause.now state) }
{
    let atoms = clause.atoms.as_slice();
    let Some(place) = first_open(alloc, atoms, 0, trues)? else {
        return Ok(State::Empty);
    };
    if first_open(alloc, atoms, place + 1, trues)?.is_some() || is_known(&atoms[place], trues) {
        return Ok(State::Settled);
    }
    Ok(State::Unit(place))
}

/// Whether all atoms of a clause are false.
pub fn is_empty(alloc: Global, clause: &Clause, trues: &[Atom]) -> Result<bool, AllocError>
    ensures { IfOk result (λ b. b ≡ is_none_left (open_atoms trues.now clause.now.atoms)) }
{
    match first_open(alloc, clause.atoms.as_slice(), 0, trues)? {
        Some(_) => Ok(false),
        None => Ok(true),
    }
}
