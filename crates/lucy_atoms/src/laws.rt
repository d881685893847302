//! Laws of lists of atoms.
ghost use Rattle.lucy_atoms.specs.Laws.{AtomsAreFound, NumbersStay};

/// Each of several atoms that differ is found at its own place.
pub fn atoms_are_found()
    ensures { AtomsAreFound }
{}

/// An atom keeps its place when another is put.
pub fn numbers_stay()
    ensures { NumbersStay }
{}
