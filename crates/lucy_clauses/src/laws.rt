//! Laws of the definitions that contracts cite.
ghost use Rattle.lucy_clauses.specs.Lines.{JustifiedLinesHold};
ghost use Rattle.lucy_clauses.specs.Equality.{EqualAtoms};
ghost use Rattle.lucy_clauses.specs.Normal.{NormalTest};
ghost use Rattle.lucy_clauses.specs.Laws.{ComplementTwice, ComplementOpposite, ScaledPartsAreUnique, NormalFormIsUnique};

/// The test of equality passes exactly where two atoms are equal.
pub fn equal_atoms()
    ensures { EqualAtoms }
{}

/// The test of normal form passes exactly where parts are normal.
pub fn normal_test()
    ensures { NormalTest }
{}

/// The complement of the complement is the atom itself.
pub fn complement_twice()
    ensures { ComplementTwice }
{}

/// The complement holds exactly where the atom does not.
pub fn complement_opposite()
    ensures { ComplementOpposite }
{}

/// Normal parts that are equal up to positive multiples are equal.
pub fn scaled_parts_are_unique()
    ensures { ScaledPartsAreUnique }
{}

/// An inequality has one normal form.
pub fn normal_form_is_unique()
    ensures { NormalFormIsUnique }
{}

/// Where each line of a derivation is justified and the last is a contradiction, the clause that they negate holds in
/// each assignment within the ranges.
pub fn justified_lines_hold()
    ensures { JustifiedLinesHold }
{}
