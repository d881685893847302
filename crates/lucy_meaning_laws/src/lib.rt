//! Laws of what the terms and conditions of a tree mean.
#![tactic(auto)]

ghost use Rattle.lucy_meaning_laws.specs.Laws.{AssignedMeans, AssignedIsNamed, ComparedMeans, ComparedIsNamed, ConditionMeans, ConditionIsNamed};

/// The term of a change has the value of the tree's term.
pub fn assigned_means()
    ensures { AssignedMeans }
{}

/// A comparison's term has the value of its left side less that of its right side.
pub fn compared_means()
    ensures { ComparedMeans }
{}

/// A condition holds exactly where the tree's condition does.
pub fn condition_means()
    ensures { ConditionMeans }
{}

/// Each name in the term of a change stands for what its place needs, and two factors are a number
/// times what is named.
pub fn assigned_is_named()
    ensures { AssignedIsNamed }
{}

/// So it is in the two sides of a comparison.
pub fn compared_is_named()
    ensures { ComparedIsNamed }
{}

/// So it is in a condition.
pub fn condition_is_named()
    ensures { ConditionIsNamed }
{}
