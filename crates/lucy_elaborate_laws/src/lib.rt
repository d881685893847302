//! Laws above the elaboration of plans.
#![tactic(auto)]

ghost use Rattle.lucy_elaborate_laws.specs.Laws.{TermsAreInRange, AssignedAreInRange, ChangesAreInRange, ConditionsAreInRange, ElaboratedAreTheParts, ListedAreThere, NamesDiffer, ObjectsAreSound, PartsAreAPlan, PointsAreStates, SetsAreTheirAtoms, StartsAreStates, TxnsAreInRange};

/// A comparison's term speaks of the leaves and of the parameters that there are, each at most
/// once and in order, with factors and a constant within their limits.
pub fn terms_are_in_range()
    ensures { TermsAreInRange }
{}

/// So does the term of a change.
pub fn assigned_are_in_range()
    ensures { AssignedAreInRange }
{}

/// No two transactions and no two segments that a tree gives have one name.
pub fn names_differ()
    ensures { NamesDiffer }
{}

/// A condition's places are in range, and the nodes that were counted are those that it has.
pub fn conditions_are_in_range()
    ensures { ConditionsAreInRange }
{}

/// An object has 1 to 64 leaves, and each of its names stands for what is there.
pub fn objects_are_sound()
    ensures { ObjectsAreSound }
{}

/// The leaves that a set of an object stands for are those of its atoms, in text order.
pub fn sets_are_their_atoms()
    ensures { SetsAreTheirAtoms }
{}

/// The changes of a branch set leaves that there are, each once, to terms in range.
pub fn changes_are_in_range()
    ensures { ChangesAreInRange }
{}

/// A transaction is in range, sets no leaf twice in a branch, and the nodes that were counted are
/// those that it has.
pub fn txns_are_in_range()
    ensures { TxnsAreInRange }
{}

/// The points of a segment are states of the object, at most 256 in all.
pub fn points_are_states()
    ensures { PointsAreStates }
{}

/// The transactions that a segment lists are there.
pub fn listed_are_there()
    ensures { ListedAreThere }
{}

/// A start is a state of its object.
pub fn starts_are_states()
    ensures { StartsAreStates }
{}

/// The parts that a tree gives are a plan: `Plan::new` refuses none of them.
pub fn parts_are_a_plan()
    ensures { PartsAreAPlan }
{}

/// A tree's plan and names are its parts and their names. Only the gathering of the parts refuses
/// a tree: neither `Plan::new` nor the table of names ever does.
pub fn elaborated_are_the_parts()
    ensures { ElaboratedAreTheParts }
{}
