//! What the end of a session says of a plan.
ghost use Rattle.lucy_session.specs.Laws.{ClosedIsConfluent, BrokenIsNotConfluent};

/// Where the merge of any two states of the invariant, neither of them one of some points, satisfies it, each state
/// that is reached satisfies it, if none of the points is reached.
pub fn closed_is_confluent()
    ensures { ClosedIsConfluent }
{}

/// Two expressions that are reached and whose merge breaks the invariant show that not every state that is reached
/// satisfies it.
pub fn broken_is_not_confluent()
    ensures { BrokenIsNotConfluent }
{}
