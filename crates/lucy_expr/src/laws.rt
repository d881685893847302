ghost use Rattle.lucy_expr.specs.Laws.{SpineBeginsWithItself, SpineEndsWithStart, SpineIsInTree, MergeKeepsIds, ReachCoversIds, ReachIsReached, ClosedSegmentHoldsValues, ClosedWholeHoldsValues};

/// The spine of an expression begins with the expression.
pub fn spine_begins_with_itself()
    ensures { SpineBeginsWithItself }
{}

/// The spine of an expression ends with the opening state.
pub fn spine_ends_with_start()
    ensures { SpineEndsWithStart }
{}

/// What is on the spine of an expression is a node of it.
pub fn spine_is_in_tree()
    ensures { SpineIsInTree }
{}

/// A merge has the ids of both its parts, and no others.
pub fn merge_keeps_ids()
    ensures { MergeKeepsIds }
{}

/// The reach of a replica is above the count of each id of that replica.
pub fn reach_covers_ids()
    ensures { ReachCoversIds }
{}

/// A reach above 0 is one more than the count of some id of that replica.
pub fn reach_is_reached()
    ensures { ReachIsReached }
{}

/// Where a segment is merge closed, it holds the value of each expression that is reachable in it.
pub fn closed_segment_holds_values()
    ensures { ClosedSegmentHoldsValues }
{}

/// Where the invariant is merge closed, the value of each expression that is reached from the start
/// satisfies it.
pub fn closed_whole_holds_values()
    ensures { ClosedWholeHoldsValues }
{}
