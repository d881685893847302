ghost use Rattle.lucy_plan.specs.Laws.{CallWithoutBranchStays, UnsetLeafStays, SetLeafGetsItsTerm, CallKeepsLength, SegmentIsWhole, FirstSegmentIsFirst, NoFirstSegmentIsNone, WholeNumbersAreStateNumbers, MergeStaysInSegment};

/// Without a branch whose condition holds, a call leaves the state as it is.
pub fn call_without_branch_stays()
    ensures { CallWithoutBranchStays }
{}

/// A leaf that the branch does not set keeps its number.
pub fn unset_leaf_stays()
    ensures { UnsetLeafStays }
{}

/// A leaf that the branch sets gets its term's value in the state before the call.
pub fn set_leaf_gets_its_term()
    ensures { SetLeafGetsItsTerm }
{}

/// A call keeps the number of leaves.
pub fn call_keeps_length()
    ensures { CallKeepsLength }
{}

/// Numbers in a segment satisfy the invariant.
pub fn segment_is_whole()
    ensures { SegmentIsWhole }
{}

/// The first segment of some numbers holds them, and no earlier one does.
pub fn first_segment_is_first()
    ensures { FirstSegmentIsFirst }
{}

/// Where there is no first segment, no segment holds the numbers.
pub fn no_first_segment_is_none()
    ensures { NoFirstSegmentIsNone }
{}

/// Numbers that satisfy the invariant are those of a state.
pub fn whole_numbers_are_state_numbers()
    ensures { WholeNumbersAreStateNumbers }
{}

/// In a sound plan the merge of two states of a segment with a transaction is in that segment.
pub fn merge_stays_in_segment()
    ensures { MergeStaysInSegment }
{}
