ghost use Rattle.lucy_model.specs.Laws.{MergeCommutes, MergeAssociates, MergeIsIdempotent, MergeStaysInRange, EmptyAndHolds, EmptyOrFails};

/// The merge of two states is the same in both orders.
pub fn merge_commutes()
    ensures { MergeCommutes }
{}

/// Three states merge to one state, whichever two are merged first.
pub fn merge_associates()
    ensures { MergeAssociates }
{}

/// A state merged with itself stays as it is.
pub fn merge_is_idempotent()
    ensures { MergeIsIdempotent }
{}

/// The merge of two states whose numbers are in the leaves' ranges is in these ranges.
pub fn merge_stays_in_range()
    ensures { MergeStaysInRange }
{}

/// All of no conditions hold.
pub fn empty_and_holds()
    ensures { EmptyAndHolds }
{}

/// None of no conditions holds.
pub fn empty_or_fails()
    ensures { EmptyOrFails }
{}
