//! Laws of the formulas: what their models are.
ghost use Rattle.lucy_closure.specs.Meanings.{ClosureModelIsEscape, WholeModelIsEscape, CoverModelIsUncovered, EscapeIsClosureModel, EscapeIsWholeModel, UncoveredIsCoverModel};

/// A model of a closure formula is two states of the segment whose merge is outside it, read by `read_pair`.
pub fn closure_model_is_escape()
    ensures { ClosureModelIsEscape }
{}

/// A model of a whole closure is two states of the invariant, neither of them a point, whose merge does not satisfy it.
pub fn whole_model_is_escape()
    ensures { WholeModelIsEscape }
{}

/// A model of a cover formula is a state of the invariant in no segment, read by `read_state`.
pub fn cover_model_is_uncovered()
    ensures { CoverModelIsUncovered }
{}

/// Any two states of a segment whose merge is outside it are those of a model of its closure formula.
pub fn escape_is_closure_model()
    ensures { EscapeIsClosureModel }
{}

/// Any two states of the invariant, neither of them a point, whose merge does not satisfy it are those of a model of the
/// whole closure.
pub fn escape_is_whole_model()
    ensures { EscapeIsWholeModel }
{}

/// Any state of the invariant in no segment is that of a model of the cover formula.
pub fn uncovered_is_cover_model()
    ensures { UncoveredIsCoverModel }
{}
