use crate::ids::Id;
use lucy_plan::Call;

/// One node of an expression, without its parts.
#[derive(Debug, Drop)]
pub enum Turn {
    /// The opening state.
    Start,
    /// A call, applied to one part.
    Apply { id: Id, call: Call },
    /// Two parts, merged.
    Merge,
}
