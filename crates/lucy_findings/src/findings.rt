use lucy_cert::Proof;
use lucy_model::State;
use sqlite_items::Items;

/// What a segment is found to be.
#[derive(Debug, Drop)]
pub enum SegmentFinding {
    /// It has no transaction.
    Idle,
    /// The merge of any two of its states is in it. The proof refutes its closure formula and drops nothing.
    Closed(Proof),
    /// The merge of two of its states is outside it.
    Open {
        /// The lexicographically smaller of the two.
        first: State,
        /// The other one.
        second: State,
    },
}

/// Whether the segments cover the invariant.
#[derive(Debug, Drop)]
pub enum CoverFinding {
    /// Each state of the invariant is in a segment. The proof refutes the cover formula and drops nothing.
    Holds(Proof),
    /// This state of the invariant is in no segment.
    Uncovered(State),
}

/// What a plan is found to be.
#[derive(Debug, Drop)]
pub struct Findings {
    /// Whether the start satisfies the invariant.
    pub start_holds: bool,
    /// What each segment is found to be, in order.
    pub segments: Items<SegmentFinding>,
    /// Whether the segments cover the invariant.
    pub cover: CoverFinding,
}
