//! Laws of trimmed proofs.
ghost use Rattle.lucy_trim.specs.Laws.{TrimmedRefutes, MoreLiveRefutes, TrimmedIsWritable};

/// A trimmed proof refutes what the proof refutes, with no more live clauses than it has at some step.
pub fn trimmed_refutes()
    ensures { TrimmedRefutes }
{}

/// What is refuted with some live clauses is refuted where more are allowed.
pub fn more_live_refutes()
    ensures { MoreLiveRefutes }
{}

/// The steps of a trimmed proof can be written where those of the proof can.
pub fn trimmed_is_writable()
    ensures { TrimmedIsWritable }
{}
