//! What a check answers.
use lucy_cert::Why;

/// Whether a proof refutes a formula.
#[derive(Clone, Copy, Debug, PartialEq, Eq)]
pub enum Verdict {
    /// It does: the formula has no model.
    Refuted,
    /// It does not.
    Rejected {
        /// The first step that is not justified, from 0; the number of steps where each is justified and no clause is
        /// empty.
        step: u64,
        /// Why it is not justified.
        why: Why,
    },
}
