//! What the engine proposes.

use lucy_cert::ProofStep;
use lucy_clauses::Atom;
use sqlite_items::Items;

/// Steps, and the number of a clause.
#[derive(Debug, Drop)]
pub struct Proposed {
    /// The steps, in their order.
    pub steps: Vec<ProofStep>,
    /// The number of a clause that is to be false under the decisions, of the formula or of a step.
    pub number: u64,
}

/// What a look at the decisions comes to. Nothing of it is sure.
#[derive(Debug, Drop)]
pub enum Answer {
    /// A clause is false under the decisions.
    Clause(Proposed),
    /// A model of the formula.
    Model(Items<i64>),
    /// An atom to decide.
    Decide(Atom),
    /// None of these was found.
    Stuck,
}
