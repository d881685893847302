//! What the lines of a certificate say.

use crate::names::PartName;
use crate::numbers::ClauseNumbers;
use crate::steps::ProofStep;
use lucy_clauses::{Clause, Line};
use sqlite_items::Items;

/// What a line says by itself, wherever it stands.
#[derive(Debug, Drop)]
pub enum Entry {
    /// The first line: the first version, or the second with the most clauses that may be live.
    Header(Option<u64>),
    /// A part begins.
    Part(PartName),
    /// A lemma begins.
    Lemma(Clause),
    /// A line of a lemma's derivation.
    Derivation(Line),
    /// A lemma ends.
    Qed,
    /// A step of propagation.
    Rup {
        /// The clause.
        clause: Clause,
        /// The numbers of earlier clauses.
        hints: Items<u64>,
    },
    /// A step that drops clauses.
    Drop(ClauseNumbers),
    /// The last line.
    End,
}

/// What a line completes.
#[derive(Debug, Drop)]
pub enum Item {
    /// The first line: the most clauses that may be live, in the second version.
    Live(Option<u64>),
    /// A part that begins.
    Part(PartName),
    /// A step of the part that has begun.
    Step(ProofStep),
}
