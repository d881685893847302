//! Proofs and their steps.

use crate::numbers::ClauseNumbers;
use lucy_clauses::{Clause, Line};
use sqlite_items::Items;

/// A step of a proof. The steps of lemmas and of propagation each add a clause. Clauses are numbered from 0: those of
/// the formula, then those that steps add.
#[derive(Debug, Drop)]
pub enum ProofStep {
    /// A clause that holds wherever the variables are within their ranges, since the negation of its atoms leads to a
    /// contradiction by sums and quotients.
    Lemma {
        /// The clause.
        clause: Clause,
        /// The derivation of a contradiction.
        lines: Items<Line>,
    },
    /// A clause that holds where the clauses before it do: where its atoms are false, each hint makes one atom true,
    /// and the last leaves none.
    Rup {
        /// The clause.
        clause: Clause,
        /// The numbers of earlier clauses, in the order in which they are used.
        hints: Items<u64>,
    },
    /// Clauses of earlier steps that no later step names.
    Drop {
        /// Their numbers.
        clauses: ClauseNumbers,
    },
}

/// A refutation of a formula, if its steps are justified and a clause is empty.
#[derive(Debug, Drop)]
pub struct Proof {
    /// The steps, in order.
    pub steps: Items<ProofStep>,
}

/// Why a proof does not refute a formula.
#[derive(Clone, Copy, Debug, PartialEq, Eq)]
pub enum Why {
    /// A step refers to what is not there.
    Unknown,
    /// A number of a lemma's derivation passes the limit of 2^126.
    TooWide,
    /// A step does not come to a contradiction.
    NoConflict,
    /// No clause is empty.
    NoEmpty,
    /// More clauses of steps are added and not dropped than the certificate allows.
    TooMany,
}
