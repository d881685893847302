//! Conditions. What a part holds of any size is boxed, so that a list of parts takes little memory.

use crate::marks::{Chain, Name, Path, Span, Then};
use crate::terms::{Relation, Term};
use sqlite_items::Boxed;

/// A condition; `=>` groups to the right.
#[cycle(conditions)]
#[derive(Drop)]
pub struct Cond {
    /// What stands before the `=>`, or all of it.
    pub left: Disj,
    /// The `=>` and what stands after it, where there is one.
    pub implied: Option<Then<Boxed<Cond>>>,
}

/// Parts with `or` between any two.
pub type Disj = Chain<Conj>;

/// Parts with `and` between any two.
pub type Conj = Chain<Unary>;

/// A part of a condition that no `and`, `or` or `=>` divides.
#[cycle(conditions)]
#[derive(Drop)]
pub enum Unary {
    /// `not UNARY`
    Not {
        /// The byte range of `not`.
        word: Span,
        /// What is negated.
        inner: Boxed<Unary>,
    },
    /// `true`
    True(Span),
    /// `false`
    False(Span),
    /// `( COND )`
    Parens {
        /// The byte range of the `(`.
        open_paren: Span,
        /// What stands between the parentheses.
        inner: Boxed<Cond>,
        /// The byte range of the `)`.
        close_paren: Span,
    },
    /// `ATOM in SET`
    Member {
        /// The atom.
        atom: Name,
        /// The byte range of `in`.
        word: Span,
        /// The set that it has to be in.
        set: Boxed<Path>,
    },
    /// Two terms with a relation between them.
    Compare {
        /// The term before the relation.
        left: Boxed<Term>,
        /// How the two are compared.
        relation: Relation,
        /// The byte range of the relation.
        mark: Span,
        /// The term after the relation.
        right: Boxed<Term>,
    },
    /// A flag, by itself.
    Flag(Path),
}
