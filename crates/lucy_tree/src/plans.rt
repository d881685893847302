//! Transactions, segments and the whole plan.

use crate::conditions::Cond;
use crate::marks::{Bounds, Chain, Int, Name, Number, Path, Span};
use crate::objects::{Object, Start};
use crate::terms::Term;
use sqlite_items::Items;

/// `invariant COND ;`
#[derive(Drop)]
pub struct Invariant {
    /// The byte range of `invariant`.
    pub word: Span,
    /// What every state has to satisfy.
    pub cond: Cond,
    /// The byte range of the `;`.
    pub semicolon: Span,
}

/// A parameter of a transaction, with its range.
#[derive(Drop)]
pub struct Param {
    /// The parameter's name.
    pub name: Name,
    /// The range of its numbers.
    pub bounds: Bounds,
}

/// What a change assigns.
#[derive(Drop)]
pub enum Assigned {
    /// A number's field gets the value of a term.
    Term(Term),
    /// A flag is set `on`.
    On(Span),
    /// A flag is set `off`.
    Off(Span),
}

/// A change of a field.
#[derive(Drop)]
pub enum Change {
    /// `PATH := VALUE ;`
    Assign {
        /// The field that is set.
        path: Path,
        /// The byte range of the `:=`.
        mark: Span,
        /// What it is set to.
        value: Assigned,
        /// The byte range of the `;`.
        semicolon: Span,
    },
    /// `insert ATOM into SET ;`
    Insert {
        /// The byte range of `insert`.
        word: Span,
        /// The atom that becomes a member.
        atom: Name,
        /// The byte range of `into`.
        into_word: Span,
        /// The set that it becomes a member of.
        set: Path,
        /// The byte range of the `;`.
        semicolon: Span,
    },
}

/// `when COND { CHANGE .. }`
#[derive(Drop)]
pub struct Branch {
    /// The byte range of `when`.
    pub word: Span,
    /// When the branch may be taken.
    pub cond: Cond,
    /// The byte range of the `{`.
    pub open_brace: Span,
    /// The changes, in the order of the text.
    pub changes: Items<Change>,
    /// The byte range of the `}`.
    pub close_brace: Span,
}

/// `txn NAME ( PARAM , .. ) { BRANCH .. }`
#[derive(Drop)]
pub struct Txn {
    /// The byte range of `txn`.
    pub word: Span,
    /// The transaction's name.
    pub name: Name,
    /// The byte range of the `(`.
    pub open_paren: Span,
    /// The parameters, where there are any.
    pub params: Option<Chain<Param>>,
    /// The byte range of the `)`.
    pub close_paren: Span,
    /// The byte range of the `{`.
    pub open_brace: Span,
    /// The branches, in the order of the text.
    pub branches: Items<Branch>,
    /// The byte range of the `}`.
    pub close_brace: Span,
}

/// `( INT , .. )`
#[derive(Drop)]
pub struct Point {
    /// The byte range of the `(`.
    pub open_paren: Span,
    /// The numbers, one for each leaf in a plan that is taken.
    pub numbers: Chain<Int>,
    /// The byte range of the `)`.
    pub close_paren: Span,
}

/// `except POINT ..`, with one point or more.
#[derive(Drop)]
pub struct Except {
    /// The byte range of `except`.
    pub word: Span,
    /// The first point.
    pub first: Point,
    /// The later points, in the order of the text.
    pub others: Items<Point>,
}

/// `segment NAME when COND except POINT .. do TXN .. ;`
#[derive(Drop)]
pub struct Segment {
    /// The byte range of `segment`.
    pub word: Span,
    /// The segment's name.
    pub name: Name,
    /// The byte range of `when`.
    pub when_word: Span,
    /// What its states satisfy.
    pub cond: Cond,
    /// The states that it leaves out, where there are any.
    pub except: Option<Except>,
    /// The byte range of `do`.
    pub do_word: Span,
    /// The transactions that commit there, in the order of the text.
    pub txns: Items<Name>,
    /// The byte range of the `;`.
    pub semicolon: Span,
}

/// `depth NUMBER ;`
#[derive(Drop)]
pub struct Depth {
    /// The byte range of `depth`.
    pub word: Span,
    /// The greatest depth of an expression: 16 to 2,048 in a plan that is taken.
    pub number: Number,
    /// The byte range of the `;`.
    pub semicolon: Span,
}

/// A whole plan.
#[derive(Drop)]
pub struct Tree {
    /// The byte range of `lucy`.
    pub word: Span,
    /// The version of the language.
    pub version: Number,
    /// The fields.
    pub object: Object,
    /// What they start with.
    pub start: Start,
    /// What every state has to satisfy.
    pub invariant: Invariant,
    /// The transactions, in the order of the text.
    pub txns: Items<Txn>,
    /// The segments, in the order of the text.
    pub segments: Items<Segment>,
    /// How deep an expression may become, where it is said.
    pub depth: Option<Depth>,
    /// The byte range of `end`.
    pub end_word: Span,
}
