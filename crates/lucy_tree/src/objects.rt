//! The object and its start.

use crate::marks::{Bounds, Int, Name, Path, Span};
use sqlite_items::Items;

/// Which of two numbers a merge keeps: `max` or `min`.
#[derive(Clone, Copy, Debug, PartialEq, Eq)]
pub enum Extreme {
    /// The greater one.
    Max,
    /// The lesser one.
    Min,
}

/// How a merge joins two flags: `orflag` or `andflag`.
#[derive(Clone, Copy, Debug, PartialEq, Eq)]
pub enum FlagKind {
    /// On where either is on.
    Or,
    /// On where both are on.
    And,
}

/// A field of the object or of a pair.
#[derive(Drop)]
pub enum Field {
    /// A `max` or a `min`.
    Number {
        /// Whether it is a `max` or a `min`.
        extreme: Extreme,
        /// The byte range of `max` or `min`.
        word: Span,
        /// The field's name.
        name: Name,
        /// The range of its numbers.
        bounds: Bounds,
        /// The byte range of the `;`.
        semicolon: Span,
    },
    /// An `orflag` or an `andflag`.
    Flag {
        /// Whether it is an `orflag` or an `andflag`.
        kind: FlagKind,
        /// The byte range of `orflag` or `andflag`.
        word: Span,
        /// The field's name.
        name: Name,
        /// The byte range of the `;`.
        semicolon: Span,
    },
    /// `set NAME { ATOM .. } ;`
    Set {
        /// The byte range of `set`.
        word: Span,
        /// The field's name.
        name: Name,
        /// The byte range of the `{`.
        open_brace: Span,
        /// The atoms that may be members, in the order of the text.
        atoms: Items<Name>,
        /// The byte range of the `}`.
        close_brace: Span,
        /// The byte range of the `;`.
        semicolon: Span,
    },
    /// `pair NAME { FIELD .. }`
    Pair {
        /// The byte range of `pair`.
        word: Span,
        /// The field's name.
        name: Name,
        /// The byte range of the `{`.
        open_brace: Span,
        /// The fields of the pair, in the order of the text.
        fields: Items<Field>,
        /// The byte range of the `}`.
        close_brace: Span,
    },
}

/// `object { FIELD .. }`
#[derive(Drop)]
pub struct Object {
    /// The byte range of `object`.
    pub word: Span,
    /// The byte range of the `{`.
    pub open_brace: Span,
    /// The fields, in the order of the text.
    pub fields: Items<Field>,
    /// The byte range of the `}`.
    pub close_brace: Span,
}

/// The start of a field.
#[derive(Drop)]
pub enum Value {
    /// The number of a number's field.
    Int(Int),
    /// `on`
    On(Span),
    /// `off`
    Off(Span),
    /// The members of a set.
    Set {
        /// The byte range of the `{`.
        open_brace: Span,
        /// The members, in the order of the text.
        atoms: Items<Name>,
        /// The byte range of the `}`.
        close_brace: Span,
    },
}

/// `PATH = VALUE ;`
#[derive(Drop)]
pub struct Setting {
    /// The field that gets the value.
    pub path: Path,
    /// The byte range of the `=`.
    pub equal: Span,
    /// The value that it starts with.
    pub value: Value,
    /// The byte range of the `;`.
    pub semicolon: Span,
}

/// `start { SETTING .. }`
#[derive(Drop)]
pub struct Start {
    /// The byte range of `start`.
    pub word: Span,
    /// The byte range of the `{`.
    pub open_brace: Span,
    /// The fields with a start of their own, in the order of the text.
    pub settings: Items<Setting>,
    /// The byte range of the `}`.
    pub close_brace: Span,
}
