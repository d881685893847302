//! Places of tokens, and the nodes that many rules share.

use sqlite_items::Items;

/// The bytes of the text from `start` up to `end` that a token stands on.
#[derive(Clone, Copy, Debug, PartialEq, Eq)]
pub struct Span {
    /// The first byte's place, counted in bytes from the start of the text.
    pub start: usize,
    /// The place after the last byte, at most the length of the text.
    pub end: usize,
}

/// A name, with its bytes.
#[derive(Drop)]
pub struct Name {
    /// The bytes of the name: 1 to 64 where it was read.
    pub text: Items<u8>,
    /// The byte range of the name.
    pub span: Span,
}

/// A number without a sign: at most 2^62 where it was read.
#[derive(Clone, Copy, Debug, PartialEq, Eq)]
pub struct Number {
    /// The value: at most 2^62 where it was read.
    pub value: u64,
    /// The byte range of the digits.
    pub span: Span,
}

/// A number that may have a `-` before it.
#[derive(Clone, Copy, Debug, PartialEq, Eq)]
pub struct Int {
    /// The byte range of the `-`, where there is one.
    pub minus: Option<Span>,
    /// The number without its sign.
    pub number: Number,
}

/// A separator or a sign, and what stands after it.
#[derive(Drop)]
pub struct Then<T> {
    /// The byte range of the separator or sign.
    pub mark: Span,
    /// What stands after it.
    pub item: T,
}

/// One item or more, with a separator between any two.
#[derive(Drop)]
pub struct Chain<T> {
    /// The first item.
    pub first: T,
    /// The later items, each with the separator before it.
    pub others: Items<Then<T>>,
}

/// Names with dots between them.
pub type Path = Chain<Name>;

/// `in LOW .. HIGH`
#[derive(Clone, Copy, Debug, PartialEq, Eq)]
pub struct Bounds {
    /// The byte range of `in`.
    pub in_word: Span,
    /// The least number that is allowed.
    pub low: Int,
    /// The byte range of `..`.
    pub dots: Span,
    /// The greatest number that is allowed.
    pub high: Int,
}
