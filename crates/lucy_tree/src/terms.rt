//! Terms: sums of products of factors. What few products hold is boxed, so that a list of products takes little memory.

use crate::marks::{Number, Path, Span, Then};
use sqlite_items::{Boxed, Items};

/// A factor of a product.
#[derive(Drop)]
pub enum Factor {
    /// A number of the text.
    Number(Number),
    /// A number's field or a parameter.
    Path(Path),
    /// `size ( SET )`
    Size {
        /// The byte range of `size`.
        word: Span,
        /// The byte range of the `(`.
        open_paren: Span,
        /// The set whose members are counted.
        set: Boxed<Path>,
        /// The byte range of the `)`.
        close_paren: Span,
    },
}

/// One factor, or two with a `*` between them.
#[derive(Drop)]
pub struct Product {
    /// The first factor.
    pub first: Factor,
    /// The `*` and the factor after it, where there is one.
    pub second: Option<Then<Boxed<Factor>>>,
}

/// The sign before a product.
#[derive(Clone, Copy, Debug, PartialEq, Eq)]
pub enum Sign {
    /// `+`
    Plus,
    /// `-`
    Minus,
}

/// A later product of a term, with the sign before it.
#[derive(Drop)]
pub struct Added {
    /// Whether it is a `+` or a `-`.
    pub sign: Sign,
    /// The byte range of the sign.
    pub mark: Span,
    /// The product after the sign.
    pub product: Product,
}

/// One product or more with `+` or `-` between any two; the first may have a `-` before it.
#[derive(Drop)]
pub struct Term {
    /// The byte range of the `-` before the first product, where there is one.
    pub minus: Option<Span>,
    /// The first product.
    pub first: Product,
    /// The later products, in the order of the text.
    pub others: Items<Added>,
}

/// How two terms are compared.
#[derive(Clone, Copy, Debug, PartialEq, Eq)]
pub enum Relation {
    /// `<=`
    LessEqual,
    /// `<`
    Less,
    /// `>=`
    GreaterEqual,
    /// `>`
    Greater,
    /// `=`
    Equal,
    /// `!=`
    NotEqual,
}
