//! Kinds of tokens, and how each is written.

ghost use Rattle.std.specs.Prelude.{◌≡◌};
ghost use Rattle.lucy_lexer.specs.Kind as spec;

/// What a token is. A sign and a reserved word have each a variant of their own.
#[derive(Clone, Copy, Debug, PartialEq, Eq)]
pub enum TokenKind {
    /// A letter and then letters, digits and `_`, at most 64 bytes, no reserved word.
    Name,
    /// One or more digits, with their value: at most 2^62.
    Number(u64),
    /// `{`
    OpenBrace,
    /// `}`
    CloseBrace,
    /// `(`
    OpenParen,
    /// `)`
    CloseParen,
    /// `;`
    Semicolon,
    /// `,`
    Comma,
    /// `.`
    Dot,
    /// `..`
    DotDot,
    /// `=`
    Equal,
    /// `:=`
    Assign,
    /// `!=`
    NotEqual,
    /// `<=`
    LessEqual,
    /// `<`
    Less,
    /// `>=`
    GreaterEqual,
    /// `>`
    Greater,
    /// `=>`
    Arrow,
    /// `+`
    Plus,
    /// `-`
    Minus,
    /// `*`
    Star,
    /// `lucy`
    Lucy,
    /// `object`
    Object,
    /// `max`
    Max,
    /// `min`
    Min,
    /// `orflag`
    OrFlag,
    /// `andflag`
    AndFlag,
    /// `set`
    Set,
    /// `pair`
    Pair,
    /// `start`
    Start,
    /// `invariant`
    Invariant,
    /// `txn`
    Txn,
    /// `when`
    When,
    /// `segment`
    Segment,
    /// `except`
    Except,
    /// `do`
    Do,
    /// `depth`
    Depth,
    /// `end`
    End,
    /// `in`
    In,
    /// `not`
    Not,
    /// `and`
    And,
    /// `or`
    Or,
    /// `true`
    True,
    /// `false`
    False,
    /// `on`
    On,
    /// `off`
    Off,
    /// `size`
    Size,
    /// `insert`
    Insert,
    /// `into`
    Into,
}

/// A token, and the bytes of the text from `start` up to `end` that it stands on.
#[derive(Clone, Copy, Debug, PartialEq, Eq)]
pub struct Token {
    /// Which word or sign it is, or that it is a name or a number.
    pub kind: TokenKind,
    /// The place of its first byte.
    pub start: usize,
    /// The place behind its last byte.
    pub end: usize,
}

/// The reserved words.
pub const WORDS: [(&[u8], TokenKind); 28] = [
    (b"lucy", TokenKind::Lucy),
    (b"object", TokenKind::Object),
    (b"max", TokenKind::Max),
    (b"min", TokenKind::Min),
    (b"orflag", TokenKind::OrFlag),
    (b"andflag", TokenKind::AndFlag),
    (b"set", TokenKind::Set),
    (b"pair", TokenKind::Pair),
    (b"start", TokenKind::Start),
    (b"invariant", TokenKind::Invariant),
    (b"txn", TokenKind::Txn),
    (b"when", TokenKind::When),
    (b"segment", TokenKind::Segment),
    (b"except", TokenKind::Except),
    (b"do", TokenKind::Do),
    (b"depth", TokenKind::Depth),
    (b"end", TokenKind::End),
    (b"in", TokenKind::In),
    (b"not", TokenKind::Not),
    (b"and", TokenKind::And),
    (b"or", TokenKind::Or),
    (b"true", TokenKind::True),
    (b"false", TokenKind::False),
    (b"on", TokenKind::On),
    (b"off", TokenKind::Off),
    (b"size", TokenKind::Size),
    (b"insert", TokenKind::Insert),
    (b"into", TokenKind::Into),
];

/// The signs of two bytes.
pub const PAIR_SIGNS: [(&[u8], TokenKind); 6] = [
    (b"..", TokenKind::DotDot),
    (b":=", TokenKind::Assign),
    (b"!=", TokenKind::NotEqual),
    (b"<=", TokenKind::LessEqual),
    (b">=", TokenKind::GreaterEqual),
    (b"=>", TokenKind::Arrow),
];

/// The signs of one byte.
pub const SINGLE_SIGNS: [(&[u8], TokenKind); 13] = [
    (b"{", TokenKind::OpenBrace),
    (b"}", TokenKind::CloseBrace),
    (b"(", TokenKind::OpenParen),
    (b")", TokenKind::CloseParen),
    (b";", TokenKind::Semicolon),
    (b",", TokenKind::Comma),
    (b".", TokenKind::Dot),
    (b"=", TokenKind::Equal),
    (b"<", TokenKind::Less),
    (b">", TokenKind::Greater),
    (b"+", TokenKind::Plus),
    (b"-", TokenKind::Minus),
    (b"*", TokenKind::Star),
];

/// Whether two kinds are the same.
pub fn is_kind(a: TokenKind, b: TokenKind) -> bool
    ensures { result ≡ spec.is_kind a b }
{
    a == b
}

/// How a sign or a reserved word is written; empty for a name and a number, which have no text of their own.
pub fn written(kind: TokenKind) -> &'static [u8]
    ensures { result.now ≡ spec.written kind }
{
    match kind {
        TokenKind::Name | TokenKind::Number(_) => &[],
        TokenKind::OpenBrace => b"{",
        TokenKind::CloseBrace => b"}",
        TokenKind::OpenParen => b"(",
        TokenKind::CloseParen => b")",
        TokenKind::Semicolon => b";",
        TokenKind::Comma => b",",
        TokenKind::Dot => b".",
        TokenKind::DotDot => b"..",
        TokenKind::Equal => b"=",
        TokenKind::Assign => b":=",
        TokenKind::NotEqual => b"!=",
        TokenKind::LessEqual => b"<=",
        TokenKind::Less => b"<",
        TokenKind::GreaterEqual => b">=",
        TokenKind::Greater => b">",
        TokenKind::Arrow => b"=>",
        TokenKind::Plus => b"+",
        TokenKind::Minus => b"-",
        TokenKind::Star => b"*",
        TokenKind::Lucy => b"lucy",
        TokenKind::Object => b"object",
        TokenKind::Max => b"max",
        TokenKind::Min => b"min",
        TokenKind::OrFlag => b"orflag",
        TokenKind::AndFlag => b"andflag",
        TokenKind::Set => b"set",
        TokenKind::Pair => b"pair",
        TokenKind::Start => b"start",
        TokenKind::Invariant => b"invariant",
        TokenKind::Txn => b"txn",
        TokenKind::When => b"when",
        TokenKind::Segment => b"segment",
        TokenKind::Except => b"except",
        TokenKind::Do => b"do",
        TokenKind::Depth => b"depth",
        TokenKind::End => b"end",
        TokenKind::In => b"in",
        TokenKind::Not => b"not",
        TokenKind::And => b"and",
        TokenKind::Or => b"or",
        TokenKind::True => b"true",
        TokenKind::False => b"false",
        TokenKind::On => b"on",
        TokenKind::Off => b"off",
        TokenKind::Size => b"size",
        TokenKind::Insert => b"insert",
        TokenKind::Into => b"into",
    }
}
