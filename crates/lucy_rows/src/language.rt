//! Questions about the words and the grammar of plans.

use crate::trouble::Trouble;
use crate::words::{put_bytes, put_numbered};
use lucy_lexer::{LexError, Token, TokenKind, is_kind, lex, written};
use lucy_print::print;
use lucy_syntax::{SyntaxError, parse};
use std::alloc::{AllocError, Global};

fn put_lex_fault(out: &mut String, alloc: Global, fault: LexError) -> Result<(), Trouble> {
    let (words, place) = match fault {
        LexError::BadByte(place) => ("byte", place),
        LexError::LongNumber(place) => ("long number", place),
        LexError::LongName(place) => ("long name", place),
        LexError::OutOfMemory => return Err(Trouble::OutOfMemory),
    };
    put_numbered(out, alloc, words, place as u64)?;
    Ok(())
}

fn put_fault(out: &mut String, alloc: Global, fault: SyntaxError) -> Result<(), Trouble> {
    match fault {
        SyntaxError::Lex(fault) => put_lex_fault(out, alloc, fault),
        SyntaxError::Syntax(place) => Ok(put_numbered(out, alloc, "syntax", place as u64)?),
        SyntaxError::TooDeep(place) => Ok(put_numbered(out, alloc, "too deep", place as u64)?),
        SyntaxError::OutOfMemory => Err(Trouble::OutOfMemory),
    }
}

fn fault_of(alloc: Global, text: &[u8]) -> Option<SyntaxError> {
    parse(alloc, text).err()
}

/// Whether a plan text is read, or its first fault.
pub fn tree(out: &mut String, alloc: Global, text: &str) -> Result<(), Trouble> {
    match fault_of(alloc, text.as_bytes()) {
        Some(fault) => put_fault(out, alloc, fault),
        None => Ok(out.push_str("read")?),
    }
}

// Where the last word of a front starts.
fn last_word(front: &[u8]) -> usize {
    let letters = front
        .iter()
        .rev()
        .take_while(|byte| byte.is_ascii_alphanumeric())
        .count();
    front.len().saturating_sub(letters)
}

// The mark of a front that stops at a place: `next` is the byte that follows it.
fn mark_at(front: &[u8], place: usize, next: u8) -> &'static str {
    if place == front.len() {
        return if next == b'\n' { "\n" } else { "." };
    }
    if place == last_word(front) {
        return "^";
    }
    if place == front.len().saturating_sub(1) {
        "<"
    } else {
        "?"
    }
}

// The mark of a front with a fault.
fn mark_of(front: &[u8], fault: Option<SyntaxError>, next: u8) -> &'static str {
    match fault {
        Some(SyntaxError::Syntax(place)) => mark_at(front, place, next),
        Some(SyntaxError::Lex(LexError::BadByte(place)))
            if place == front.len().saturating_sub(1) => { "!" }
        Some(_) => "?",
        None => "r",
    }
}

fn put_front(
    out: &mut String,
    alloc: Global,
    text: &[u8],
    at: usize,
    next: u8,
) -> Result<(), AllocError> {
    match text.get(..at) {
        Some(front) => out.push_str(mark_of(front, fault_of(alloc, front), next)),
        None => out.push_str("?"),
    }
}

/// A mark for each proper front of a plan text, that says where it stops.
pub fn fronts(out: &mut String, alloc: Global, text: &str) -> Result<(), Trouble> {
    let bytes = text.as_bytes();
    for (at, next) in bytes.iter().enumerate() {
        put_front(out, alloc, bytes, at, *next)?;
    }
    Ok(())
}

fn put_kind(out: &mut String, alloc: Global, kind: TokenKind) -> Result<(), Trouble> {
    match kind {
        TokenKind::Name => out.push_str("name")?,
        TokenKind::Number(number) => out.push_str(&number.to_string(alloc)?)?,
        other => put_bytes(out, written(other))?,
    }
    Ok(())
}

// Appends a token and its place.
fn put_token(out: &mut String, alloc: Global, token: &Token) -> Result<(), Trouble> {
    put_kind(out, alloc, token.kind)?;
    put_numbered(out, alloc, "", token.start as u64)?;
    put_numbered(out, alloc, "", token.end as u64)?;
    Ok(())
}

fn put_tokens(out: &mut String, alloc: Global, tokens: &[Token]) -> Result<(), Trouble> {
    for (place, token) in tokens.iter().enumerate() {
        if place > 0 {
            out.push_str(", ")?;
        }
        put_token(out, alloc, token)?;
    }
    Ok(())
}

// Appends how many tokens there are, and the last.
fn put_last(out: &mut String, alloc: Global, tokens: &[Token]) -> Result<(), Trouble> {
    out.push_str(&tokens.len().to_string(alloc)?)?;
    if let Some(last) = tokens.last() {
        out.push_str(" ")?;
        put_token(out, alloc, last)?;
    }
    Ok(())
}

// Whether a token stands on the text of its kind.
fn is_written(text: &[u8], token: &Token) -> bool {
    match text.get(token.start..token.end) {
        Some(bytes) => bytes == written(token.kind) && is_kind(token.kind, token.kind),
        None => false,
    }
}

// Appends the kinds, each with a `?` behind it where it does not stand on its text.
fn put_kinds(
    out: &mut String,
    alloc: Global,
    text: &[u8],
    tokens: &[Token],
) -> Result<(), Trouble> {
    for (place, token) in tokens.iter().enumerate() {
        if place > 0 {
            out.push_str(" ")?;
        }
        out.push_str(&format!(in alloc; "{:?}", token.kind)?)?;
        if !is_written(text, token) {
            out.push_str("?")?;
        }
    }
    Ok(())
}

/// What is told of tokens.
#[derive(Clone, Copy)]
pub enum Listing {
    /// Each of them, with its place.
    All,
    /// How many there are, and the last with its place.
    Last,
    /// The kind of each.
    Kinds,
}

/// The tokens of a text, or its first fault.
pub fn tokens(
    out: &mut String,
    alloc: Global,
    listing: Listing,
    text: &str,
) -> Result<(), Trouble> {
    match lex(alloc, text.as_bytes()) {
        Err(fault) => put_lex_fault(out, alloc, fault),
        Ok(tokens) => match listing {
            Listing::All => put_tokens(out, alloc, &tokens),
            Listing::Last => put_last(out, alloc, &tokens),
            Listing::Kinds => put_kinds(out, alloc, text.as_bytes(), &tokens),
        },
    }
}

// The text of the tree of a text.
fn printed_of(alloc: Global, text: &[u8]) -> Result<Vec<u8>, Trouble> {
    match parse(alloc, text) {
        Ok(tree) => {
            let printed = print(alloc, &tree);
            drop(tree);
            Ok(printed?)
        }
        Err(SyntaxError::OutOfMemory) => Err(Trouble::OutOfMemory),
        Err(_) => Err(Trouble::NotUnderstood),
    }
}

// Whether a printed text is read and printed as it stands.
fn is_kept(alloc: Global, text: &[u8]) -> Result<bool, Trouble> {
    let again = printed_of(alloc, text)?;
    Ok(again.as_slice() == text)
}

/// The text of the tree of a plan text, which is read and printed as it stands.
pub fn printed(out: &mut String, alloc: Global, text: &str) -> Result<(), Trouble> {
    let printed = printed_of(alloc, text.as_bytes())?;
    if !is_kept(alloc, &printed)? {
        out.push_str("printed again it is not: ")?;
    }
    put_bytes(out, &printed)
}

// Whether a line feed stands after a token of this kind, and no space.
fn ends_line(kind: TokenKind) -> bool {
    match kind {
        TokenKind::Semicolon | TokenKind::OpenBrace | TokenKind::CloseBrace | TokenKind::End => {
            true
        }
        _ => false,
    }
}

fn put_laid(out: &mut Vec<u8>, text: &[u8], place: usize, token: &Token) -> Result<(), AllocError> {
    if let Some(bytes) = text.get(token.start..token.end) {
        out.extend_from_slice(bytes)?;
    }
    out.push(if place == 1 || ends_line(token.kind) {
        b'\n'
    } else {
        b' '
    })?;
    Ok(())
}

// The tokens of a plan as they stand in its text, laid out: its second token is its version, and `end` its last.
fn laid_out(alloc: Global, text: &[u8]) -> Result<Vec<u8>, LexError> {
    let tokens = lex(alloc, text)?;
    let mut out = Vec::new(alloc);
    for (place, token) in tokens.iter().enumerate() {
        put_laid(&mut out, text, place, token)?;
    }
    Ok(out)
}

fn is_laid_out(alloc: Global, text: &[u8], printed: &[u8]) -> Result<bool, Trouble> {
    match laid_out(alloc, text) {
        Ok(want) => Ok(want.as_slice() == printed),
        Err(LexError::OutOfMemory) => Err(Trouble::OutOfMemory),
        Err(_) => Err(Trouble::NotUnderstood),
    }
}

/// Whether a plan is printed as its tokens in the layout, and what is printed again as it stands.
pub fn layout(out: &mut String, alloc: Global, text: &str) -> Result<(), Trouble> {
    let printed = printed_of(alloc, text.as_bytes())?;
    let is_right = is_kept(alloc, &printed)? && is_laid_out(alloc, text.as_bytes(), &printed)?;
    if is_right {
        out.push_str("its tokens laid out")?;
        return Ok(());
    }
    put_bytes(out, &printed)
}
