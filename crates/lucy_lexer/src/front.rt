//! What stands at the front of a text.

ghost use Rattle.std.specs.Prelude.{◌≡◌, ◌<◌, ◌≤◌, length, map, slice_index, true, OnSome};
ghost use Rattle.lucy_lexer.specs.Bytes as bytes;
ghost use Rattle.lucy_lexer.specs.Front as spec;

use crate::bytes::{Class, is_in, number, run};
use crate::token::{PAIR_SIGNS, SINGLE_SIGNS, TokenKind, WORDS};

/// What stands at the front, with its length in bytes, or why no token does.
#[derive(Clone, Copy, Debug)]
pub enum Front {
    /// A blank or a comment.
    Skipped(usize),
    Found(TokenKind, usize),
    BadByte,
    LongNumber,
    LongName,
}

/// The length of the longest name, in bytes.
const LONGEST_NAME: usize = 64;

/// The kind of a word in a table of words.
fn lookup(mut table: &[(&[u8], TokenKind)], word: &[u8]) -> Option<TokenKind>
    ensures { result ≡ spec.lookup (map (λ e. (e.0.now, e.1)) table.entry.now) word.now }
{
    while let [entry, rest @ ..] = table {
        if entry.0 == word {
            return Some(entry.1);
        }
        table = rest;
    }
    None
}

/// The kind of a reserved word.
#[tactic(auto, unfolding(crate::specs::Front::reserved))]
fn reserved(word: &[u8]) -> Option<TokenKind>
    ensures { result ≡ spec.reserved word.now }
{
    lookup(&WORDS, word)
}

/// The name or the reserved word at the front.
#[tactic(auto, unfolding(crate::specs::Front::word))]
fn word(text: &[u8]) -> Front
    requires some { 0 < length text.now }
    requires letter { bytes.is_in Class.Letter (slice_index text.now 0) ≡ true }
    ensures value { result ≡ spec.word text.now }
    ensures within { spec.IsWithin text.now result }
{
    let len = run(Class::WordByte, text);
    match reserved(&text[..len]) {
        Some(kind) => Front::Found(kind, len),
        None => {
            if len <= LONGEST_NAME {
                Front::Found(TokenKind::Name, len)
            } else {
                Front::LongName
            }
        }
    }
}

/// The number at the front.
#[tactic(auto, unfolding(crate::specs::Front::digits))]
fn digits(text: &[u8]) -> Front
    requires some { 0 < length text.now }
    requires digit { bytes.is_in Class.Digit (slice_index text.now 0) ≡ true }
    ensures value { result ≡ spec.digits text.now }
    ensures within { spec.IsWithin text.now result }
{
    let len = run(Class::Digit, text);
    match number(&text[..len]) {
        Some(value) => Front::Found(TokenKind::Number(value), len),
        None => Front::LongNumber,
    }
}

/// The sign of two bytes at the front.
#[tactic(auto, unfolding(crate::specs::Front::pair_sign))]
fn pair_sign(text: &[u8]) -> Option<TokenKind>
    ensures value { result ≡ spec.pair_sign text.now }
    ensures within { OnSome result (2 ≤ length text.now) }
{
    match text {
        [first, second, ..] => lookup(&PAIR_SIGNS, &[*first, *second]),
        _ => None,
    }
}

/// The longest sign at the front.
#[tactic(auto, unfolding(crate::specs::Front::sign))]
fn sign(text: &[u8]) -> Front
    requires { 0 < length text.now }
    ensures value { result ≡ spec.sign text.now }
    ensures within { spec.IsWithin text.now result }
{
    match pair_sign(text) {
        Some(kind) => Front::Found(kind, 2),
        None => match lookup(&SINGLE_SIGNS, &[text[0]]) {
            Some(kind) => Front::Found(kind, 1),
            None => Front::BadByte,
        },
    }
}

/// The length of the comment at the front, with the LF that ends it.
#[tactic(auto, unfolding(crate::specs::Front::comment_len))]
fn comment_len(text: &[u8]) -> usize
    requires some { 0 < length text.now }
    requires begun { slice_index text.now 0 ≡ 35 }
    ensures value { result ≡ spec.comment_len text.now }
    ensures positive { 0 < result }
    ensures within { result ≤ length text.now }
{
    let line = run(Class::InLine, text);
    if line < text.len() { line + 1 } else { line }
}

/// What stands at the front of a text that is not empty.
#[tactic(auto, unfolding(crate::specs::Front::foremost))]
pub fn foremost(text: &[u8]) -> Front
    requires { 0 < length text.now }
    ensures value { result ≡ spec.foremost text.now }
    ensures within { spec.IsWithin text.now result }
{
    let first = text[0];
    if is_in(Class::Blank, first) {
        Front::Skipped(1)
    } else if first == b'#' {
        Front::Skipped(comment_len(text))
    } else if is_in(Class::Letter, first) {
        word(text)
    } else if is_in(Class::Digit, first) {
        digits(text)
    } else {
        sign(text)
    }
}
