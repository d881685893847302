//! The fields of a line.

ghost use Rattle.std.specs.Prelude.{◌≡◌, ◌∷◌, [], ◌<◌, map, length, IfOk, IfSome, MatchOption, bytes_eq};
ghost use Rattle.lucy_calls.specs.Fields as spec;
ghost use Rattle.lucy_io.specs.Outcomes.{Answers};
ghost use Rattle.lucy_calls.specs.declared.error.CallsError.TheVariants.{OutOfMemory};

use crate::error::CallsError;
use crate::lines::Line;
use std::alloc::{AllocError, Global};

/// Whether a field is this word.
pub fn is_word(field: &[u8], word: &[u8]) -> bool
    ensures { result ≡ bytes_eq field.now word.now }
{
    field == word
}

// What stands before the first space, and what stands behind it.
fn first_piece(text: &[u8]) -> Option<(&[u8], &[u8])>
    ensures pieces { MatchOption result (spec.pieces text.now ≡ text.now ∷ []) (λ p. spec.pieces text.now ≡ p.0.now ∷ spec.pieces p.1.now) }
    ensures shorter { IfSome result (λ p. length p.1.now < length text.now) }
{
    for (i, byte) in text.iter().enumerate() {
        if *byte == b' ' {
            return Some((&text[..i], &text[i + 1..]));
        }
    }
    None
}

// What stands between spaces.
fn words<'a>(alloc: Global, line: &'a [u8]) -> Result<Vec<&'a [u8]>, AllocError>
    ensures { IfOk result (λ v. map (λ w. w.now) v.items ≡ spec.words line.now) }
{
    let mut words = Vec::new(alloc);
    let mut rest = line;
    while let Some((piece, after)) = first_piece(rest) {
        if !piece.is_empty() {
            words.push(piece)?;
        }
        rest = after;
    }
    if !rest.is_empty() {
        words.push(rest)?;
    }
    Ok(words)
}

fn begins_spaced(line: &[u8]) -> bool
    ensures { result ≡ spec.begins_spaced line.now }
{
    match line {
        [] => false,
        [byte, ..] => *byte == b' ',
    }
}

fn ends_spaced(line: &[u8]) -> bool
    ensures { result ≡ spec.ends_spaced line.now }
{
    match line {
        [.., byte] => *byte == b' ',
        [] => false,
    }
}

fn has_tab(line: &[u8]) -> bool
    ensures { result ≡ spec.has_tab line.now }
{
    line.iter().any(|byte| *byte == b'\t')
}

/// Whether a line neither begins nor ends with a space, and has no tab.
fn is_even(line: &[u8]) -> bool
    ensures { result ≡ spec.is_even line.now }
{
    !(begins_spaced(line) || ends_spaced(line) || has_tab(line))
}

/// The fields of a line. `BadLine` where it begins or ends with a space, or has a tab.
#[tactic(auto, unfolding(crate::specs::Fields::fields_of))]
pub fn read_fields<'a>(alloc: Global, line: Line<'a>) -> Result<Vec<&'a [u8]>, CallsError>
    ensures { Answers OutOfMemory (λ v. map (λ w. w.now) v.items) (spec.fields_of line.entry.number line.entry.bytes.now) result }
{
    if !is_even(line.bytes) {
        return Err(CallsError::BadLine(line.number));
    }
    let found = words(alloc, line.bytes)?;
    Ok(found)
}

fn is_heading(word: &[u8], fields: &[&[u8]]) -> bool
    ensures { result ≡ spec.is_heading word.now (map (λ f. f.now) fields.now) }
{
    match fields {
        [first, version] => is_word(first, word) && is_word(version, b"1"),
        _ => false,
    }
}

/// `Ok` where the line is this word and the version 1.
#[tactic(auto, unfolding(crate::specs::Fields::heading))]
pub fn read_heading(alloc: Global, word: &[u8], line: Line<'_>) -> Result<(), CallsError>
    ensures { Answers OutOfMemory (λ u. u) (spec.heading word.now line.entry.number line.entry.bytes.now) result }
{
    let found = read_fields(alloc, line)?;
    if is_heading(word, found.as_slice()) {
        Ok(())
    } else {
        Err(CallsError::BadLine(line.number))
    }
}
