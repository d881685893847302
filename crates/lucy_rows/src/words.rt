//! Small texts that answers are made of.

use crate::trouble::Trouble;
use std::alloc::{AllocError, Global};

/// Appends words and, behind a space, a number.
pub fn put_numbered(
    out: &mut String,
    alloc: Global,
    words: &str,
    number: u64,
) -> Result<(), AllocError> {
    let digits = number.to_string(alloc)?;
    out.push_str(words)?;
    out.push_str(" ")?;
    out.push_str(&digits)
}

/// Appends a number; a space stands between two.
pub fn put_next(out: &mut String, alloc: Global, number: i128) -> Result<(), AllocError> {
    let digits = number.to_string(alloc)?;
    if !out.is_empty() {
        out.push_str(" ")?;
    }
    out.push_str(&digits)
}

/// Appends a text that is given as bytes.
pub fn put_bytes(out: &mut String, bytes: &[u8]) -> Result<(), Trouble> {
    match str::from_utf8(bytes) {
        Ok(text) => Ok(out.push_str(text)?),
        Err(_) => Err(Trouble::NotUnderstood),
    }
}

/// A text before the first bar and behind it.
pub fn parted(text: &str) -> Result<(&str, &str), Trouble> {
    match text.split_once(" | ") {
        Some(parts) => Ok(parts),
        None => Err(Trouble::NotUnderstood),
    }
}
