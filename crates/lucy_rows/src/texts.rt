//! Texts with names, and what the signs in a row stand for.
//!
//! `[NAME]` is the text of this name, `[COUNT PIECE]` so many times the piece, in which `%` is the number of the turn from 0,
//! and `[COUNT*NAME]` so many times the text of this name. `\n`, `\r`, `\t` and `\s` are LF, CR, tab and a space.
//! `^` is a mark in what is asked, and its place in what is answered.

use crate::trouble::Trouble;
use std::alloc::{AllocError, Global};

#[derive(Drop)]
struct Text {
    name: String,
    text: String,
    lines: usize,
}

/// Texts with names.
#[derive(Drop)]
pub struct Texts {
    texts: Vec<Text>,
}

/// What a `^` is.
#[derive(Clone, Copy)]
pub enum Mark {
    /// A mark, with the place of the last one.
    Is(Option<usize>),
    /// Stands for the place of a mark, where there is one.
    StandsFor(Option<usize>),
}

impl Texts {
    /// No texts.
    pub fn new(alloc: Global) -> Texts {
        Texts {
            texts: Vec::new(alloc),
        }
    }

    /// Adds an empty text.
    pub fn begin(&mut self, alloc: Global, name: &str) -> Result<(), AllocError> {
        let name = String::from_str(alloc, name)?;
        self.texts.push(Text {
            name,
            text: String::new(alloc),
            lines: 0,
        })?;
        Ok(())
    }

    /// Adds a line to the last text; a LF stands between two.
    pub fn add_line(&mut self, line: &str) -> Result<(), Trouble> {
        match self.texts.last_mut() {
            Some(last) => add_line(last, line)?,
            None => return Err(Trouble::NotUnderstood),
        }
        Ok(())
    }

    /// The text of a name.
    pub fn find(&self, name: &str) -> Result<&str, Trouble> {
        for text in self.texts.iter() {
            if text.name.as_str() == name {
                return Ok(text.text.as_str());
            }
        }
        Err(Trouble::NotUnderstood)
    }
}

fn add_line(text: &mut Text, line: &str) -> Result<(), AllocError> {
    if text.lines > 0 {
        text.text.push_str("\n")?;
    }
    text.lines = text.lines.saturating_add(1);
    text.text.push_str(line)
}

// What stands for a sign and what follows it.
fn put_sign(out: &mut String, sign: &str) -> Result<(), Trouble> {
    if let Some(rest) = sign.strip_prefix("n") {
        out.push_str("\n")?;
        out.push_str(rest)?;
    } else if let Some(rest) = sign.strip_prefix("r") {
        out.push_str("\r")?;
        out.push_str(rest)?;
    } else if let Some(rest) = sign.strip_prefix("t") {
        out.push_str("\t")?;
        out.push_str(rest)?;
    } else if let Some(rest) = sign.strip_prefix("s") {
        out.push_str(" ")?;
        out.push_str(rest)?;
    } else {
        return Err(Trouble::NotUnderstood);
    }
    Ok(())
}

// A text with its signs, but no marks and no brackets.
fn put_plain(out: &mut String, text: &str) -> Result<(), Trouble> {
    let mut pieces = text.split('\\');
    if let Some(first) = pieces.next() {
        out.push_str(first)?;
    }
    for piece in pieces {
        put_sign(out, piece)?;
    }
    Ok(())
}

fn put_number(out: &mut String, alloc: Global, number: usize) -> Result<(), AllocError> {
    let digits = number.to_string(alloc)?;
    out.push_str(&digits)
}

// A mark is noted, or its place put.
fn put_mark(out: &mut String, alloc: Global, mark: Mark) -> Result<Mark, Trouble> {
    match mark {
        Mark::Is(_) => Ok(Mark::Is(Some(out.len()))),
        Mark::StandsFor(None) => Err(Trouble::NotUnderstood),
        Mark::StandsFor(Some(place)) => {
            put_number(out, alloc, place)?;
            Ok(mark)
        }
    }
}

// A text without brackets.
fn put_marked(out: &mut String, alloc: Global, text: &str, mark: Mark) -> Result<Mark, Trouble> {
    let mut mark = mark;
    let mut pieces = text.split('^');
    if let Some(first) = pieces.next() {
        put_plain(out, first)?;
    }
    for piece in pieces {
        mark = put_mark(out, alloc, mark)?;
        put_plain(out, piece)?;
    }
    Ok(mark)
}

// A piece of the turn of this number.
fn put_turn(out: &mut String, alloc: Global, piece: &str, turn: usize) -> Result<(), Trouble> {
    let mut parts = piece.split('%');
    if let Some(first) = parts.next() {
        put_plain(out, first)?;
    }
    for part in parts {
        put_number(out, alloc, turn)?;
        put_plain(out, part)?;
    }
    Ok(())
}

fn put_turns(out: &mut String, alloc: Global, piece: &str, count: &str) -> Result<(), Trouble> {
    let Ok(count) = count.parse::<usize>() else {
        return Err(Trouble::NotUnderstood);
    };
    for turn in 0..count {
        put_turn(out, alloc, piece, turn)?;
    }
    Ok(())
}

// So many times the text of a name.
fn put_copies(out: &mut String, texts: &Texts, name: &str, count: &str) -> Result<(), Trouble> {
    let Ok(count) = count.parse::<usize>() else {
        return Err(Trouble::NotUnderstood);
    };
    let text = texts.find(name)?;
    for _turn in 0..count {
        out.push_str(text)?;
    }
    Ok(())
}

fn put_named(out: &mut String, texts: &Texts, inner: &str) -> Result<(), Trouble> {
    match inner.split_once('*') {
        Some((count, name)) => put_copies(out, texts, name, count),
        None => put_copies(out, texts, inner, "1"),
    }
}

// What stands between brackets.
fn put_bracket(out: &mut String, alloc: Global, texts: &Texts, inner: &str) -> Result<(), Trouble> {
    match inner.split_once(' ') {
        Some((count, piece)) => put_turns(out, alloc, piece, count),
        None => put_named(out, texts, inner),
    }
}

/// Appends what a text stands for. The answer is the mark.
pub fn put(
    out: &mut String,
    alloc: Global,
    texts: &Texts,
    text: &str,
    mark: Mark,
) -> Result<Mark, Trouble> {
    let mut pieces = text.split('[');
    let mut mark = mark;
    if let Some(first) = pieces.next() {
        mark = put_marked(out, alloc, first, mark)?;
    }
    for piece in pieces {
        let Some((inner, rest)) = piece.split_once(']') else {
            return Err(Trouble::NotUnderstood);
        };
        put_bracket(out, alloc, texts, inner)?;
        mark = put_marked(out, alloc, rest, mark)?;
    }
    Ok(mark)
}
