//! The lines of a text.

ghost use Rattle.std.specs.Prelude.{◌≡◌, ◌≢◌, ℕ, ◌+◌, ◌<◌, ◌^◌, List, [], ◌∷◌, ◌++◌, length, All, IfOk, MatchOption, MatchResult};
ghost use Rattle.lucy_calls.specs.Lines as lines;

use crate::error::CallsError;
use lucy_plan::What;

/// A line that is not skipped, and its number.
#[derive(Clone, Copy)]
pub struct Line<'a> {
    pub number: u64,
    pub bytes: &'a [u8],
}

/// What is left of a text, and the number of its next line.
#[derive(Clone, Copy)]
pub struct Lines<'a> {
    number: u64,
    rest: &'a [u8],
    ghost few: { number + length rest.now < 2 ^ 64 },
}

/// `Ok` where a text has at most so many bytes, else `Limit`.
#[tactic(auto, unfolding(crate::specs::Lines::within_bytes))]
pub fn within_bytes(most: u32, text: &[u8]) -> Result<(), CallsError>
    ensures { result ≡ lines.within_bytes most text.now }
{
    if text.len() > most as usize {
        Err(CallsError::Limit {
            what: What::Bytes,
            count: u64::from(most) + 1,
        })
    } else {
        Ok(())
    }
}

// The first line, and the bytes behind it.
fn first_line(text: &[u8]) -> Option<(&[u8], &[u8])>
    ensures lines { MatchOption result (text.now ≡ []) (λ p. lines.lines_of text.now ≡ p.0.now ∷ lines.lines_of p.1.now) }
    ensures shorter { MatchOption result (text.now ≡ []) (λ p. length p.1.now < length text.now) }
{
    if text.is_empty() {
        return None;
    }
    for (i, byte) in text.iter().enumerate() {
        if *byte == b'\n' {
            return Some((without_return(&text[..i]), &text[i + 1..]));
        }
    }
    Some((text, &[]))
}

// A line without the CR that stands before its LF.
fn without_return(line: &[u8]) -> &[u8]
    ensures { (rest : List ℕ) → All (λ b. b ≢ 10) line.now → lines.lines_of (line.now ++ 10 ∷ rest) ≡ result.now ∷ lines.lines_of rest }
{
    match line.strip_suffix(b"\r") {
        Some(front) => front,
        None => line,
    }
}

fn is_skipped(line: &[u8]) -> bool
    ensures { result ≡ lines.is_skipped line.now }
{
    match line {
        [] => true,
        [byte, ..] => *byte == b'#',
    }
}

impl<'a> Lines<'a> {
    ghost use Rattle.lucy_calls.specs.NextLines.{IsNext, left};

    /// The lines of a text, numbered from 1.
    pub fn new(text: &'a [u8]) -> Lines<'a>
        ensures number { result.number ≡ 1 }
        ensures rest { result.rest.now ≡ text.now }
    {
        Lines {
            number: 1,
            rest: text,
        }
    }

    /// The next line that is not skipped, and what is left behind it. It is needed: `BadLine` tells
    /// the number that it would have.
    pub fn next_line(self) -> Result<(Line<'a>, Lines<'a>), CallsError>
        ensures next { IsNext (left self.entry) result }
        ensures shorter { IfOk result (λ p. length p.1.rest.now < length self.entry.rest.now) }
    {
        let mut number = self.number;
        let mut rest = self.rest;
        while let Some((bytes, after)) = first_line(rest) {
            if !is_skipped(bytes) {
                let line = Line { number, bytes };
                let lines = Lines {
                    number: number + 1,
                    rest: after,
                };
                return Ok((line, lines));
            }
            number += 1;
            rest = after;
        }
        Err(CallsError::BadLine(number))
    }

    /// `Ok` where no further line is left that is not skipped.
    pub fn ended(self) -> Result<(), CallsError>
        ensures { result ≡ lines.at_end tt (left self.entry) }
    {
        match self.next_line() {
            Ok((line, _)) => Err(CallsError::BadLine(line.number)),
            Err(_) => Ok(()),
        }
    }
}
