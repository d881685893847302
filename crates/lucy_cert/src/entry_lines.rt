//! The lines of a certificate, each by itself.

ghost use Rattle.std.specs.Prelude.{◌≡◌, ◌++◌, ◌∷◌, [], false, bytes_eq, option_map, IfOk};
ghost use Rattle.lucy_cert.specs.Entries as spec;
ghost use Rattle.lucy_cert.specs.Lefts.{left};

use crate::cutting::Pieces;
use crate::entries::Entry;
use crate::names::PartName;
use crate::numbers::ClauseNumbers;
use crate::tokens::{read_bound, read_part, read_positive, read_ref, read_segment, read_u64};
use lucy_clauses::{Atom, Clause, Line, Part, Times};
use sqlite_items::Items;
use std::alloc::{AllocError, Global};

fn is_word(piece: &[u8], word: &[u8]) -> bool
    ensures { result ≡ bytes_eq piece.now word.now }
{
    piece == word
}

// What is left behind a word, which is to be this one.
fn behind<'a>(word: &[u8], pieces: Pieces<'a>) -> Option<Pieces<'a>>
    ensures { option_map (λ p. left p) result ≡ spec.behind word.now (left pieces.entry) }
{
    let (piece, rest) = pieces.next_piece()?;
    if is_word(piece, word) {
        Some(rest)
    } else {
        None
    }
}

// What was said, where no piece is left.
fn at_end(entry: Entry, pieces: Pieces<'_>) -> Option<Entry>
    ensures { result ≡ spec.at_end entry (left pieces.entry) }
{
    match pieces.next_piece() {
        None => Some(entry),
        Some(_) => None,
    }
}

// The one piece that is left.
fn last_piece<'a>(pieces: Pieces<'a>) -> Option<&'a [u8]>
    ensures { option_map (λ p. p.now) result ≡ spec.last_piece (left pieces.entry) }
{
    let (piece, rest) = pieces.next_piece()?;
    match rest.next_piece() {
        None => Some(piece),
        Some(_) => None,
    }
}

// ---- lists of numbers

fn counts_in(alloc: Global, pieces: Pieces<'_>) -> Result<Option<Items<u64>>, AllocError>
    ensures { IfOk result (λ o. o ≡ spec.counts_of [] (left pieces.entry)) }
{
    let mut found = Items::new(alloc);
    let mut rest = pieces;
    while let Some((piece, after)) = rest.next_piece() {
        let Some(number) = read_u64(piece) else {
            return Ok(None);
        };
        found.push(number)?;
        rest = after;
    }
    Ok(Some(found))
}

// ---- clauses

// The atoms of a clause, and what is left behind it.
#[derive(Drop)]
struct FoundClause<'a> {
    atoms: Items<Atom>,
    rest: Pieces<'a>,
}

// Atoms with one more behind them. `None` where that is not in normal form.
fn with_atom(
    atoms: Items<Atom>,
    parts: Vec<Part>,
    bound: i128,
) -> Result<Option<Items<Atom>>, AllocError>
    ensures { IfOk result (λ o. o ≡ option_map (λ t. atoms ++ t ∷ []) (spec.atom_of parts.items bound)) }
{
    let Some(atom) = Atom::from_parts(parts, bound) else {
        return Ok(None);
    };
    let mut more = atoms;
    more.push(atom)?;
    Ok(Some(more))
}

fn atoms_in<'a>(alloc: Global, pieces: Pieces<'a>) -> Result<Option<FoundClause<'a>>, AllocError>
    ensures { IfOk result (λ o. option_map (λ f. (f.atoms, left f.rest)) o ≡ spec.atoms_of false [] [] (left pieces.entry)) }
{
    let mut atoms = Items::new(alloc);
    let mut parts = Vec::new(alloc);
    let mut rest = pieces;
    while let Some((piece, after)) = rest.next_piece() {
        if is_word(piece, b"<=") {
            let Some((text, behind_bound)) = after.next_piece() else {
                return Ok(None);
            };
            let Some(bound) = read_bound(text) else {
                return Ok(None);
            };
            let Some(more) = with_atom(atoms, parts, bound.bound)? else {
                return Ok(None);
            };
            if !bound.more {
                return Ok(Some(FoundClause {
                    atoms: more,
                    rest: behind_bound,
                }));
            }
            atoms = more;
            parts = Vec::new(alloc);
            rest = behind_bound;
        } else {
            let Some(part) = read_part(piece) else {
                return Ok(None);
            };
            parts.push(part)?;
            rest = after;
        }
    }
    Ok(None)
}

// A clause without an atom has no piece: the line ends, or the word `by` follows.
fn clause_in<'a>(alloc: Global, pieces: Pieces<'a>) -> Result<Option<FoundClause<'a>>, AllocError>
    ensures { IfOk result (λ o. option_map (λ f. (f.atoms, left f.rest)) o ≡ spec.clause_of (left pieces.entry)) }
{
    let is_over = match pieces.next_piece() {
        None => true,
        Some((piece, _)) => is_word(piece, b"by"),
    };
    if is_over {
        return Ok(Some(FoundClause {
            atoms: Items::new(alloc),
            rest: pieces,
        }));
    }
    atoms_in(alloc, pieces)
}

// ---- lines of derivations

fn times_of(by: &[u8], of: &[u8]) -> Option<Times>
    ensures { result ≡ spec.times_of by.now of.now }
{
    let by = read_positive(by)?;
    let of = read_ref(of)?;
    Some(Times { by, of })
}

fn sum_terms(alloc: Global, pieces: Pieces<'_>) -> Result<Option<Items<Times>>, AllocError>
    ensures { IfOk result (λ o. o ≡ spec.sum_of [] (left pieces.entry)) }
{
    let mut found = Items::new(alloc);
    let mut rest = pieces;
    while let Some((by, after)) = rest.next_piece() {
        let Some((of, behind_both)) = after.next_piece() else {
            return Ok(None);
        };
        let Some(times) = times_of(by, of) else {
            return Ok(None);
        };
        found.push(times)?;
        rest = behind_both;
    }
    Ok(Some(found))
}

// The two pieces that are left.
fn last_times(pieces: Pieces<'_>) -> Option<Times>
    ensures { result ≡ spec.last_times (left pieces.entry) }
{
    let (by, after) = pieces.next_piece()?;
    let of = last_piece(after)?;
    times_of(by, of)
}

// ---- lines

// `lemma`, and a clause.
fn lemma_in(alloc: Global, pieces: Pieces<'_>) -> Result<Option<Entry>, AllocError>
    ensures { IfOk result (λ o. o ≡ spec.lemma_in (left pieces.entry)) }
{
    let Some(FoundClause { atoms, rest }) = clause_in(alloc, pieces)? else {
        return Ok(None);
    };
    Ok(at_end(Entry::Lemma(Clause { atoms }), rest))
}

// `rup`, a clause, `by` and hints.
fn rup_in(alloc: Global, pieces: Pieces<'_>) -> Result<Option<Entry>, AllocError>
    ensures { IfOk result (λ o. o ≡ spec.rup_in (left pieces.entry)) }
{
    let Some(FoundClause { atoms, rest }) = clause_in(alloc, pieces)? else {
        return Ok(None);
    };
    let Some(hints) = behind(b"by", rest) else {
        return Ok(None);
    };
    let Some(hints) = counts_in(alloc, hints)? else {
        return Ok(None);
    };
    Ok(Some(Entry::Rup {
        clause: Clause { atoms },
        hints,
    }))
}

fn droppable(numbers: Items<u64>) -> Option<Entry>
    ensures { result ≡ spec.droppable numbers }
{
    let numbers = ClauseNumbers::new(numbers)?;
    Some(Entry::Drop(numbers))
}

// `drop`, and numbers that ascend.
fn drop_in(alloc: Global, pieces: Pieces<'_>) -> Result<Option<Entry>, AllocError>
    ensures { IfOk result (λ o. o ≡ spec.drop_in (left pieces.entry)) }
{
    let Some(numbers) = counts_in(alloc, pieces)? else {
        return Ok(None);
    };
    Ok(droppable(numbers))
}

// `+`, and inequalities with multipliers.
fn sum_in(alloc: Global, pieces: Pieces<'_>) -> Result<Option<Entry>, AllocError>
    ensures { IfOk result (λ o. o ≡ spec.sum_in (left pieces.entry)) }
{
    let Some(terms) = sum_terms(alloc, pieces)? else {
        return Ok(None);
    };
    Ok(Some(Entry::Derivation(Line::Sum(terms))))
}

// `/`, a divisor and an inequality.
fn quotient_in(pieces: Pieces<'_>) -> Option<Entry>
    ensures { result ≡ spec.quotient_in (left pieces.entry) }
{
    let Times { by, of } = last_times(pieces)?;
    Some(Entry::Derivation(Line::Divide { by, of }))
}

fn closure_in(pieces: Pieces<'_>) -> Option<Entry>
    ensures { result ≡ spec.closure_in (left pieces.entry) }
{
    let piece = last_piece(pieces)?;
    let segment = read_segment(piece)?;
    Some(Entry::Part(PartName::Closure(segment)))
}

// `part`, and its name.
fn part_in(pieces: Pieces<'_>) -> Option<Entry>
    ensures { result ≡ spec.part_in (left pieces.entry) }
{
    let (word, rest) = pieces.next_piece()?;
    if is_word(word, b"cover") {
        at_end(Entry::Part(PartName::Cover), rest)
    } else if is_word(word, b"closure") {
        closure_in(rest)
    } else {
        None
    }
}

fn live_in(pieces: Pieces<'_>) -> Option<Entry>
    ensures { result ≡ spec.live_in (left pieces.entry) }
{
    let rest = behind(b"live", pieces)?;
    let piece = last_piece(rest)?;
    let live = read_u64(piece)?;
    Some(Entry::Header(Some(live)))
}

// The version, and what the second one allows.
fn version_in(pieces: Pieces<'_>) -> Option<Entry>
    ensures { result ≡ spec.version_in (left pieces.entry) }
{
    let (word, rest) = pieces.next_piece()?;
    if is_word(word, b"1") {
        at_end(Entry::Header(None), rest)
    } else if is_word(word, b"2") {
        live_in(rest)
    } else {
        None
    }
}

// `lucy certificate`, and the version.
fn header_in(pieces: Pieces<'_>) -> Option<Entry>
    ensures { result ≡ spec.header_in (left pieces.entry) }
{
    let rest = behind(b"certificate", pieces)?;
    version_in(rest)
}

fn frame_in(word: &[u8], pieces: Pieces<'_>) -> Option<Entry>
    ensures { result ≡ spec.frame_in word.now (left pieces.entry) }
{
    if is_word(word, b"part") {
        part_in(pieces)
    } else if is_word(word, b"lucy") {
        header_in(pieces)
    } else if is_word(word, b"end") {
        at_end(Entry::End, pieces)
    } else {
        None
    }
}

fn step_in(alloc: Global, word: &[u8], pieces: Pieces<'_>) -> Result<Option<Entry>, AllocError>
    ensures { IfOk result (λ o. o ≡ spec.step_in word.now (left pieces.entry)) }
{
    if is_word(word, b"rup") {
        rup_in(alloc, pieces)
    } else if is_word(word, b"lemma") {
        lemma_in(alloc, pieces)
    } else if is_word(word, b"drop") {
        drop_in(alloc, pieces)
    } else {
        Ok(frame_in(word, pieces))
    }
}

fn line_in(alloc: Global, word: &[u8], pieces: Pieces<'_>) -> Result<Option<Entry>, AllocError>
    ensures { IfOk result (λ o. o ≡ spec.line_in word.now (left pieces.entry)) }
{
    if is_word(word, b"+") {
        sum_in(alloc, pieces)
    } else if is_word(word, b"/") {
        Ok(quotient_in(pieces))
    } else if is_word(word, b"qed") {
        Ok(at_end(Entry::Qed, pieces))
    } else {
        step_in(alloc, word, pieces)
    }
}

/// What a line says by itself. `None` exactly where it has no form of a line.
#[tactic(auto, unfolding(crate::specs::Entries::entry_of))]
pub fn read_entry(alloc: Global, line: &[u8]) -> Result<Option<Entry>, AllocError>
    ensures { IfOk result (λ o. o ≡ spec.entry_of line.now) }
{
    match Pieces::new(line).next_piece() {
        None => Ok(None),
        Some((word, rest)) => line_in(alloc, word, rest),
    }
}
