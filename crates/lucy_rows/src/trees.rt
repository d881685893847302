//! Questions about trees: how their parts are grouped, and the places that they keep.

use crate::trouble::Trouble;
use crate::words::put_numbered;
use lucy_syntax::{SyntaxError, parse};
use lucy_tree::{Cond, Conj, Disj, Extreme, Field, Span, Tree, Unary};
use std::alloc::{AllocError, Global};

fn put_flag(out: &mut String, unary: &Unary) -> Result<(), Trouble> {
    match unary {
        Unary::Flag(path) if path.others.is_empty() => {
            crate::words::put_bytes(out, path.first.text.as_slice())
        }
        _ => Err(Trouble::NotUnderstood),
    }
}

fn put_unary(out: &mut String, unary: &Unary) -> Result<(), Trouble> {
    match unary {
        Unary::Not { inner, .. } => {
            out.push_str("not ")?;
            put_flag(out, inner.get())
        }
        other => put_flag(out, other),
    }
}

fn put_conj(out: &mut String, conj: &Conj) -> Result<(), Trouble> {
    if conj.others.is_empty() {
        return put_unary(out, &conj.first);
    }
    out.push_str("(")?;
    put_unary(out, &conj.first)?;
    for other in conj.others.as_slice() {
        out.push_str(" and ")?;
        put_unary(out, &other.item)?;
    }
    out.push_str(")")?;
    Ok(())
}

fn put_disj(out: &mut String, disj: &Disj) -> Result<(), Trouble> {
    if disj.others.is_empty() {
        return put_conj(out, &disj.first);
    }
    out.push_str("(")?;
    put_conj(out, &disj.first)?;
    for other in disj.others.as_slice() {
        out.push_str(" or ")?;
        put_conj(out, &other.item)?;
    }
    out.push_str(")")?;
    Ok(())
}

fn put_cond(out: &mut String, cond: &Cond) -> Result<(), Trouble> {
    put_disj(out, &cond.left)?;
    if let Some(right) = &cond.implied {
        out.push_str(" => (")?;
        put_cond(out, right.item.get())?;
        out.push_str(")")?;
    }
    Ok(())
}

fn put_span(out: &mut String, alloc: Global, words: &str, span: Span) -> Result<(), AllocError> {
    put_numbered(out, alloc, words, span.start as u64)?;
    put_numbered(out, alloc, "", span.end as u64)
}

// The places of a `min`'s name and dots.
fn put_field(out: &mut String, alloc: Global, field: &Field) -> Result<(), Trouble> {
    match field {
        Field::Number {
            extreme: Extreme::Min,
            name,
            bounds,
            ..
        } => {
            put_span(out, alloc, ", name", name.span)?;
            put_span(out, alloc, ", dots", bounds.dots)?;
            Ok(())
        }
        _ => Err(Trouble::NotUnderstood),
    }
}

// The places of the version, the end, and each field.
fn put_places(out: &mut String, alloc: Global, tree: &Tree) -> Result<(), Trouble> {
    put_span(out, alloc, "version", tree.version.span)?;
    put_span(out, alloc, ", end", tree.end_word)?;
    for field in tree.object.fields.as_slice() {
        put_field(out, alloc, field)?;
    }
    Ok(())
}

/// What is told of a tree.
#[derive(Clone, Copy)]
pub enum Part {
    /// How its invariant is grouped.
    Groups,
    /// Where its version, its end and its fields stand.
    Places,
}

fn put_part(out: &mut String, alloc: Global, part: Part, tree: &Tree) -> Result<(), Trouble> {
    match part {
        Part::Groups => put_cond(out, &tree.invariant.cond),
        Part::Places => put_places(out, alloc, tree),
    }
}

/// What is told of the tree of a plan text.
pub fn told(out: &mut String, alloc: Global, part: Part, text: &str) -> Result<(), Trouble> {
    match parse(alloc, text.as_bytes()) {
        Ok(tree) => {
            let put = put_part(out, alloc, part, &tree);
            drop(tree);
            put
        }
        Err(SyntaxError::OutOfMemory) => Err(Trouble::OutOfMemory),
        Err(_) => Err(Trouble::NotUnderstood),
    }
}
