//! The text of segments and of the depth.

ghost use Rattle.std.specs.Prelude.{◌≡◌, ◌++◌, OnOk};
ghost use Rattle.lucy_tree.specs.Words.{each, maybe, chain_words, then_words};
ghost use Rattle.lucy_tree.specs.Spelling as words;
ghost use Rattle.lucy_lexer.specs.declared.token.TokenKind.TheVariants as k;
ghost use Rattle.lucy_print.specs.Layout.{laid, texts, listed_words};

use crate::conditions::put_cond;
use crate::listed::{Listed, put_each};
use crate::marks::{put, put_int, put_name, put_names, put_number};
use lucy_lexer::TokenKind;
use lucy_tree::{Depth, Except, Int, Point, Segment, Then};
use std::alloc::AllocError;

impl Listed for Then<Int> {
    ghost use Rattle.lucy_lexer.specs.declared.token.TokenKind.TheVariants as k;
    ghost use Rattle.lucy_tree.specs.Words.{then_words};
    ghost use Rattle.lucy_tree.specs.Spelling.{int_words};

    ghost words = { then_words k.Comma int_words };

    fn put(&self, out: &mut Vec<u8>) -> Result<(), AllocError> {
        put(out, TokenKind::Comma)?;
        put_int(out, self.item)
    }
}

/// Appends the numbers of a point after the first.
#[tactic(auto, using(crate::proofs::Laying::texts_are))]
fn put_ints(out: &mut Vec<u8>, others: &[Then<Int>]) -> Result<(), AllocError>
    ensures { OnOk result (out.new.items ≡ out.old.items ++ laid (each (then_words k.Comma words.int_words) others.now)) }
{
    put_each(out, others)
}

fn put_point(out: &mut Vec<u8>, point: &Point) -> Result<(), AllocError>
    ensures { OnOk result (out.new.items ≡ out.old.items ++ laid (words.point_words point.now)) }
{
    put(out, TokenKind::OpenParen)?;
    put_int(out, point.numbers.first)?;
    put_ints(out, point.numbers.others.as_slice())?;
    put(out, TokenKind::CloseParen)
}

impl Listed for Point {
    ghost use Rattle.lucy_tree.specs.Spelling.{point_words};

    ghost words = { point_words };

    fn put(&self, out: &mut Vec<u8>) -> Result<(), AllocError> {
        put_point(out, self)
    }
}

fn put_points(out: &mut Vec<u8>, points: &[Point]) -> Result<(), AllocError>
    ensures { OnOk result (out.new.items ≡ out.old.items ++ texts words.point_words points.now) }
{
    put_each(out, points)
}

fn put_except(out: &mut Vec<u8>, except: &Option<Except>) -> Result<(), AllocError>
    ensures { OnOk result (out.new.items ≡ out.old.items ++ laid (maybe words.except_words except.now)) }
{
    match except {
        None => Ok(()),
        Some(except) => {
            put(out, TokenKind::Except)?;
            put_point(out, &except.first)?;
            put_points(out, except.others.as_slice())
        }
    }
}

/// Appends what stands after the condition of a segment.
fn put_listed(out: &mut Vec<u8>, segment: &Segment) -> Result<(), AllocError>
    ensures { OnOk result (out.new.items ≡ out.old.items ++ laid (listed_words segment.now)) }
{
    put_except(out, &segment.except)?;
    put(out, TokenKind::Do)?;
    put_names(out, segment.txns.as_slice())?;
    put(out, TokenKind::Semicolon)
}

fn put_segment(out: &mut Vec<u8>, segment: &Segment) -> Result<(), AllocError>
    ensures { OnOk result (out.new.items ≡ out.old.items ++ laid (words.segment_words segment.now)) }
{
    put(out, TokenKind::Segment)?;
    put_name(out, &segment.name)?;
    put(out, TokenKind::When)?;
    put_cond(out, &segment.cond)?;
    put_listed(out, segment)
}

impl Listed for Segment {
    ghost use Rattle.lucy_tree.specs.Spelling.{segment_words};

    ghost words = { segment_words };

    fn put(&self, out: &mut Vec<u8>) -> Result<(), AllocError> {
        put_segment(out, self)
    }
}

pub fn put_segments(out: &mut Vec<u8>, segments: &[Segment]) -> Result<(), AllocError>
    ensures { OnOk result (out.new.items ≡ out.old.items ++ texts words.segment_words segments.now) }
{
    put_each(out, segments)
}

pub fn put_depth(out: &mut Vec<u8>, depth: &Option<Depth>) -> Result<(), AllocError>
    ensures { OnOk result (out.new.items ≡ out.old.items ++ laid (maybe words.depth_words depth.now)) }
{
    match depth {
        None => Ok(()),
        Some(depth) => {
            put(out, TokenKind::Depth)?;
            put_number(out, depth.number)?;
            put(out, TokenKind::Semicolon)
        }
    }
}
