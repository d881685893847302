//! The text of a tree.

ghost use Rattle.std.specs.Prelude.{◌≡◌, ◌++◌, OnOk, IfOk};
ghost use Rattle.lucy_print.specs.Layout.{laid, printed, words_after};

use crate::marks::{put, put_digits};
use crate::objects::{put_object, put_start};
use crate::plans::{put_invariant, put_txns};
use crate::segments::{put_depth, put_segments};
use lucy_lexer::TokenKind;
use lucy_tree::Tree;
use std::alloc::{AllocError, Global};

/// Appends what stands after the version number.
fn put_parts(out: &mut Vec<u8>, tree: &Tree) -> Result<(), AllocError>
    ensures { OnOk result (out.new.items ≡ out.old.items ++ laid (words_after tree.now)) }
{
    put_object(out, &tree.object)?;
    put_start(out, &tree.start)?;
    put_invariant(out, &tree.invariant)?;
    put_txns(out, tree.txns.as_slice())?;
    put_segments(out, tree.segments.as_slice())?;
    put_depth(out, &tree.depth)?;
    put(out, TokenKind::End)
}

/// The text of a tree: its tokens with one space between any two, and a line's end in place of the space
/// after `;`, `{`, `}`, the version number and the last token.
pub fn print(alloc: Global, tree: &Tree) -> Result<Vec<u8>, AllocError>
    ensures { IfOk result (λ text. text.items ≡ printed tree.now) }
{
    let mut text = Vec::new(alloc);
    put(&mut text, TokenKind::Lucy)?;
    put_digits(&mut text, tree.version.value, b'\n')?;
    put_parts(&mut text, tree)?;
    Ok(text)
}
