//! The tree of a text.

ghost use Rattle.std.specs.Prelude.{◌≡◌, ◌≢◌, length, OnOk, IfErr};
ghost use Rattle.lucy_syntax.specs.Input.{Reads};
ghost use Rattle.lucy_syntax.specs.Parsing as spec;

use crate::cursor::Cursor;
use crate::error::{SyntaxError, refused};
use crate::plans::plan;
use lucy_lexer::{LexError, Token, lex};
use lucy_tree::Tree;
use std::alloc::Global;

/// The tree of a text's tokens.
#[tactic(auto, unfolding(crate::specs::Parsing::read, crate::specs::Input::peek, crate::specs::Input::here, crate::specs::Input::refusal))]
fn read(alloc: Global, text: &[u8], tokens: &[Token]) -> Result<Tree, SyntaxError>
    ensures { spec.Parses result (spec.read text.now tokens.now) }
{
    let mut cursor = Cursor::new(text, tokens);
    let tree = plan(alloc, &mut cursor)?;
    match cursor.peek() {
        None => Ok(tree),
        Some(_) => refused(tree, cursor.refuse()),
    }
}

/// The tree of a plan text, or why it has none. Takes time linear in the text.
///
/// # Errors
///
/// `Lex` where the text cannot be read as tokens; `TooDeep` where the reading comes to a `(` of a condition, a `not`, a `=>` or a
/// `pair` while 64 of them are open; `Syntax` where it stops at another place, which is the start of the token that cannot
/// stand there or the text's length; `OutOfMemory`.
#[tactic(auto, unfolding(crate::specs::Parsing::tree_of))]
pub fn parse(alloc: Global, text: &[u8]) -> Result<Tree, SyntaxError>
    ensures { spec.Parses result (spec.tree_of text.now) }
{
    match lex(alloc, text) {
        Ok(tokens) => read(alloc, text, &tokens),
        Err(LexError::OutOfMemory) => Err(SyntaxError::OutOfMemory),
        Err(error) => Err(SyntaxError::Lex(error)),
    }
}
