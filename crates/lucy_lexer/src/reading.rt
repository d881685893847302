//! All tokens of a text.

ghost use Rattle.lucy_lexer.specs.Reading as spec;

use crate::error::LexError;
use crate::front::{Front, foremost};
use crate::token::Token;
use std::alloc::Global;

/// The tokens of a text, blanks and comments dropped, or the first place at which none can be read.
/// The longest token is taken at each place. Takes time linear in the text.
pub fn lex(alloc: Global, text: &[u8]) -> Result<Vec<Token>, LexError>
    ensures { spec.Lexes result (spec.tokens_of text.now) }
{
    let mut tokens = Vec::new(alloc);
    let mut at = 0;
    'places: while at < text.len() {
        match foremost(&text[at..]) {
            Front::Skipped(len) => at += len,
            Front::Found(kind, len) => {
                tokens.push(Token {
                    kind,
                    start: at,
                    end: at + len,
                })?;
                at += len;
            }
            Front::BadByte => return Err(LexError::BadByte(at)),
            Front::LongNumber => return Err(LexError::LongNumber(at)),
            Front::LongName => return Err(LexError::LongName(at)),
        }
    }
    Ok(tokens)
}
