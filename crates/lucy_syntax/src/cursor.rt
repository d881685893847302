//! A place in the list of tokens.

ghost use Rattle.std.specs.Prelude.{◌≡◌, ◌<◌, Ok, OnOk, length};
ghost use Rattle.std.specs.List.{list_any};
ghost use Rattle.lucy_lexer.specs.Kind as lexer;
ghost use Rattle.lucy_syntax.specs.Input as spec;
ghost use Rattle.lucy_syntax.specs.Input.{Reads};

use crate::error::SyntaxError;
use lucy_lexer::{Token, TokenKind, is_kind};
use lucy_tree::{Name, Number, Span};
use sqlite_items::Items;
use std::alloc::Global;
use std::marker::Model;

/// The tokens of a text that are not read yet.
#[derive(Drop)]
pub struct Cursor<'a> {
    text: &'a [u8],
    tokens: &'a [Token],
}

impl<'a> Model for Cursor<'a> {
    ghost use Rattle.std.specs.Prelude.{length};
    ghost use Rattle.lucy_syntax.specs.Input.{Input, input_code, input_of, words_of};

    ghost Value = { Input };

    ghost coded = { input_code };

    ghost view = { λ c. input_of (words_of c.text.now c.tokens.now) (length c.text.now) };
}

fn span_of(token: &Token) -> Span
    ensures { result ≡ spec.span_at token.now }
{
    Span {
        start: token.start,
        end: token.end,
    }
}

/// The bytes of a span, and none for a span that is not in the text.
#[tactic(auto, unfolding(crate::specs::Input::part))]
fn part<'a>(span: Span, text: &'a [u8]) -> &'a [u8]
    ensures { result.now ≡ spec.part span text.now }
{
    if span.start <= span.end && span.end <= text.len() {
        &text[span.start..span.end]
    } else {
        &[]
    }
}

/// Whether a kind is one of these.
fn is_any(kind: TokenKind, kinds: &[TokenKind]) -> bool
    ensures { result ≡ list_any (lexer.is_kind kind) kinds.now }
{
    kinds.iter().any(|&other| is_kind(kind, other))
}

impl<'a> Cursor<'a> {
    pub fn new(text: &'a [u8], tokens: &'a [Token]) -> Cursor<'a>
        ensures { result ≡ spec.input_of (spec.words_of text.now tokens.now) (length text.now) }
    {
        Cursor { text, tokens }
    }

    /// The start of the next token, or the end of the text.
    #[tactic(auto, unfolding(crate::specs::Input::here))]
    pub fn here(&self) -> usize
        ensures { result ≡ spec.here self.now }
    {
        match self.tokens {
            [] => self.text.len(),
            [token, ..] => token.start,
        }
    }

    /// How many tokens are left.
    pub fn left(&self) -> usize
        ensures { result ≡ length self.now.words }
    {
        self.tokens.len()
    }

    /// The kind of the next token.
    #[tactic(auto, unfolding(crate::specs::Input::peek))]
    pub fn peek(&self) -> Option<TokenKind>
        ensures { result ≡ spec.peek self.now }
    {
        match self.tokens {
            [] => None,
            [token, ..] => Some(token.kind),
        }
    }

    /// The fault that the reading stops here.
    #[tactic(auto, unfolding(crate::specs::Input::refusal))]
    pub fn refuse(&self) -> SyntaxError
        ensures { result ≡ spec.refusal self.now }
    {
        SyntaxError::Syntax(self.here())
    }

    /// Reads the next token if it is of this kind.
    #[tactic(auto, unfolding(crate::specs::Input::eat))]
    pub fn eat(&mut self, kind: TokenKind) -> Option<Span>
        ensures { spec.eat kind self.old ≡ Ok (result, self.new) }
    {
        match self.tokens {
            [token, rest @ ..] if is_kind(token.kind, kind) => {
                self.tokens = rest;
                Some(span_of(token))
            }
            _ => None,
        }
    }

    /// Reads the next token, which has to be of this kind.
    #[tactic(auto, unfolding(crate::specs::Input::expect))]
    pub fn expect(&mut self, kind: TokenKind) -> Result<Span, SyntaxError>
        ensures { Reads (spec.expect kind self.old) result self.new }
    {
        match self.eat(kind) {
            Some(span) => Ok(span),
            None => Err(self.refuse()),
        }
    }

    /// The next token's place, if it is of one of these kinds.
    #[tactic(auto, using(crate::proofs::TheWords::kind_is, crate::proofs::TheWords::span_is), unfolding(crate::specs::Input::ahead))]
    pub fn ahead(&self, kinds: &[TokenKind]) -> Option<Span>
        ensures { spec.ahead kinds.now self.now ≡ Ok (result, self.now) }
    {
        match self.tokens {
            [token, ..] if is_any(token.kind, kinds) => { Some(span_of(token)) }
            _ => None,
        }
    }

    /// Reads a name.
    #[tactic(auto, unfolding(crate::specs::Input::name))]
    pub fn name(&mut self, alloc: Global) -> Result<Name, SyntaxError>
        ensures { Reads (spec.name self.old) result self.new }
    {
        match self.tokens {
            [] => Err(SyntaxError::Syntax(self.text.len())),
            [token, rest @ ..] => match token.kind {
                TokenKind::Name => {
                    let span = span_of(token);
                    let text = Items::from_slice(alloc, part(span, self.text))?;
                    self.tokens = rest;
                    Ok(Name { text, span })
                }
                _ => Err(SyntaxError::Syntax(token.start)),
            },
        }
    }

    /// Reads a number.
    #[tactic(auto, unfolding(crate::specs::Input::number))]
    pub fn number(&mut self) -> Result<Number, SyntaxError>
        ensures { Reads (spec.number self.old) result self.new }
    {
        match self.tokens {
            [] => Err(SyntaxError::Syntax(self.text.len())),
            [token, rest @ ..] => match token.kind {
                TokenKind::Number(value) => {
                    let span = span_of(token);
                    self.tokens = rest;
                    Ok(Number { value, span })
                }
                _ => Err(SyntaxError::Syntax(token.start)),
            },
        }
    }

    /// Reads a token that opens a nesting, where `depth` more may be opened.
    #[tactic(auto, unfolding(crate::specs::Input::opened))]
    pub fn opened(&mut self, depth: u32, kind: TokenKind) -> Result<Span, SyntaxError>
        ensures span { Reads (spec.opened depth kind self.old) result self.new }
        ensures positive { OnOk result (0 < depth) }
    {
        if depth == 0 {
            return Err(SyntaxError::TooDeep(self.here()));
        }
        let span = self.expect(kind)?;
        Ok(span)
    }
}
