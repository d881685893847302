//! What is left of a line.

ghost use Rattle.std.specs.Prelude.{◌≡◌, ◌+◌, ◌<◌, ◌≤◌, Ok, IfOk, IfSome, length};
ghost use Rattle.std.specs.Bool.{OnTrue, OnFalse};
ghost use Rattle.lucy_session.specs.Reading.{Reads};
ghost use Rattle.lucy_session.specs.Reading as spec;

use crate::answers::LabelError;
use std::marker::Model;

// The place of the first space.
fn first_space(text: &[u8]) -> Option<usize>
    ensures value { result ≡ spec.first_space text.now }
    ensures within { IfSome result (λ place. place < length text.now) }
{
    text.iter().position(|byte| *byte == b' ')
}

/// The bytes of a line that are not read yet. Contracts see the list of them.
#[derive(Drop)]
pub struct Cursor<'a> {
    text: &'a [u8],
}

impl<'a> Model for Cursor<'a> {
    ghost use Rattle.std.specs.Prelude.{List, ℕ};

    ghost Value = { List ℕ };

    ghost view = { λ c. c.text.now };
}

impl<'a> Cursor<'a> {
    /// At the start of a line.
    pub fn new(text: &'a [u8]) -> Cursor<'a>
        ensures { result ≡ text.now }
    {
        Cursor { text }
    }

    /// Reads these bytes, if they stand here. Tells whether they do.
    #[tactic(auto, unfolding(crate::specs::Reading::eat))]
    pub fn eat(&mut self, word: &[u8]) -> bool
        ensures read { spec.eat word.now self.old ≡ Ok (result, self.new) }
        ensures shorter { OnTrue result (length self.new + length word.now ≡ length self.old) }
        ensures same { OnFalse result (self.new ≡ self.old) }
    {
        match self.text.strip_prefix(word) {
            Some(rest) => {
                self.text = rest;
                true
            }
            None => false,
        }
    }

    /// Reads these bytes, which have to stand here.
    #[tactic(auto, unfolding(crate::specs::Reading::expect))]
    pub fn expect(&mut self, word: &[u8]) -> Result<(), LabelError>
        ensures read { Reads (λ u. u) (spec.expect word.now self.old) result self.new }
        ensures shorter { IfOk result (λ _. length self.new + length word.now ≡ length self.old) }
    {
        if self.eat(word) {
            Ok(())
        } else {
            Err(LabelError::BadLabel)
        }
    }

    /// Reads up to the next space, which is read too.
    #[tactic(auto, unfolding(crate::specs::Reading::field))]
    pub fn field(&mut self) -> Result<&'a [u8], LabelError>
        ensures read { Reads (λ f. f.now) (spec.field self.old) result self.new }
        ensures shorter { IfOk result (λ _. length self.new < length self.old) }
    {
        let text = self.text;
        match first_space(text) {
            Some(place) => {
                self.text = &text[place + 1..];
                Ok(&text[..place])
            }
            None => Err(LabelError::BadLabel),
        }
    }

    /// `Ok` where nothing is left.
    #[tactic(auto, unfolding(crate::specs::Reading::ended))]
    pub fn end(&self) -> Result<(), LabelError>
        ensures { Reads (λ u. u) (spec.ended self.now) result self.now }
    {
        if self.text.is_empty() {
            Ok(())
        } else {
            Err(LabelError::BadLabel)
        }
    }
}
