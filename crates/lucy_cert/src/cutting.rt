//! Texts cut at a byte, and the pieces of a line.

ghost use Rattle.std.specs.Prelude.{◌≡◌, ◌<◌, ◌∷◌, [], length, option_map, IfSome, MatchOption, IsTrue, ◌↔◌};
ghost use Rattle.lucy_cert.specs.Cutting as spec;
ghost use Rattle.lucy_cert.specs.Lefts.{left};

/// What stands before the first such byte, and what stands behind it. `None` exactly where there is no such byte.
pub fn cut(text: &[u8], byte: u8) -> Option<(&[u8], &[u8])>
    ensures value { option_map (λ p. (p.0.now, p.1.now)) result ≡ spec.cut byte text.now }
    ensures shorter { IfSome result (λ p. length p.1.now < length text.now) }
{
    for (i, here) in text.iter().enumerate() {
        if *here == byte {
            return Some((&text[..i], &text[i + 1..]));
        }
    }
    None
}

/// What is left of the pieces of a line, which spaces part.
#[derive(Clone, Copy)]
pub struct Pieces<'a> {
    is_over: bool,
    text: &'a [u8],
}

impl<'a> Pieces<'a> {
    /// The pieces of a line.
    pub fn new(line: &'a [u8]) -> Pieces<'a>
        ensures { left result ≡ spec.pieces line.now }
    {
        Pieces {
            is_over: false,
            text: line,
        }
    }

    /// The next piece, and what is left behind it. `None` exactly where none is left.
    pub fn next_piece(self) -> Option<(&'a [u8], Pieces<'a>)>
        ensures pieces { MatchOption result (left self.entry ≡ []) (λ p. left self.entry ≡ p.0.now ∷ left p.1) }
        ensures shorter { IfSome result (λ p. length (left p.1) < length (left self.entry)) }
    {
        if self.is_over {
            return None;
        }
        match cut(self.text, b' ') {
            Some((piece, after)) => Some((
                piece,
                Pieces {
                    is_over: false,
                    text: after,
                },
            )),
            None => Some((
                self.text,
                Pieces {
                    is_over: true,
                    text: self.text,
                },
            )),
        }
    }

    /// Whether no piece is left.
    pub fn is_empty(self) -> bool
        ensures { IsTrue result ↔ (left self.entry ≡ []) }
    {
        self.is_over
    }
}
