//! Why a text has no tree.

ghost use Rattle.std.specs.Prelude.{◌≡◌, Err};

use lucy_lexer::LexError;
use std::alloc::{AllocError, AllocFailed};
use thiserror::Error;

/// Why a text has no tree. Each place is a number of bytes from the start of the text.
#[derive(Clone, Copy, Debug, PartialEq, Eq, Error)]
pub enum SyntaxError {
    /// The text cannot be read as tokens.
    #[error("{0}")]
    Lex(LexError),
    /// The start of the token at which the reading stops, or the text's length.
    #[error("the plan cannot go on at byte {0}")]
    Syntax(usize),
    /// The start of the `(`, `not`, `=>` or `pair` that is the 65th to be open at once.
    #[error("more than 64 nested at byte {0}")]
    TooDeep(usize),
    /// Memory ran out.
    #[error("out of memory")]
    OutOfMemory,
}

impl From<AllocError> for SyntaxError {
    ghost use Rattle.std.specs.Prelude.{◌≡◌};
    ghost use Rattle.lucy_syntax.specs.declared.error.SyntaxError.TheVariants.{OutOfMemory};

    ghost from_gives = { λ _ e. e ≡ OutOfMemory };

    fn from(_: AllocError) -> SyntaxError {
        SyntaxError::OutOfMemory
    }
}

impl<T: Drop> From<AllocFailed<T>> for SyntaxError {
    ghost use Rattle.std.specs.Prelude.{◌≡◌};
    ghost use Rattle.lucy_syntax.specs.declared.error.SyntaxError.TheVariants.{OutOfMemory};

    ghost from_gives = { λ _ e. e ≡ OutOfMemory };

    fn from(_: AllocFailed<T>) -> SyntaxError {
        SyntaxError::OutOfMemory
    }
}

/// Lets go of what was read before a fault, and refuses. So the functions that read write out no drop of a whole tree.
pub fn refused<T: Drop, R>(read: T, error: SyntaxError) -> Result<R, SyntaxError>
    ensures { result ≡ Err error }
{
    drop(read);
    Err(error)
}
