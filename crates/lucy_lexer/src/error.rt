//! Why a text cannot be read as tokens.

use std::alloc::{AllocError, AllocFailed};
use thiserror::Error;

/// Why a text cannot be read as tokens: the first place, in text order, at which none can be read.
/// Each place is a number of bytes from the start of the text.
#[derive(Clone, Copy, Debug, PartialEq, Eq, Error)]
pub enum LexError {
    /// A byte that begins no token, outside a comment.
    #[error("no token begins with byte {0}")]
    BadByte(usize),
    /// The first digit of a number above 2^62.
    #[error("the number at byte {0} is too large")]
    LongNumber(usize),
    /// The first letter of a name of more than 64 bytes.
    #[error("the name at byte {0} is too long")]
    LongName(usize),
    /// Memory ran out.
    #[error("out of memory")]
    OutOfMemory,
}

impl From<AllocError> for LexError {
    ghost use Rattle.std.specs.Prelude.{◌≡◌};
    ghost use Rattle.lucy_lexer.specs.declared.error.LexError.TheVariants.{OutOfMemory};

    ghost from_gives = { λ _ e. e ≡ OutOfMemory };

    fn from(_: AllocError) -> LexError {
        LexError::OutOfMemory
    }
}

impl<T: Drop> From<AllocFailed<T>> for LexError {
    ghost use Rattle.std.specs.Prelude.{◌≡◌};
    ghost use Rattle.lucy_lexer.specs.declared.error.LexError.TheVariants.{OutOfMemory};

    ghost from_gives = { λ _ e. e ≡ OutOfMemory };

    fn from(_: AllocFailed<T>) -> LexError {
        LexError::OutOfMemory
    }
}
