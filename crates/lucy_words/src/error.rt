//! Why words are refused.

use std::alloc::AllocError;
use thiserror::Error;

/// Why words are refused.
#[derive(Clone, Copy, Debug, PartialEq, Eq, Error)]
pub enum WordsError {
    /// The words are in no form: the first place at which no form goes on with the word that stands there, or the number of
    /// words where one is missing.
    #[error("bad words at {0}")]
    BadWords(usize),
    /// Memory ran out.
    #[error("out of memory")]
    OutOfMemory,
}

impl From<AllocError> for WordsError {
    ghost use Rattle.std.specs.Prelude.{◌≡◌};
    ghost use Rattle.lucy_words.specs.declared.error.WordsError.TheVariants.{OutOfMemory};

    ghost from_gives = { λ _ e. e ≡ OutOfMemory };

    fn from(_: AllocError) -> WordsError {
        WordsError::OutOfMemory
    }
}
