//! Why a text is no certificate.

use std::alloc::{AllocError, AllocFailed};
use thiserror::Error;

/// Why a text is no certificate.
#[derive(Clone, Copy, Debug, PartialEq, Eq, Error)]
pub enum CertError {
    /// It has more than 64 MiB.
    #[error("the text is longer than 64 MiB")]
    TooLong,
    /// The first line, from 1, up to which no certificate goes on.
    #[error("no certificate goes on up to line {0}")]
    BadLine(u64),
    /// Memory ran out.
    #[error("out of memory")]
    OutOfMemory,
}

impl From<AllocError> for CertError {
    ghost use Rattle.std.specs.Prelude.{◌≡◌};
    ghost use Rattle.lucy_cert.specs.declared.error.CertError.TheVariants.{OutOfMemory};

    ghost from_gives = { λ _ e. e ≡ OutOfMemory };

    fn from(_: AllocError) -> CertError {
        CertError::OutOfMemory
    }
}

impl<T: Drop> From<AllocFailed<T>> for CertError {
    ghost use Rattle.std.specs.Prelude.{◌≡◌};
    ghost use Rattle.lucy_cert.specs.declared.error.CertError.TheVariants.{OutOfMemory};

    ghost from_gives = { λ _ e. e ≡ OutOfMemory };

    fn from(_: AllocFailed<T>) -> CertError {
        CertError::OutOfMemory
    }
}
