//! Why a text is not accepted for a plan.

ghost use Rattle.std.specs.Prelude.{◌≡◌};
ghost use Rattle.lucy_stream.specs.Verifying as spec;

use lucy_cert::{CertError, PartName, Why};
use lucy_judge::Refusal;
use std::alloc::AllocError;

/// Why a text is not accepted for a plan.
#[derive(Clone, Copy, Debug, PartialEq, Eq)]
pub enum StreamError {
    /// It has more than 64 MiB.
    TooLong,
    /// The first line, from 1, up to which no certificate goes on.
    BadLine(u64),
    /// The plan's start breaks its invariant.
    StartBreaks,
    /// A needed part is missing.
    Missing(PartName),
    /// The proof of a needed part does not refute its formula.
    Rejected {
        /// The part.
        part: PartName,
        /// The first step that is not justified, from 0; the number of steps where each is justified and no clause is
        /// empty.
        step: u64,
        /// Why it is not justified.
        why: Why,
    },
    /// Memory ran out.
    OutOfMemory,
}

impl From<AllocError> for StreamError {
    ghost use Rattle.std.specs.Prelude.{◌≡◌};
    ghost use Rattle.lucy_stream.specs.declared.error.StreamError.TheVariants.{OutOfMemory};

    ghost from_gives = { λ _ e. e ≡ OutOfMemory };

    fn from(_: AllocError) -> StreamError {
        StreamError::OutOfMemory
    }
}

/// Why a text is no certificate.
pub(crate) fn of_text(error: CertError) -> StreamError
    ensures { result ≡ spec.of_text error }
{
    match error {
        CertError::TooLong => StreamError::TooLong,
        CertError::BadLine(line) => StreamError::BadLine(line),
        CertError::OutOfMemory => StreamError::OutOfMemory,
    }
}

/// Why a certificate is refused.
pub(crate) fn of_refusal(refusal: Refusal) -> StreamError
    ensures { result ≡ spec.of_refusal refusal }
{
    match refusal {
        Refusal::StartBreaks => StreamError::StartBreaks,
        Refusal::Missing(part) => StreamError::Missing(part),
        Refusal::Rejected { part, step, why } => StreamError::Rejected { part, step, why },
        Refusal::OutOfMemory => StreamError::OutOfMemory,
    }
}
