//! Why a work text or a step script is refused.

use lucy_plan::What;
use std::alloc::{AllocError, AllocFailed};
use thiserror::Error;

/// Why a text is refused: that it is too long, or the first of its lines that is at fault. Lines are
/// numbered from 1, those that are skipped too.
#[derive(Clone, Copy, Debug, PartialEq, Eq, Error)]
pub enum CallsError {
    /// A line that has not the form that its place needs, or one that is missing: then it is the
    /// number behind that of the last line.
    #[error("line {0} has not the form that is needed there")]
    BadLine(u64),
    /// A line of a replica that is not among the replicas.
    #[error("line {0} is of a replica that is not there")]
    BadReplica(u64),
    /// A line with a transaction that the plan has not.
    #[error("line {0} is of a transaction that is not there")]
    UnknownTxn(u64),
    /// A line with too few or too many arguments, or with one that is no number or out of its range.
    #[error("line {0} has arguments that do not fit")]
    BadArgument(u64),
    /// A count is outside its limit.
    #[error("the number {count} of {what:?} is outside the limit")]
    Limit {
        /// What is counted: bytes, replicas or the calls of one replica.
        what: What,
        /// The count, or the first one that is too large where reading stops there; 2^64 - 1 where it is above.
        count: u64,
    },
    /// Memory ran out.
    #[error("out of memory")]
    OutOfMemory,
}

impl From<AllocError> for CallsError {
    ghost use Rattle.std.specs.Prelude.{◌≡◌};
    ghost use Rattle.lucy_calls.specs.declared.error.CallsError.TheVariants.{OutOfMemory};

    ghost from_gives = { λ _ e. e ≡ OutOfMemory };

    fn from(_: AllocError) -> CallsError {
        CallsError::OutOfMemory
    }
}

impl<T: Drop> From<AllocFailed<T>> for CallsError {
    ghost use Rattle.std.specs.Prelude.{◌≡◌};
    ghost use Rattle.lucy_calls.specs.declared.error.CallsError.TheVariants.{OutOfMemory};

    ghost from_gives = { λ _ e. e ≡ OutOfMemory };

    fn from(_: AllocFailed<T>) -> CallsError {
        CallsError::OutOfMemory
    }
}
