//! Why a row has no answer.

use std::alloc::{AllocError, AllocFailed};

/// Why a row has no answer.
#[derive(Clone, Copy)]
pub enum Trouble {
    /// The row, or what its table says, has not the form that is needed.
    NotUnderstood,
    /// Memory ran out.
    OutOfMemory,
}

impl From<AllocError> for Trouble {
    fn from(_: AllocError) -> Trouble {
        Trouble::OutOfMemory
    }
}

impl<T: Drop> From<AllocFailed<T>> for Trouble {
    fn from(_: AllocFailed<T>) -> Trouble {
        Trouble::OutOfMemory
    }
}
