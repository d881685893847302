ghost use Rattle.std.specs.Prelude.{◌≡◌, ◌++◌, ◌+◌, ◌≤◌, List, Option, IfOk, IfSome, vec_len};
ghost use Rattle.lucy_io.specs.Inputs.{Entry, Told, entries_of, IsFetched};

use std::alloc::{AllocError, Global};

/// How a fetch ended.
#[derive(Clone, Copy, Debug, PartialEq, Eq)]
pub enum Ending {
    /// The input's bytes were given.
    Given,
    /// There is no input of that name.
    Absent,
    /// The input could not be read.
    Failed,
}

/// Why a fetch gave no answer.
#[derive(Clone, Copy, Debug, PartialEq, Eq)]
pub enum FetchError {
    /// The input could not be read.
    Failed,
    /// No memory is left for the bytes or for the journal.
    OutOfMemory,
}

impl From<AllocError> for FetchError {
    ghost use Rattle.lucy_io.specs.declared.inputs.FetchError.TheVariants.{OutOfMemory};

    ghost from_gives = { λ _ e. e ≡ OutOfMemory };

    fn from(_e: AllocError) -> FetchError {
        FetchError::OutOfMemory
    }
}

/// Inputs by name, with a journal of what was fetched.
pub trait Inputs {
    /// Of each name nothing or its bytes, where that is known. No call changes it.
    ghost told: { Self → Option Told };

    /// The fetches so far, in order. It only grows.
    ghost journal: { Self → List Entry };

    /// The first bytes of the input `name`: all of them, or one more than `most` where it has more than `most`.
    /// `None` where there is no input of that name.
    ///
    /// The answer is written into the journal, `Failed` too. After `OutOfMemory` the journal is as before.
    fn fetch(
        &mut self,
        alloc: Global,
        name: &str,
        most: usize,
    ) -> Result<Option<Vec<u8>>, FetchError>
        ensures told { told self.new ≡ told self.old }
        ensures journal { journal self.new ≡ journal self.old ++ entries_of name.now result }
        ensures bound { IfOk result (λ given. IfSome given (λ bytes. vec_len bytes ≤ most + 1)) }
        ensures bytes { IfSome (told self.old) (λ t. IsFetched most (t name.now) result) };
}
