//! Why a tree gives no plan.

use lucy_plan::What;
use std::alloc::{AllocError, AllocFailed};
use thiserror::Error;

/// The first thing in text order for which a tree gives no plan. A place is the start of the
/// token that is named.
#[derive(Clone, Copy, Debug, PartialEq, Eq, Error)]
pub enum ElabError {
    /// The number after `lucy`, which is not 1.
    #[error("the version at byte {0} is not known")]
    Version(usize),
    /// The first token of a path, or an atom or a transaction, that was not declared where it
    /// may be used.
    #[error("the name at byte {0} is not known")]
    UnknownName(usize),
    /// A name that is taken; or the first token of what sets a field or a leaf, or lists a
    /// transaction, for the second time.
    #[error("what stands at byte {0} is there for the second time")]
    Twice(usize),
    /// The first token of a path that stands for another kind of field than its place needs, or
    /// the `(` of a point with another number of numbers than there are leaves.
    #[error("what stands at byte {0} is of another kind than its place needs")]
    Kind(usize),
    /// The `*` of a product whose first factor is no number or whose second is one.
    #[error("the product at byte {0} is not linear")]
    NotLinear(usize),
    /// The first token of a bound above 2^40 in size or below the lower bound of its range, or of
    /// a point's number outside its leaf's range.
    #[error("the number at byte {0} is out of range")]
    Range(usize),
    /// The first token of a start value outside its field's range.
    #[error("the start value at byte {0} is out of range")]
    BadStart(usize),
    /// A count or a size is outside its limit.
    #[error("a count of {count} is outside its limit")]
    Limit {
        /// What is counted or measured.
        what: What,
        /// One more than the limit where reading stops there; no leaf and no segment give 0; a
        /// factor, a constant and a depth give their size, or 2^64 - 1 where that is less.
        count: u64,
    },
    /// There was no memory left.
    #[error("out of memory")]
    OutOfMemory,
}

impl From<AllocError> for ElabError {
    ghost use Rattle.std.specs.Prelude.{◌≡◌};
    ghost use Rattle.lucy_gather.specs.declared.error.ElabError.TheVariants.{OutOfMemory};

    ghost from_gives = { λ _ e. e ≡ OutOfMemory };

    fn from(_: AllocError) -> ElabError {
        ElabError::OutOfMemory
    }
}

impl<T: Drop> From<AllocFailed<T>> for ElabError {
    ghost use Rattle.std.specs.Prelude.{◌≡◌};
    ghost use Rattle.lucy_gather.specs.declared.error.ElabError.TheVariants.{OutOfMemory};

    ghost from_gives = { λ _ e. e ≡ OutOfMemory };

    fn from(_: AllocFailed<T>) -> ElabError {
        ElabError::OutOfMemory
    }
}
