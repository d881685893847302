//! Why a derivation is not justified.
use std::alloc::AllocError;

/// Why a line is not justified.
#[derive(Clone, Copy, Debug, PartialEq, Eq)]
pub enum Cause {
    /// It refers to what is not there.
    Unknown,
    /// A product or a running sum in it is more than 2^126 in size.
    TooWide,
    /// Any other want of justification.
    NoConflict,
}

/// The first line of a derivation that is not justified.
#[derive(Clone, Copy, Debug, PartialEq, Eq)]
pub struct Fault {
    /// The line, from 0; the number of lines where each is justified and the last is no contradiction.
    pub line: usize,
    /// Why it is not justified.
    pub cause: Cause,
}

/// Why a derivation was not taken: the first line that is not justified, from 0, or want of memory.
#[derive(Clone, Copy, Debug, PartialEq, Eq)]
pub enum CutError {
    /// The line refers to what is not there.
    Unknown(u32),
    /// A product or a running sum in the line is more than 2^126 in size.
    TooWide(u32),
    /// Any other want of justification, or the number of lines where the last is no contradiction.
    NoConflict(u32),
    /// Memory was wanting.
    OutOfMemory,
}

/// Why a line gives no inequality.
#[derive(Clone, Copy, Debug, PartialEq, Eq)]
pub enum Stop {
    /// It is not justified.
    Unjustified(Cause),
    /// Memory was wanting.
    OutOfMemory,
}

impl From<AllocError> for Stop {
    ghost use Rattle.std.specs.Prelude.{◌≡◌};
    ghost use Rattle.lucy_cuts.specs.declared.causes.Stop.{Stop};
    ghost use Rattle.lucy_cuts.specs.declared.causes.Stop.TheVariants.{OutOfMemory};

    ghost from_gives = { λ _ e. e ≡ OutOfMemory };

    fn from(_: AllocError) -> Stop {
        Stop::OutOfMemory
    }
}
