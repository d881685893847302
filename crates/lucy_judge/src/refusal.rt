//! Why a certificate is refused for a plan.

use lucy_cert::{PartName, Why};
use std::alloc::AllocError;

/// Why a certificate is refused for a plan.
#[derive(Clone, Copy, Debug, PartialEq, Eq)]
pub enum Refusal {
    /// The plan's start breaks its invariant.
    StartBreaks,
    /// A needed part is missing.
    Missing(PartName),
    /// The proof of a needed part does not refute its formula.
    Rejected {
        /// The part.
        part: PartName,
        /// The first step that is not justified, from 0; the number of steps where each is justified and no clause is
        /// empty.
        step: u64,
        /// Why it is not justified.
        why: Why,
    },
    /// Memory ran out.
    OutOfMemory,
}

impl From<AllocError> for Refusal {
    ghost use Rattle.std.specs.Prelude.{◌≡◌};
    ghost use Rattle.lucy_judge.specs.declared.refusal.Refusal.TheVariants.{OutOfMemory};

    ghost from_gives = { λ _ e. e ≡ OutOfMemory };

    fn from(_: AllocError) -> Refusal {
        Refusal::OutOfMemory
    }
}
