ghost use Rattle.std.specs.Prelude.{◌≡◌};
ghost use Rattle.lucy_top.specs.declared.said.Stop.TheVariants.{OutOfMemory};

use std::alloc::{AllocError, AllocFailed};

/// A status, and the text that goes with it.
#[derive(Drop)]
pub struct Said {
    pub status: u8,
    pub text: Vec<u8>,
}

/// Why a command goes no further: it has ended, or memory ran out.
#[derive(Drop)]
pub enum Stop {
    Ended(Said),
    OutOfMemory,
}

impl From<AllocError> for Stop {
    ghost from_gives = { λ _ e. e ≡ OutOfMemory };

    fn from(_e: AllocError) -> Stop {
        Stop::OutOfMemory
    }
}

impl<T: Drop> From<AllocFailed<T>> for Stop {
    ghost from_gives = { λ _ e. e ≡ OutOfMemory };

    fn from(_e: AllocFailed<T>) -> Stop {
        Stop::OutOfMemory
    }
}
