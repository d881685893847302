//! Why the work of a replica stops, or a change.

use lucy_epochs::{CollectError, Epoch};
use std::alloc::AllocError;
use std::sync::Arc;

/// Why the work of a replica stops, or a change.
#[derive(Drop)]
pub enum ClusterError {
    /// Two records that were kept under two locks, and have to be the same, differ.
    Apart {
        /// The record that is to be closed.
        ours: Arc<Epoch>,
        /// The record under the other lock.
        theirs: Arc<Epoch>,
    },
    /// Under the lock at this place stands another replica.
    Seats {
        /// The place.
        place: u32,
        /// The number of the replica that stands there.
        held: u32,
    },
    /// There was no memory left.
    OutOfMemory,
}

impl From<AllocError> for ClusterError {
    ghost use Rattle.std.specs.Prelude.{◌≡◌};
    ghost use Rattle.lucy_cluster.specs.declared.error.ClusterError.TheVariants.{OutOfMemory};

    ghost from_gives = { λ _ e. e ≡ OutOfMemory };

    fn from(_: AllocError) -> ClusterError {
        ClusterError::OutOfMemory
    }
}

impl From<CollectError> for ClusterError {
    ghost use Rattle.std.specs.Prelude.{◌≡◌};
    ghost use Rattle.lucy_cluster.specs.Causes.{collect_cause};

    ghost from_gives = { λ e f. f ≡ collect_cause e };

    fn from(error: CollectError) -> ClusterError {
        match error {
            CollectError::Apart { ours, theirs } => ClusterError::Apart { ours, theirs },
            CollectError::OutOfMemory => ClusterError::OutOfMemory,
        }
    }
}
