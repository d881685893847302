//! Expressions whose calls have no names yet.

use lucy_plan::Call;
use std::sync::Arc;

/// An expression whose calls have no names yet. Its nodes may be shared. Contracts see its tree.
#[derive(Drop)]
pub enum Sketch {
    /// The start.
    Start,
    /// A call of a replica, applied to what another sketch gives.
    Apply {
        replica: u32,
        call: Call,
        inner: Arc<Sketch>,
    },
    /// The merge of what two sketches give.
    Merge {
        left: Arc<Sketch>,
        right: Arc<Sketch>,
    },
}
