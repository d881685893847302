//! What stands in the pool of a walk.

use crate::sketches::Sketch;
use lucy_model::State;
use std::sync::Arc;

/// An expression of the pool, its value, and how many nodes it has.
#[derive(Drop)]
pub(crate) struct Entry {
    pub(crate) sketch: Arc<Sketch>,
    pub(crate) state: State,
    pub(crate) nodes: u32,
}
