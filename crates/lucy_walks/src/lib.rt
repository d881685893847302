//! Walks: expressions that are made by drawing from a seed, until one of them gives a wanted state.
//!
//! An expression is sketched first, without names for its calls. Once it is wanted its calls are
//! named in the order in which it is evaluated.
#![tactic(auto)]

mod drawing;
mod entries;
mod naming;
mod sketches;
mod walking;

pub use naming::name;
pub use sketches::Sketch;
pub use walking::walk;
