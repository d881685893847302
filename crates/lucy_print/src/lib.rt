//! The text of a syntax tree, in one fixed layout.
#![tactic(auto, using(crate::proofs::Laying::laid_append))]

mod conditions;
mod listed;
mod marks;
mod objects;
mod plans;
mod printing;
mod segments;
mod terms;

pub use printing::print;
