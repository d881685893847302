//! A table of atoms, which numbers them and finds an atom and its complement.
#![tactic(auto)]

mod laws;
mod table;

pub use laws::{atoms_are_found, numbers_stay};
pub use table::AtomTable;
