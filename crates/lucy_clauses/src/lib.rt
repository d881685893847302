//! Clauses of linear inequalities over integers: atoms in normal form, formulas and their models, and the lines of a
//! derivation.
#![tactic(auto)]

mod adding;
mod atoms;
mod bounds;
mod dividing;
mod formulas;
mod gathering;
mod inequalities;
mod laws;
mod lines;
mod normality;
mod numbers;
mod parts;

pub use atoms::{Atom, Plain};
pub use bounds::{at_least, at_most};
pub use formulas::{Clause, Formula, Range, are_within};
pub use gathering::are_small;
pub use inequalities::Inequality;
pub use laws::{
    complement_opposite, complement_twice, equal_atoms, justified_lines_hold,
    normal_form_is_unique, normal_test, scaled_parts_are_unique,
};
pub use lines::{Line, Ref, Times};
pub use parts::Part;
