//! Normal conditions: conditions as inequalities joined by "all" and "any", and the clauses that say the same.
//!
//! A condition has two normal conditions, one that holds where it does and one that holds where it does not. A normal
//! condition is put into a formula as clauses, with a fresh variable of 0 or 1 for each part that a clause has to name.
#![tactic(auto)]

mod atoms;
mod comparing;
mod flattening;
mod fronts;
mod gathering;
mod joints;
mod laws;
mod normals;
mod placing;
mod turning;
mod variables;

pub use atoms::{at_least_other, at_most_other, linear};
pub use flattening::{add_all, add_any, one_all, one_any};
pub use joints::Joint;
pub use laws::{
    clauses_are_narrow, clauses_can_hold, clauses_say, flat_means, normal_is_small, normal_means,
};
pub use lucy_clauses::{at_least, at_most};
pub use normals::Normal;
pub use placing::{put, put_all};
pub use turning::{add_normal_form, normal_form};
pub use variables::Variables;
