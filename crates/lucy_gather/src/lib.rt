//! What names, paths, terms and conditions of a syntax tree stand for, over the object of a plan
//! and the parameters of a transaction; and ranges of whole numbers.
#![tactic(auto)]

mod conditions;
mod error;
mod places;
mod ranges;
mod scopes;
mod tables;
mod terms;

pub use conditions::condition_of;
pub use error::ElabError;
pub use places::{one_more, slot_of};
pub use ranges::{allowed, int_start, leaf_between, limits_between, signed};
pub use scopes::{
    Entry, Meaning, Scope, Variable, atom_at, atom_in, flag_at, held_param, meaning_at, meaning_of,
    number_at, path_start, size_at,
};
pub use tables::Table;
pub use terms::{assigned, compared};
