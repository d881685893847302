//! The words of a call: their grammar as one table of forms, what they ask for or the first of them that is bad, and the
//! help, which shows each form.
#![tactic(auto)]

mod asked;
mod error;
mod forms;
mod helping;
mod laws;
mod names;
mod reading;

pub use asked::Command;
pub use error::WordsError;
pub use forms::{Bounds, CALLS, FORMS, Form, LENGTH, REPLICAS, ROUNDS, SEED, SIZE, Slot};
pub use helping::help;
pub use laws::{bad_words_are_first, numbers_are_within};
pub use names::Name;
pub use reading::command;

#[cfg(test)]
mod tests;
