//! Seeded draws, and mailboxes that may lose, repeat and reorder what is posted.
#![tactic(auto)]

mod draws;
mod fates;
mod mailboxes;
mod rooms;

pub use draws::Chaos;
pub use fates::{Fate, Weather};
pub use mailboxes::Mail;
pub use rooms::Room;

#[cfg(test)]
mod tests;
