//! Epochs: the records that replicas share, and the parts that replicas give to a change.
//!
//! All replicas begin at one record. A change closes a record at all of them, and opens the next
//! one: its state is the merge of what they had, with one call applied.
#![tactic(auto)]

mod causes;
mod collecting;
mod deciding;
mod epochs;
mod laws;
mod parts;
mod rulings;
mod tables;

pub use causes::By;
pub use collecting::{Collect, CollectError};
pub use deciding::rule;
pub use epochs::Epoch;
pub use laws::{
    are_from_by_places, are_made_by_places, contents_grow, first_record_is_in_segment,
    full_seats_give_parts, next_record_is_in_segment,
};
pub use parts::{Part, Parts};
pub use rulings::{Grant, Ruling, Shares};
pub use tables::Table;
