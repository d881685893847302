//! Judging certificates: a plan whose needed parts are refuted is sound.
#![tactic(auto)]

mod answering;
mod checked;
mod judging;
mod laws;
mod needs;
mod refusal;
mod trial;
mod whole;

pub use checked::Checked;
pub use judging::Judge;
pub use laws::{accepted_exactly, accepted_is_sound, judged_in_parts};
pub use needs::{formula_of, needed};
pub use refusal::Refusal;
pub use trial::{Present, Trial};
pub use whole::judge;
