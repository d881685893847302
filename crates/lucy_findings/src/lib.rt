//! What a plan is found to be: whether its start satisfies the invariant, which segments are merge closed, and whether
//! the segments cover the invariant.
#![tactic(auto)]

mod certifying;
mod examining;
mod findings;
mod laws;
mod soundness;
#[cfg(test)]
mod tests;

pub use certifying::certificate;
pub use examining::examine;
pub use findings::{CoverFinding, Findings, SegmentFinding};
pub use laws::{closed_is_merge_closed, found_sound_is_accepted, holds_is_covered, sound_is_sound};
pub use soundness::is_sound;
