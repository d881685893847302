//! The core: all replicas together, and what happens in a list of steps.
//!
//! A world has the records that were opened, every packet that was ever sent, how far a change is,
//! and all replicas. A step lets one replica act: it tries its next call, sends what it has, or takes
//! in a packet; or it is one of a change: it begins, a replica is frozen, the change is decided, or a
//! replica is thawed. A packet may be delivered late, more than once, or never. After every list of
//! steps the world is safe.
#![tactic(auto)]

mod changes;
mod fitting;
mod laws;
mod one_thread;
mod outcome;
mod worlds;

pub use fitting::is_work_of;
pub use laws::{
    alone_is_legal, every_run_is_safe, freeze_is_frozen_exactly, fronts_have_front_events,
    frozen_is_held, opening_is_safe, packets_stay, records_stay, run_outcome_is_legal, runs_join,
    runs_keep_safe, safe_outcome_is_legal, steps_keep_safe, submit_changes_its_replica,
    submit_is_broken_exactly, submit_is_done_exactly, submit_reads_its_replica,
    thaw_changes_its_replica, thaw_is_moved_exactly, work_stays,
};
pub use lucy_replica::{Event, Stage};
pub use one_thread::alone;
pub use outcome::Outcome;
pub use worlds::World;
