//! What words ask for.

use crate::names::Name;

/// What the words of a call ask for.
#[derive(Debug, Drop)]
pub enum Command {
    /// What a plan is found to be.
    Check {
        /// The plan.
        plan: Name,
    },
    /// A certificate of a plan.
    Certify {
        /// The plan.
        plan: Name,
    },
    /// Whether a certificate shows that a plan is sound.
    Verify {
        /// The plan.
        plan: Name,
        /// The certificate.
        cert: Name,
    },
    /// Whether a plan is confluent, in a session of labels.
    Label {
        /// The plan.
        plan: Name,
        /// The seed and the length of a walk, where one is asked for.
        walk: Option<(u64, u32)>,
    },
    /// A run of given steps.
    Replay {
        /// The plan.
        plan: Name,
        /// The certificate; `None` where it is made in the call.
        cert: Option<Name>,
        /// The work.
        work: Name,
        /// The steps.
        steps: Name,
    },
    /// A run on threads.
    Run {
        /// The plan.
        plan: Name,
        /// The certificate; `None` where it is made in the call.
        cert: Option<Name>,
        /// The work.
        work: Name,
        /// The seed of the mailboxes.
        seed: u64,
    },
    /// A made plan.
    MakePlan {
        /// Its seed.
        seed: u64,
        /// How many numbers its object has.
        size: u32,
    },
    /// Made work.
    MakeWork {
        /// The plan.
        plan: Name,
        /// Its seed.
        seed: u64,
        /// How many replicas there are.
        replicas: u32,
        /// How many calls each has.
        calls: u32,
    },
    /// Made steps.
    MakeSteps {
        /// The plan.
        plan: Name,
        /// The work.
        work: Name,
        /// Their seed.
        seed: u64,
        /// How many rounds they have.
        rounds: u32,
    },
    /// A made plan, certified, judged and replayed.
    Drill {
        /// The seed of all that is made.
        seed: u64,
        /// The size of the plan.
        size: u32,
    },
    /// The forms of words.
    Help,
}
