//! What an audit tells.
use lucy_epochs::Epoch;
use lucy_model::Raw;
use lucy_plan::Call;
use lucy_replica::Reply;
use std::alloc::AllocError;
use std::sync::Arc;

/// What an audit tells.
#[derive(Drop)]
pub enum Audit {
    /// The outcome is legal, and no record of it is another than the table's of the same number.
    Agreed,
    /// The outcome is not legal, or it has another record than the table: this difference holds.
    Apart(Difference),
}

/// Two values that were kept, or computed again from kept ones, and that differ.
#[derive(Drop)]
pub enum Difference {
    /// At this place stands another replica.
    Seats {
        /// The place among the lives, from 0.
        place: u32,
        /// The number of the replica that stands there.
        held: u32,
    },
    /// A call of a replica is another than the work's at the same place.
    Calls {
        /// The replica's place.
        replica: u32,
        /// The replica's call.
        ours: Call,
        /// The work's call.
        theirs: Call,
    },
    /// A record of a replica is another than one of the same number: that of the first replica, that of
    /// the table, or the first record of the plan.
    Records {
        /// The replica's record.
        ours: Arc<Epoch>,
        /// The other record.
        theirs: Arc<Epoch>,
    },
    /// The call that a record names gives something else on the merge of what the replicas had of the
    /// record before: another state than the record's opening, or one whose first segment is another
    /// than the record's, or that is in no segment.
    Opening {
        /// The record.
        kept: Arc<Epoch>,
        /// What the call gives.
        result: Raw,
    },
    /// A later record names no call, or one that has not the reply that it opened this record.
    Named {
        /// The record.
        kept: Arc<Epoch>,
        /// The reply of the call that it names, if there is one.
        reply: Option<Reply>,
    },
    /// An expression has an id of a replica with a count that the replica had not reached in records
    /// up to the expression's.
    Counts {
        /// The replica whose id it is.
        replica: u32,
        /// One more than the id's count.
        held: u32,
        /// How many calls the replica had accepted in these records.
        accepted: u32,
    },
    /// Two lengths that are to be the same: those of a replica's records and of the first replica's, of
    /// its calls and of the work's list, of its replies and of its calls, or of the parts of a refused
    /// reply and of the replicas.
    Lengths {
        /// The replica's place.
        replica: u32,
        /// The length that is named first.
        ours: u64,
        /// The other one.
        theirs: u64,
    },
}

/// Why an audit stops before its end.
#[derive(Drop)]
pub enum Stop {
    /// A difference was found.
    Found(Difference),
    /// There was no memory left.
    OutOfMemory,
}

impl From<AllocError> for Stop {
    ghost use Rattle.std.specs.Prelude.{◌≡◌};
    ghost use Rattle.lucy_audit.specs.declared.differences.Stop.TheVariants.{OutOfMemory};

    ghost from_gives = { λ _ stop. stop ≡ OutOfMemory };

    fn from(_: AllocError) -> Stop {
        Stop::OutOfMemory
    }
}
