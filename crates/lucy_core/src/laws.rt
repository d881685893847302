ghost use Rattle.lucy_core.specs.Laws.{OpeningIsSafe, StepsKeepSafe, RunsKeepSafe, EveryRunIsSafe, SafeOutcomeIsLegal, RunOutcomeIsLegal, AloneIsLegal, RunsJoin, FrontsHaveFrontEvents, FrozenIsHeld, DoneExactly, BrokenExactly, FrozenExactly, MovedExactly, SubmitReadsItsReplica, SubmitChangesItsReplica, ThawChangesItsReplica, PacketsStay, RecordsStay, WorkStays};

use lucy_epochs::next_record_is_in_segment;
use lucy_replica::{
    adopt_keeps, broken_exactly, done_exactly, newcomer_is_settled, receive_keeps, same_exactly,
    settled_is_whole, submit_keeps,
};

/// The opening world of a sound plan is safe.
pub fn opening_is_safe()
    ensures { OpeningIsSafe }
{
    newcomer_is_settled();
    settled_is_whole();
}

/// Every step keeps a world safe.
pub fn steps_keep_safe()
    ensures { StepsKeepSafe }
{
    submit_keeps();
    receive_keeps();
    adopt_keeps();
    same_exactly();
    next_record_is_in_segment();
    settled_is_whole();
}

/// Every list of steps keeps a world safe, after each front of it.
pub fn runs_keep_safe()
    ensures { RunsKeepSafe }
{
    submit_keeps();
    receive_keeps();
    adopt_keeps();
    same_exactly();
    next_record_is_in_segment();
    settled_is_whole();
}

/// Under a sound plan the world is safe after each front of every list of steps.
pub fn every_run_is_safe()
    ensures { EveryRunIsSafe }
{
    opening_is_safe();
    runs_keep_safe();
}

/// A safe world that keeps its facts, in which no change is on and each call has a reply, is a legal
/// outcome.
pub fn safe_outcome_is_legal()
    ensures { SafeOutcomeIsLegal }
{}

/// So is what all replicas show after a list of steps under a sound plan, where no change is on and
/// each call has a reply.
pub fn run_outcome_is_legal()
    ensures { RunOutcomeIsLegal }
{
    opening_is_safe();
    runs_keep_safe();
}

/// So is what one thread alone comes to.
pub fn alone_is_legal()
    ensures { AloneIsLegal }
{
    run_outcome_is_legal();
}

/// One list of steps after another is one list.
pub fn runs_join()
    ensures { RunsJoin }
{}

/// The events of a front of a list are the front of its events.
pub fn fronts_have_front_events()
    ensures { FrontsHaveFrontEvents }
{}

/// A frozen replica's submit is held.
pub fn frozen_is_held()
    ensures { FrozenIsHeld }
{}

/// Where the replica is not frozen, a submit is answered `Done` exactly where the result of its next
/// call satisfies the invariant and the call is inside its segment.
pub fn submit_is_done_exactly()
    ensures { DoneExactly }
{
    done_exactly();
}

/// Where the replica is not frozen, a submit is answered `Broken` exactly where the result of its next
/// call breaks the invariant.
pub fn submit_is_broken_exactly()
    ensures { BrokenExactly }
{
    broken_exactly();
}

/// A freeze is answered `Frozen` exactly where replicas are being frozen and this one is not frozen
/// yet.
pub fn freeze_is_frozen_exactly()
    ensures { FrozenExactly }
{}

/// A thaw is answered `Moved` exactly where a record was opened and the replica is its coordinator,
/// still frozen.
pub fn thaw_is_moved_exactly()
    ensures { MovedExactly }
{}

/// A submit reads no other replica, but for whether a change has frozen its own.
pub fn submit_reads_its_replica()
    ensures { SubmitReadsItsReplica }
{}

/// A submit changes no other replica, and neither packets nor records nor a change.
pub fn submit_changes_its_replica()
    ensures { SubmitChangesItsReplica }
{}

/// A thaw changes no other replica.
pub fn thaw_changes_its_replica()
    ensures { ThawChangesItsReplica }
{}

/// A packet that was sent stays, so it may be delivered any number of times, or never.
pub fn packets_stay()
    ensures { PacketsStay }
{}

/// A record that was opened stays: the list of records only grows.
pub fn records_stay()
    ensures { RecordsStay }
{}

/// No step changes a replica's number or its calls.
pub fn work_stays()
    ensures { WorkStays }
{}
