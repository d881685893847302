//! What findings say of a plan.
ghost use Rattle.lucy_findings.specs.Laws.{ClosedIsMergeClosed, HoldsIsCovered, SoundIsSound, FoundSoundIsAccepted};

use lucy_cert::refutes_exactly;
use lucy_checker::refuted_has_no_model;
use lucy_closure::{escape_is_closure_model, uncovered_is_cover_model};
use lucy_trim::{more_live_refutes, trimmed_refutes};

/// A segment with a transaction is found closed exactly where it is merge closed.
pub fn closed_is_merge_closed()
    ensures { ClosedIsMergeClosed }
{
    refuted_has_no_model();
    escape_is_closure_model();
}

/// The cover is found to hold exactly where the segments cover the invariant.
pub fn holds_is_covered()
    ensures { HoldsIsCovered }
{
    refuted_has_no_model();
    uncovered_is_cover_model();
}

/// A plan is found sound exactly where it is sound.
pub fn sound_is_sound()
    ensures { SoundIsSound }
{
    closed_is_merge_closed();
    holds_is_covered();
}

/// The certificate of a plan that is found sound is accepted.
pub fn found_sound_is_accepted()
    ensures { FoundSoundIsAccepted }
{
    trimmed_refutes();
    more_live_refutes();
    refutes_exactly();
}
