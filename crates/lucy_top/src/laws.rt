ghost use Rattle.lucy_top.specs.Laws.{LinesJoin, GoodInputsComeToTheirVerdict, StatusTellsSoundness, CertifiedIsVerified, StatusTellsConfluence};

use lucy_cert::written_is_read_back;
use lucy_session::broken_is_not_confluent;

/// The lines of two lists of steps, one after the other, are those of the first, and those of the
/// second from the world after the first on: so each line is of its own step, and shows the world
/// after it.
pub fn lines_join()
    ensures { LinesJoin }
{}

/// Where the inputs that the words name are there, within their limits and in
/// their forms, the words come to the verdict on what they say.
pub fn good_inputs_come_to_their_verdict()
    ensures { GoodInputsComeToTheirVerdict }
{}

/// A status of 0 tells that the plan is sound, or that the certificate is accepted, and so that the
/// plan is sound; and of a replay that its worlds are safe.
pub fn status_tells_soundness()
    ensures { StatusTellsSoundness }
{}

/// What `certify` writes for a sound plan is accepted by `verify`, if it is within 64 MiB.
pub fn certified_is_verified()
    ensures { CertifiedIsVerified }
{
    written_is_read_back();
}

/// Of `label` a status of 0 tells that the plan is confluent, if none of the states that are written as
/// unreachable is reached; a status of 1 that it is not confluent, or that this was not decided, or that
/// the start breaks the invariant.
pub fn status_tells_confluence()
    ensures { StatusTellsConfluence }
{
    broken_is_not_confluent();
}
