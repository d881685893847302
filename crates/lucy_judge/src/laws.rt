//! Laws of judging.

ghost use Rattle.lucy_judge.specs.Laws.{AcceptedIsSound, AcceptedExactly, JudgedInParts};

use lucy_cert::refutes_exactly;
use lucy_checker::{checkers_are_exact, refuted_has_no_model};
use lucy_closure::{escape_is_closure_model, uncovered_is_cover_model};

/// A plan with a certificate that is not refused is sound.
pub fn accepted_is_sound()
    ensures { AcceptedIsSound }
{
    refutes_exactly();
    refuted_has_no_model();
    escape_is_closure_model();
    uncovered_is_cover_model();
}

/// A certificate is not refused exactly where the start satisfies the invariant, and each needed part is there and
/// refutes its formula with the certificate's number of live clauses.
pub fn accepted_exactly()
    ensures { AcceptedExactly }
{
    refutes_exactly();
}

/// A certificate that is judged a part and a step at a time is refused as the whole is.
pub fn judged_in_parts()
    ensures { JudgedInParts }
{
    checkers_are_exact();
}
