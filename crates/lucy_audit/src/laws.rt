ghost use Rattle.lucy_audit.specs.Laws.{AgreedIsNotApart};

use lucy_plan::no_first_segment_is_none;

/// Where the outcome is legal and its records are the table's, as far as both go, no difference holds.
pub fn agreed_is_not_apart()
    ensures { AgreedIsNotApart }
{
    no_first_segment_is_none();
}
