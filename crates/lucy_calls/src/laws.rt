//! Laws of the definitions that contracts cite.

ghost use Rattle.lucy_calls.specs.Laws.{StepsAreReadBack, StepsNameReplicas, WorkFits, WorkIsReadBack};

use lucy_io::written_is_read;
use lucy_names::names_are_found;

/// Steps that are written are read back, where each replica is one of so many and the text is within
/// its limit.
pub fn steps_are_read_back()
    ensures { StepsAreReadBack }
{
    written_is_read();
}

/// Work that is written is read back, where the names of the plan's transactions differ and have no
/// byte that parts fields, the work is within its limits and the text within its own.
pub fn work_is_read_back()
    ensures { WorkIsReadBack }
{
    written_is_read();
    names_are_found();
}

/// Each step of a script names one of its replicas.
pub fn steps_name_replicas()
    ensures { StepsNameReplicas }
{}

/// What a work text for a plan says is 1 to 16 lists, each of at most 4,096 calls that fit the plan.
pub fn work_fits()
    ensures { WorkFits }
{}
