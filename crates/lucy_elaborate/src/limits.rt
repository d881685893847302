//! Places below a limit, and what is let go of at a refusal.

ghost use Rattle.std.specs.Prelude.{◌≡◌, ◌<◌, ◌^◌};
ghost use Rattle.lucy_elaborate.specs.Limits as spec;

use lucy_gather::ElabError;
use lucy_plan::What;

/// The place of one more behind `count` others, of which there may be at most `most`.
pub fn next_place(count: usize, most: u64, what: What) -> Result<u32, ElabError>
    requires { most < 2 ^ 32 }
    ensures { result ≡ spec.next_place count most what }
{
    if (count as u64) < most {
        Ok(count as u32)
    } else {
        Err(ElabError::Limit {
            what,
            count: most + 1,
        })
    }
}

/// Lets go of what was made before a fault, and refuses. So what makes a plan writes out no drop of a whole condition.
pub fn refused<T: Drop, R>(made: T, error: ElabError) -> Result<R, ElabError>
    ensures { result ≡ Err error }
{
    drop(made);
    Err(error)
}
