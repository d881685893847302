ghost use Rattle.std.specs.Prelude.{◌≡◌, IfOk, Option};
ghost use Rattle.lucy_io.specs.Inputs.{Told};
ghost use Rattle.lucy_top.specs.Fetching.{Fetches, Concludes, OrRefused};
ghost use Rattle.lucy_top.specs.Verdicts.{Says, Verdict};

use crate::said::{Said, Stop};
use crate::texts::{stop_absent, stop_failed, stop_refused, stop_with};
use lucy_io::{FetchError, Inputs};
use lucy_reading::{Refusal, too_long};
use std::alloc::{AllocError, Global};

/// The bytes of an input, or the end of the command that asks for it.
pub fn fetch_input<I: Inputs>(
    alloc: Global,
    inputs: &mut I,
    name: &str,
    most: u32,
) -> Result<Vec<u8>, Stop>
    ensures told { I.told inputs.new ≡ I.told inputs.old }
    ensures fetched { (told : Option Told) → told ≡ I.told inputs.old → Fetches name.now most told (I.journal inputs.old) (I.journal inputs.new) result }
{
    let limit = most as usize;
    match inputs.fetch(alloc, name, limit) {
        Ok(Some(bytes)) => {
            if bytes.len() > limit {
                return Err(stop_refused(too_long(alloc, name, most)));
            }
            Ok(bytes)
        }
        Ok(None) => Err(stop_absent(alloc, name)),
        Err(FetchError::Failed) => Err(stop_failed(alloc, name)),
        Err(FetchError::OutOfMemory) => Err(Stop::OutOfMemory),
    }
}

/// What was read, or the end of the command where the input is refused.
pub fn or_refused<T: Drop>(read: Result<T, Refusal>) -> Result<T, Stop>
    ensures { OrRefused read result }
{
    match read {
        Ok(value) => Ok(value),
        Err(Refusal::Bad(line)) => Err(stop_with(line)),
        Err(Refusal::OutOfMemory) => Err(Stop::OutOfMemory),
    }
}

/// The end of a command.
pub fn conclude(said: Result<Said, AllocError>) -> Result<Said, Stop>
    ensures { (v : Verdict) → IfOk said (λ s. Says v s.status s.text.items) → Concludes v result }
{
    match said {
        Ok(said) => Ok(said),
        Err(_) => Err(Stop::OutOfMemory),
    }
}
