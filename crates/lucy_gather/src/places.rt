//! Counts and places of lists, which no memory lets grow past what they are told by.

ghost use Rattle.std.specs.Prelude.{◌≡◌, ◌+◌, ◌≤◌, ◌^◌, Ok, OnErr};
ghost use Rattle.lucy_gather.specs.Steps.{Answers};

use crate::error::ElabError;

/// One more than a count.
pub fn one_more(count: usize) -> Result<usize, ElabError>
    ensures more { Answers (Ok (count + 1)) result }
    ensures memory { OnErr result (2 ^ 64 ≤ count + 1) }
{
    match count.checked_add(1) {
        Some(more) => Ok(more),
        None => Err(ElabError::OutOfMemory),
    }
}

/// A place in a list that the limits keep short.
pub fn slot_of(place: usize) -> Result<u32, ElabError>
    ensures place { Answers (Ok place) result }
    ensures memory { OnErr result (2 ^ 32 ≤ place) }
{
    match u32::try_from(place) {
        Ok(slot) => Ok(slot),
        Err(_) => Err(ElabError::OutOfMemory),
    }
}
