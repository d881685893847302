ghost use Rattle.std.specs.Prelude.{◌≡◌, ℕ, ◌+◌, ◌^◌, ◌<◌, ◌==◌, if◌then◌else◌, max, IfOk, vec_len, length, slice_index};

use crate::ids::Id;
use std::alloc::{AllocError, Global};

/// The number at a place, 0 past the end.
fn at(counts: &[u32], place: usize) -> u32
    ensures { result ≡ slice_index counts.now place }
{
    counts.get(place).copied().unwrap_or(0)
}

/// Makes room for an id.
pub(crate) fn raise(counts: &mut Vec<u32>, id: Id)
    requires replica { id.replica < vec_len counts.old }
    requires count { id.count + 1 < 2 ^ 32 }
    ensures len { vec_len counts.new ≡ vec_len counts.old }
    ensures each { (r : ℕ) → slice_index counts.new.items r
        ≡ max (if id.replica == r then id.count + 1 else 0) (slice_index counts.old.items r) }
{
    let place = id.replica as usize;
    let count = counts[place].max(id.count + 1);
    counts[place] = count;
}

/// The greater number at each place.
pub(crate) fn greater(alloc: Global, left: &[u32], right: &[u32]) -> Result<Vec<u32>, AllocError>
    ensures len { IfOk result (λ v. vec_len v ≡ max (length left.now) (length right.now)) }
    ensures each { IfOk result (λ v. (r : ℕ) →
        slice_index v.items r ≡ max (slice_index left.now r) (slice_index right.now r)) }
{
    let mut counts = Vec::new(alloc);
    for place in 0..left.len().max(right.len()) {
        counts.push(at(left, place).max(at(right, place)))?;
    }
    Ok(counts)
}
