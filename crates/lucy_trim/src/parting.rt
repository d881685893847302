//! Numbers parted by whether a later step names their clauses.
ghost use Rattle.std.specs.Prelude.{◌≡◌, IfOk};
ghost use Rattle.lucy_trim.specs.Steps as spec;

use crate::uses::Uses;
use sqlite_items::Items;
use std::alloc::{AllocError, Global};

/// Numbers of clauses.
#[derive(Drop)]
pub struct Split {
    /// Those that a later step names.
    pub used: Items<u64>,
    /// Those that none does.
    pub used_up: Items<u64>,
}

/// The numbers whose clauses a step behind so many names, and the others.
pub fn parted(alloc: Global, uses: &Uses, steps: u64, numbers: &[u64]) -> Result<Split, AllocError>
    ensures used { IfOk result (λ p. p.used ≡ spec.still_used uses.now.first uses.now.last steps numbers.now) }
    ensures used_up { IfOk result (λ p. p.used_up ≡ spec.used_up uses.now.first uses.now.last steps numbers.now) }
{
    let mut used = Items::new(alloc);
    let mut used_up = Items::new(alloc);
    for number in numbers {
        if uses.is_used_behind(steps, *number) {
            used.push(*number)?;
        } else {
            used_up.push(*number)?;
        }
    }
    Ok(Split { used, used_up })
}
