//! How a replica gives its part to a change, lent from its lock.
ghost use Rattle.std.specs.Prelude.{◌≡◌, ◌≢◌, ◌≤◌, Bool, if◌then◌else◌, Some, None, slice_get, IfOk, IfErr, OnOk, OnErr};
ghost use Rattle.std.specs.Arc.{arc_value};
ghost use Rattle.lucy_epochs.specs.Collections.{with_part};
ghost use Rattle.lucy_replica.specs.Changing.{contributed, wish_of};
ghost use Rattle.lucy_cluster.specs.Causes.{IsUnfrozen};

use crate::error::ClusterError;
use lucy_epochs::{By, Collect};
use lucy_plan::Call;
use lucy_replica::Life;
use std::alloc::{AllocError, Global};

/// Collects the part of the replica of this number, which is lent from the lock of its place, and
/// reserves the room that it needs to act by a ruling. The replica stays as it is.
pub fn freeze(
    alloc: Global,
    number: u32,
    life: &mut Life,
    collect: &mut Collect,
) -> Result<(), ClusterError>
    requires { slice_get collect.old.seats number ≡ Some None }
    ensures replica { life.new.replica ≡ life.old.replica }
    ensures room { OnOk result (1 ≤ life.new.spare) }
    ensures number { OnOk result (life.old.replica.number ≡ number) }
    ensures epoch { OnOk result (life.old.replica.epoch ≡ collect.old.epoch) }
    ensures part { OnOk result (collect.new ≡ with_part collect.old (contributed life.old.replica)) }
    ensures err { IfErr result (λ e. IsUnfrozen number collect.old.epoch life.old.replica e) }
{
    let held = life.replica();
    if held != number {
        return Err(ClusterError::Seats {
            place: number,
            held,
        });
    }
    life.reserve(alloc)?;
    let part = life.part()?;
    collect.add(part)?;
    Ok(())
}

/// The call for which a change is made, and its name: that which the coordinator wants, once its lock
/// is held, and before that the one that is given.
pub fn wanted_at(
    alloc: Global,
    life: &Life,
    is_coordinator: bool,
    given: Option<(Call, By)>,
) -> Result<Option<(Call, By)>, AllocError>
    ensures { IfOk result (λ wanted. wanted ≡ (if is_coordinator then wish_of life.now.replica else given)) }
{
    if !is_coordinator {
        return Ok(given);
    }
    match life.wish() {
        None => Ok(None),
        Some((call, by)) => Ok(Some((call.copied(alloc)?, by))),
    }
}
