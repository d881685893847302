//! What is audited.
ghost use Rattle.std.specs.Prelude.{◌≡◌, ◌<◌, length, map, Some, slice_get};
ghost use Rattle.std.specs.Option.{option_map};
ghost use Rattle.std.specs.Arc.{arc_value};
ghost use Rattle.lucy_replica.specs.Replicas.{stays};
ghost use Rattle.lucy_replica.specs.Legal.{records_of};

use lucy_epochs::Epoch;
use lucy_plan::{Call, Plan};
use lucy_replica::Life;
use sqlite_items::Items;
use std::sync::Arc;

/// What was given, and what is left: the plan, a list of calls for each replica, the records of the
/// table, and the replicas.
#[derive(Drop)]
pub struct Kept<'a> {
    pub plan: &'a Arc<Plan>,
    pub work: &'a [Items<Call>],
    pub table: &'a [Arc<Epoch>],
    pub lives: &'a [Life],
}

/// How many records a replica has.
pub fn how_many_records(life: &Life) -> usize
    ensures { result ≡ length (records_of life.now.replica) }
{
    life.closings().len() + 1
}

/// The record of this number of a replica, if it has one.
pub fn record_of(life: &Life, number: usize) -> Option<&Arc<Epoch>>
    ensures { option_map (λ (epoch : _). arc_value epoch.now) result ≡ slice_get (records_of life.now.replica) number }
{
    let closings = life.closings();
    if number < closings.len() {
        return Some(&closings[number].epoch);
    }
    if number == closings.len() {
        return Some(life.epoch());
    }
    None
}
