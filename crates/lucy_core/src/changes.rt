//! How far a change is, and what it holds.
use lucy_epochs::{Collect, Grant, Ruling, Table};
use lucy_replica::{Adoption, Event};
use std::alloc::{AllocError, Global};

/// How far a change is. While replicas are being frozen, one is frozen once its part was collected.
/// When the change was decided, one is frozen as long as its grant is there.
#[derive(Drop)]
pub enum Change {
    /// No change is on.
    Idle,
    /// Replicas are being frozen, for what this one wants.
    Freezing {
        /// The replica that wants the change.
        coordinator: u32,
        /// The parts of the replicas that are frozen.
        collect: Collect,
    },
    /// It was decided, and the replicas take what was decided, each its grant.
    Decided {
        /// The replica that wanted the change.
        coordinator: u32,
        /// What was decided.
        ruling: Ruling,
        /// The grants of the replicas that are frozen.
        grants: Vec<Option<Grant>>,
    },
}

ghost use Rattle.std.specs.Prelude.{◌≡◌, replicate, map, Some, IfOk, OnOk, OnErr};
ghost use Rattle.std.specs.List.{list_any};
ghost use Rattle.std.specs.Option.{is_some};
ghost use Rattle.lucy_core.specs.declared.changes.Change.TheVariants as stage;
ghost use Rattle.lucy_core.specs.Steps.{adopt_event, ruled_event, records_with};
ghost use Rattle.lucy_core.specs.Holding.{IsNextOf};
ghost use Rattle.lucy_core.specs.Worlds.{entry};
ghost use Rattle.lucy_epochs.specs.Sharing.{ruling_of};

/// The event of what a replica answers to a ruling.
pub fn adopted(answer: Adoption) -> Event
    ensures { result ≡ adopt_event answer }
{
    match answer {
        Adoption::Moved(id) => Event::Moved(id),
        Adoption::Adopted => Event::Adopted,
        Adoption::Refused => Event::Refused,
        Adoption::Kept => Event::Kept,
    }
}

/// The event of a ruling.
pub fn ruled(ruling: &Ruling) -> Event
    ensures { result ≡ ruled_event (ruling_of ruling.now) }
{
    match ruling {
        Ruling::Opened(epoch) => Event::Opened(epoch.number()),
        Ruling::Broken(_) => Event::RuledBroken,
        Ruling::Nothing => Event::RuledNothing,
    }
}

/// A grant of a ruling for each of so many replicas.
pub fn granted(
    alloc: Global,
    ruling: &Ruling,
    replicas: usize,
) -> Result<Vec<Option<Grant>>, AllocError>
    ensures { IfOk result (λ grants. grants.items ≡ replicate replicas (Some (ruling_of ruling.now))) }
{
    let mut grants = Vec::new(alloc);
    for _ in 0..replicas {
        let grant = ruling.grant()?;
        grants.push(Some(grant))?;
    }
    Ok(grants)
}

/// Whether a grant is left.
pub fn is_left(grants: &[Option<Grant>]) -> bool
    ensures { result ≡ list_any (λ grant. is_some grant) grants.now }
{
    grants.iter().any(|grant| grant.is_some())
}

/// Whether the grant of the replica of this number is there.
pub fn has_grant(grants: &[Option<Grant>], number: u32) -> bool
    ensures { result ≡ entry (map is_some grants.now) number }
{
    match grants.get(number as usize) {
        Some(grant) => grant.is_some(),
        None => false,
    }
}

/// Adds the record that a ruling opened, if it opened one, which is the next one.
pub fn note(table: &mut Table, ruling: &Ruling) -> Result<(), AllocError>
    requires { IsNextOf table.old.records (ruling_of ruling.now) }
    ensures ok { OnOk result (table.new.records ≡ records_with table.old.records (ruling_of ruling.now)) }
    ensures err { OnErr result (table.new.records ≡ table.old.records) }
{
    match ruling {
        Ruling::Opened(epoch) => {
            let epoch = epoch.clone()?;
            table.reserve()?;
            table.push(epoch);
            Ok(())
        }
        Ruling::Broken(_) | Ruling::Nothing => Ok(()),
    }
}

/// Ends a change.
pub fn end(change: &mut Change)
    ensures { change.new ≡ stage.Idle }
{
    *change = Change::Idle;
}
