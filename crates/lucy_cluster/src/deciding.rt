//! How a change is decided, once all locks are held.
ghost use Rattle.std.specs.Prelude.{◌≡◌, ◌≢◌, ◌≤◌, ◌<◌, ◌+◌, ◌^◌, length, replicate, Some, IfOk, IfErr, IfSome, OnOk, OnErr, IsTrue};
ghost use Rattle.std.specs.Arc.{arc_value};
ghost use Rattle.lucy_plan.specs.Calls.{Fits};
ghost use Rattle.lucy_plan.specs.Soundness.{IsCovered};
ghost use Rattle.lucy_epochs.specs.Collections.{is_full, parts_of};
ghost use Rattle.lucy_epochs.specs.Lists.{last_of};
ghost use Rattle.lucy_epochs.specs.Records.{Record};
ghost use Rattle.lucy_epochs.specs.Rulings as decided;
ghost use Rattle.lucy_epochs.specs.Sharing.{ruling_of};
ghost use Rattle.lucy_cluster.specs.Causes.{IsUndecided};
ghost use Rattle.lucy_cluster.specs.Changes.{changed_by, noted, IsNextOf};

use crate::error::ClusterError;
use lucy_epochs::{By, Collect, Epoch, Grant, Ruling, Table, rule};
use lucy_plan::Call;
use std::alloc::{AllocError, Global};
use std::sync::Arc;

/// What became of the call for which a replica wanted a change.
#[derive(Clone, Copy, Debug, PartialEq, Eq)]
pub enum Changed {
    /// It opened a record.
    Moved,
    /// Its result on the merge of all parts breaks the invariant.
    Refused,
    /// Under the lock no call was wanted any more.
    Nothing,
}

/// A change that is decided, with a grant for each replica that has not acted by it yet.
#[derive(Drop)]
pub struct Decision {
    pub ruling: Ruling,
    pub grants: Vec<Grant>,
}

impl Decision {
    /// What the coordinator is answered.
    pub fn changed(&self) -> Changed
        ensures { result ≡ changed_by (ruling_of self.now.ruling) }
    {
        match &self.ruling {
            Ruling::Opened(_) => Changed::Moved,
            Ruling::Broken(_) => Changed::Refused,
            Ruling::Nothing => Changed::Nothing,
        }
    }
}

/// Decides a change of which all parts were collected, with the table of records lent from its lock.
/// A record that is opened is added to the table. There is a grant for each of so many replicas. After
/// a refusal the table has the records that it had.
pub fn decide(
    alloc: Global,
    table: &mut Table,
    collect: &Collect,
    wanted: &Option<(Call, By)>,
    replicas: usize,
) -> Result<Decision, ClusterError>
    requires full { IsTrue (is_full collect.now.seats) }
    requires some { 1 ≤ length collect.now.seats }
    requires fits { IfSome wanted.now (λ w. Fits collect.now.epoch.plan w.0) }
    requires covered { IsCovered collect.now.epoch.plan }
    ensures ruling { IfOk result (λ d. ruling_of d.ruling ≡ decided.rule collect.now.epoch (parts_of collect.now.seats) wanted.now) }
    ensures grants { IfOk result (λ d. d.grants.items ≡ replicate replicas (ruling_of d.ruling)) }
    ensures table { IfOk result (λ d. table.new.records ≡ noted table.old.records (ruling_of d.ruling)) }
    ensures err { OnErr result (table.new.records ≡ table.old.records) }
    ensures cause { (last : Record) → last_of table.old.records ≡ Some last → IfErr result (IsUndecided collect.now.epoch last) }
{
    if !table.last().is_same(collect.epoch()) {
        return Err(apart(collect.epoch(), table.last()));
    }
    let records = table.list().len();
    prove!(records < usize::MAX);
    let ruling = ruled(alloc, collect, wanted)?;
    let grants = granted(alloc, &ruling, replicas)?;
    note(table, &ruling)?;
    Ok(Decision { ruling, grants })
}

// That another record is the table's last one.
fn apart(ours: &Arc<Epoch>, theirs: &Arc<Epoch>) -> ClusterError
    requires { arc_value theirs.now ≢ arc_value ours.now }
    ensures { IsUndecided (arc_value ours.now) (arc_value theirs.now) result }
{
    match both(ours, theirs) {
        Ok((ours, theirs)) => ClusterError::Apart { ours, theirs },
        Err(_) => ClusterError::OutOfMemory,
    }
}

// Shares of two records.
fn both(first: &Arc<Epoch>, second: &Arc<Epoch>) -> Result<(Arc<Epoch>, Arc<Epoch>), AllocError>
    ensures { IfOk result (λ both. (arc_value both.0 ≡ arc_value first.now) × (arc_value both.1 ≡ arc_value second.now)) }
{
    let first = first.clone()?;
    let second = second.clone()?;
    Ok((first, second))
}

// The ruling on all parts.
fn ruled(
    alloc: Global,
    collect: &Collect,
    wanted: &Option<(Call, By)>,
) -> Result<Ruling, AllocError>
    requires full { IsTrue (is_full collect.now.seats) }
    requires some { 1 ≤ length collect.now.seats }
    requires fits { IfSome wanted.now (λ w. Fits collect.now.epoch.plan w.0) }
    requires covered { IsCovered collect.now.epoch.plan }
    requires number { collect.now.epoch.number + 1 < 2 ^ 64 }
    ensures { IfOk result (λ ruling. ruling_of ruling ≡ decided.rule collect.now.epoch (parts_of collect.now.seats) wanted.now) }
{
    match wanted {
        None => rule(alloc, collect, None),
        Some((call, by)) => rule(alloc, collect, Some((call, *by))),
    }
}

// A grant of a ruling for each of so many replicas.
fn granted(alloc: Global, ruling: &Ruling, replicas: usize) -> Result<Vec<Grant>, AllocError>
    ensures { IfOk result (λ grants. grants.items ≡ replicate replicas (ruling_of ruling.now)) }
{
    let mut grants = Vec::new(alloc);
    for _ in 0..replicas {
        let grant = ruling.grant()?;
        grants.push(grant)?;
    }
    Ok(grants)
}

// Adds the record that a ruling opened, if it opened one, which is the next one.
fn note(table: &mut Table, ruling: &Ruling) -> Result<(), AllocError>
    requires { IsNextOf table.old.records (ruling_of ruling.now) }
    ensures ok { OnOk result (table.new.records ≡ noted table.old.records (ruling_of ruling.now)) }
    ensures err { OnErr result (table.new.records ≡ table.old.records) }
{
    match ruling {
        Ruling::Opened(epoch) => {
            let epoch = epoch.clone()?;
            table.reserve()?;
            table.push(epoch);
            Ok(())
        }
        Ruling::Broken(_) | Ruling::Nothing => Ok(()),
    }
}
