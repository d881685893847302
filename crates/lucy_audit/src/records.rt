//! Whether all replicas have the same records, which are the table's and begin with the plan's.
ghost use Rattle.std.specs.Prelude.{◌≡◌, ◌≢◌, ◌<◌, ◌^◌, length, Some, slice_get, OnOk, IfOk, IfErr};
ghost use Rattle.std.specs.Arc.{arc_value};
ghost use Rattle.lucy_plan.specs.Soundness.{IsSound};
ghost use Rattle.lucy_audit.specs.Differences.{AreOtherRecords};
ghost use Rattle.lucy_epochs.specs.Records as records;
ghost use Rattle.lucy_audit.specs.Checks.{left_of, IsCause, HasSameRecords, HasSameRecord, IsBegun, IsListed, IsListedAt};

use crate::differences::{Difference, Stop};
use crate::kept::{Kept, how_many_records, record_of};
use crate::seats::other_lengths;
use lucy_epochs::Epoch;
use lucy_plan::Plan;
use std::alloc::{AllocError, Global};
use std::sync::Arc;

impl Kept<'_> {
    /// Whether the first record of the first replica is that of the plan.
    pub fn compare_first(&self, alloc: Global) -> Result<(), Stop>
        requires sound { IsSound (arc_value self.now.plan.now) }
        ensures ok { OnOk result (IsBegun (left_of self.now)) }
        ensures err { IfErr result (λ stop. IsCause (left_of self.now) stop) }
    {
        let Some(first) = self.lives.first() else {
            return Ok(());
        };
        let Some(ours) = record_of(first, 0) else {
            unreachable!()
        };
        let theirs = first_record(alloc, self.plan)?;
        if ours.is_same(&theirs) {
            return Ok(());
        }
        Err(self.other_records(ours, &theirs))
    }

    /// Whether its records are the table's, as far as both go.
    pub fn compare_table(&self) -> Result<(), Stop>
        ensures ok { OnOk result (IsListed (left_of self.now)) }
        ensures err { IfErr result (λ stop. IsCause (left_of self.now) stop) }
    {
        for number in 0..self.table.len() {
            self.compare_listed(number)?;
        }
        Ok(())
    }

    /// Whether the records of the replica at this place are those of the first one.
    pub fn compare_records(&self, place: usize) -> Result<(), Stop>
        requires few { length self.now.lives.now < 2 ^ 32 }
        requires within { place < length self.now.lives.now }
        ensures ok { OnOk result (HasSameRecords (left_of self.now) place) }
        ensures err { IfErr result (λ stop. IsCause (left_of self.now) stop) }
    {
        let ours = how_many_records(&self.lives[place]);
        let theirs = how_many_records(&self.lives[0]);
        if ours != theirs {
            return Err(other_lengths(self, place, ours, theirs));
        }
        for number in 0..ours {
            self.compare_record(place, number)?;
        }
        Ok(())
    }
}

// Record by record.
impl Kept<'_> {
    // Whether a record of the first replica is the table's of the same number.
    fn compare_listed(&self, number: usize) -> Result<(), Stop>
        requires { number < length self.now.table.now }
        ensures ok { OnOk result (IsListedAt (left_of self.now) number) }
        ensures err { IfErr result (λ stop. IsCause (left_of self.now) stop) }
    {
        let Some(first) = self.lives.first() else {
            return Ok(());
        };
        let Some(ours) = record_of(first, number) else {
            return Ok(());
        };
        let theirs = &self.table[number];
        if ours.is_same(theirs) {
            return Ok(());
        }
        Err(self.other_records(ours, theirs))
    }

    // Whether a record of the replica at this place is the first replica's of the same number.
    fn compare_record(&self, place: usize, number: usize) -> Result<(), Stop>
        requires { place < length self.now.lives.now }
        ensures ok { OnOk result (HasSameRecord (left_of self.now) place number) }
        ensures err { IfErr result (λ stop. IsCause (left_of self.now) stop) }
    {
        let Some(ours) = record_of(&self.lives[place], number) else {
            return Ok(());
        };
        let Some(theirs) = record_of(&self.lives[0], number) else {
            return Ok(());
        };
        if ours.is_same(theirs) {
            return Ok(());
        }
        Err(self.other_records(ours, theirs))
    }

    // Two records of one number that differ.
    fn other_records(&self, ours: &Arc<Epoch>, theirs: &Arc<Epoch>) -> Stop
        requires { AreOtherRecords (left_of self.now) (arc_value ours.now) (arc_value theirs.now) }
        ensures { IsCause (left_of self.now) result }
    {
        match shared(ours, theirs) {
            Ok((ours, theirs)) => Stop::Found(Difference::Records { ours, theirs }),
            Err(AllocError) => Stop::OutOfMemory,
        }
    }
}

// The same two records again.
fn shared(ours: &Arc<Epoch>, theirs: &Arc<Epoch>) -> Result<(Arc<Epoch>, Arc<Epoch>), AllocError>
    ensures { IfOk result (λ pair. (arc_value pair.0 ≡ arc_value ours.now) × (arc_value pair.1 ≡ arc_value theirs.now)) }
{
    let ours = ours.clone()?;
    let theirs = theirs.clone()?;
    Ok((ours, theirs))
}

// The first record of a plan.
fn first_record(alloc: Global, plan: &Arc<Plan>) -> Result<Arc<Epoch>, AllocError>
    requires { IsSound (arc_value plan.now) }
    ensures { IfOk result (λ epoch. arc_value epoch ≡ records.first_record (arc_value plan.now)) }
{
    let first = Epoch::first(alloc, plan.clone()?)?;
    Ok(Arc::new(alloc, first)?)
}
