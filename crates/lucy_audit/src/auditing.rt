//! Whether what is left is a legal outcome.
ghost use Rattle.std.specs.Prelude.{◌≡◌, ◌<◌, ◌^◌, length, map, OnOk, IfOk, IfErr};
ghost use Rattle.std.specs.Arc.{arc_value};
ghost use Rattle.lucy_plan.specs.Soundness.{IsSound};
ghost use Rattle.lucy_audit.specs.Differences.{IsAgreed, Tells};
ghost use Rattle.lucy_audit.specs.Checks.{left_of, IsCause, IsFine, AreFine, AreSettled};
ghost use Rattle.lucy_audit.specs.Tallies.{AreTallies};

use crate::differences::{Audit, Stop};
use crate::kept::Kept;
use crate::laws::agreed_is_not_apart;
use crate::tallies::tallies_of;
use lucy_calls::Work;
use lucy_epochs::Table;
use lucy_judge::Checked;
use lucy_replica::Life;
use sqlite_items::Items;
use std::alloc::{AllocError, Global};

/// Compares what is left of a run with what is legal, once no thread works any more: the replicas with
/// the work, their records with one another, with the table's and with the plan, each opening with what
/// the replicas kept, and each expression with the calls that were accepted by then. `Agreed` exactly
/// where the outcome is legal and no record of it is another than the table's of the same number.
/// `Apart` only with a difference that holds. There are as many replicas as lists in the work, fewer
/// than 2^32.
pub fn audit(
    alloc: Global,
    checked: &Checked,
    work: &Work,
    table: &Table,
    lives: &[Life],
) -> Result<Audit, AllocError>
    requires many { length lives.now ≡ length work.now.lists }
    requires few { length lives.now < 2 ^ 32 }
    ensures { IfOk result (λ audit. Tells (record {
      plan = checked.now;
      work = work.now.lists;
      table = table.now.records;
      replicas = map (λ life. life.replica) lives.now;
    }) audit) }
{
    agreed_is_not_apart();
    let kept = Kept {
        plan: checked.plan(),
        work: work.lists.as_slice(),
        table: table.list(),
        lives,
    };
    match kept.compare(alloc) {
        Ok(()) => Ok(Audit::Agreed),
        Err(Stop::Found(difference)) => Ok(Audit::Apart(difference)),
        Err(Stop::OutOfMemory) => Err(AllocError),
    }
}

impl Kept<'_> {
    // Compares all.
    fn compare(&self, alloc: Global) -> Result<(), Stop>
        requires sound { IsSound (arc_value self.now.plan.now) }
        requires many { length self.now.lives.now ≡ length self.now.work.now }
        requires few { length self.now.lives.now < 2 ^ 32 }
        ensures ok { OnOk result (IsAgreed (left_of self.now)) }
        ensures err { IfErr result (λ stop. IsCause (left_of self.now) stop) }
    {
        self.compare_first(alloc)?;
        self.compare_table()?;
        self.compare_replicas(alloc)?;
        self.compare_openings(alloc)
    }

    // Compares all replicas, but for how their records were opened.
    fn compare_replicas(&self, alloc: Global) -> Result<(), Stop>
        requires many { length self.now.lives.now ≡ length self.now.work.now }
        requires few { length self.now.lives.now < 2 ^ 32 }
        ensures ok { OnOk result (AreFine (left_of self.now)) }
        ensures err { IfErr result (λ stop. IsCause (left_of self.now) stop) }
    {
        self.facts();
        let tallies = tallies_of(alloc, self.lives)?;
        for place in 0..self.lives.len() {
            self.compare_replica(alloc, tallies.as_slice(), place)?;
        }
        Ok(())
    }

    // Compares the replica at this place.
    fn compare_replica(
        &self,
        alloc: Global,
        tallies: &[Items<usize>],
        place: usize,
    ) -> Result<(), Stop>
        requires tallies { AreTallies (left_of self.now).replicas tallies.now }
        requires many { length self.now.lives.now ≡ length self.now.work.now }
        requires few { length self.now.lives.now < 2 ^ 32 }
        requires within { place < length self.now.lives.now }
        ensures ok { OnOk result (IsFine (left_of self.now) place) }
        ensures err { IfErr result (λ stop. IsCause (left_of self.now) stop) }
    {
        self.compare_seat(place)?;
        self.compare_calls(alloc, place)?;
        self.compare_replies(place)?;
        self.compare_records(place)?;
        self.compare_counts(tallies, place)
    }

    // What the type of each replica keeps. It does nothing.
    fn facts(&self)
        ensures { AreSettled (left_of self.now) }
    {
        for place in 0..self.lives.len() {
            self.lives[place].facts();
        }
    }
}
