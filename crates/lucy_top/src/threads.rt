//! A work on threads, and what is found of it afterwards.

ghost use Rattle.std.specs.Prelude.{◌≡◌, ℕ, length, IfOk, IfErr};
ghost use Rattle.std.specs.Arc.{arc_value};
ghost use Rattle.lucy_cluster.specs.Causes.{IsCause};
ghost use Rattle.lucy_core.specs.Worlds.{IsWorkOf};
ghost use Rattle.lucy_top.specs.Threads.{Differs, IsWorked};

use lucy_audit::{Audit, Difference, audit};
use lucy_calls::Work;
use lucy_cluster::{Cluster, ClusterError, Gate};
use lucy_core::Outcome;
use lucy_judge::Checked;
use std::alloc::{AllocError, Global};
use std::sync::{Arc, Wait};
use std::thread::Threads;

/// What threads came to.
#[derive(Drop)]
pub enum Worked {
    /// Each call has a reply, and the outcome is legal.
    Agreed(Outcome),
    /// Two values that have to be the same differ.
    Apart(Difference),
}

/// What replicas work with: threads, a gate that they pass, and a seed for what mailboxes draw.
#[derive(Drop)]
pub struct Crew<'a, R, G> {
    pub rt: &'a R,
    pub gate: &'a G,
    pub seed: u64,
}

impl<R: Threads + Wait + Sync, G: Gate + Sync> Crew<'_, R, G> {
    /// Lets all replicas of a work run on threads, and audits what they leave. Each call fits the plan,
    /// and there are 1 to 16 replicas with at most 4,096 calls each.
    pub fn work(
        &self,
        alloc: Global,
        checked: &Arc<Checked>,
        work: &Work,
    ) -> Result<Worked, AllocError>
        requires { IsWorkOf (arc_value checked.now) work.now.lists }
        ensures { IfOk result (IsWorked (arc_value checked.now) work.now.lists) }
    {
        let cluster = Cluster::new(alloc, checked.clone()?, work, self.seed)?;
        match self.work_all(alloc, &cluster) {
            Ok(()) => audited(alloc, checked, work, cluster),
            Err(error) => Ok(Worked::Apart(difference_in(error)?)),
        }
    }

    // Works on all calls: on threads, and then once more replica by replica, so that nothing is left of
    // a work for which no thread could be made.
    fn work_all(&self, alloc: Global, cluster: &Cluster) -> Result<(), ClusterError>
        ensures { IfErr result (λ error. IsCause cluster.now error) }
    {
        cluster.work_all(self.rt, alloc, self.gate)?;
        for replica in 0..cluster.replicas() {
            cluster.work(self.rt, alloc, replica, self.gate)?;
        }
        Ok(())
    }
}

// The difference for which a work stopped, unless it stopped for want of memory.
fn difference_in(error: ClusterError) -> Result<Difference, AllocError>
    ensures { (replicas : ℕ) → IsCause replicas error → IfOk result Differs }
{
    match error {
        ClusterError::Apart { ours, theirs } => Ok(Difference::Records { ours, theirs }),
        ClusterError::Seats { place, held } => Ok(Difference::Seats { place, held }),
        ClusterError::OutOfMemory => Err(AllocError),
    }
}

// What is left once no thread works any more, after it was audited.
fn audited(
    alloc: Global,
    checked: &Checked,
    work: &Work,
    cluster: Cluster,
) -> Result<Worked, AllocError>
    requires work { IsWorkOf checked.now work.now.lists }
    requires many { cluster ≡ length work.now.lists }
    ensures { IfOk result (IsWorked checked.now work.now.lists) }
{
    let (table, lives) = cluster.finish(alloc)?;
    match audit(alloc, checked, work, &table, &lives)? {
        Audit::Agreed => Ok(Worked::Agreed(Outcome {
            threads: true,
            lives,
        })),
        Audit::Apart(difference) => Ok(Worked::Apart(difference)),
    }
}
