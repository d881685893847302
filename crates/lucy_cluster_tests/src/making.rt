//! Clusters of plans that are texts.

use crate::ends::Ends;
use lucy_calls::Work;
use lucy_cluster::{Cluster, Gate};
use lucy_core::is_work_of;
use lucy_findings::{certificate, examine, is_sound};
use lucy_judge::{Checked, judge};
use lucy_net::Weather;
use lucy_plan::{Call, Plan};
use lucy_reading::read_plan;
use sqlite_items::Items;
use std::alloc::{AllocError, Global};
use std::sync::{Arc, Wait};
use std::thread::Threads;

/// What each replica has to do: calls of the first transaction, with one argument that is the same in
/// all of them.
#[derive(Clone, Copy)]
pub struct Task {
    pub calls: u32,
    pub argument: i64,
}

impl Task {
    // Its calls.
    fn calls(self, alloc: Global) -> Result<Items<Call>, AllocError> {
        let mut calls = Items::new(alloc);
        for _ in 0..self.calls {
            let arguments = Items::from_slice(alloc, &[self.argument])?;
            calls.push(Call { txn: 0, arguments })?;
        }
        Ok(calls)
    }
}

/// What is worked on: the text of a plan, a task for each replica, and the weather of their mailboxes.
#[derive(Clone, Copy)]
pub struct Case<'a> {
    pub plan: &'a str,
    pub tasks: &'a [Task],
    pub weather: Weather,
}

/// The replicas of a case before they work, with the plan and the work that it says.
#[derive(Drop)]
pub struct Begun {
    pub checked: Arc<Checked>,
    pub work: Work,
    pub cluster: Cluster,
}

impl Begun {
    /// What is left once nobody works any more.
    pub fn end(self, alloc: Global) -> Option<Ends> {
        let (table, lives) = self.cluster.finish(alloc).ok()?;
        Some(Ends {
            checked: self.checked,
            work: self.work,
            table,
            lives,
        })
    }
}

// The plan of a text, as a checked one by the certificate that is found for it.
fn checked(alloc: Global, text: &str) -> Option<Arc<Checked>> {
    let (plan, names) = read_plan(alloc, "plan", text.as_bytes()).ok()?;
    drop(names);
    let plan = Arc::new(alloc, plan).ok()?;
    Arc::new(alloc, judged(alloc, plan)?).ok()
}

fn judged(alloc: Global, plan: Arc<Plan>) -> Option<Checked> {
    let findings = examine(alloc, &plan).ok()?;
    if !is_sound(&findings) {
        return None;
    }
    let certificate = certificate(alloc, &plan, &findings).ok()?;
    judge(alloc, plan, &certificate).ok()
}

// The work of one replica for each task.
fn work_of(alloc: Global, tasks: &[Task]) -> Result<Work, AllocError> {
    let mut lists = Items::new(alloc);
    for task in tasks {
        lists.push(task.calls(alloc)?)?;
    }
    Ok(Work { lists })
}

/// The replicas of a case, where its plan is sound.
pub fn begin(alloc: Global, case: &Case<'_>) -> Option<Begun> {
    let checked = checked(alloc, case.plan)?;
    let work = work_of(alloc, case.tasks).ok()?;
    let shared = checked.clone().ok()?;
    let cluster = opened(alloc, shared, &work, case.weather)?;
    Some(Begun {
        checked,
        work,
        cluster,
    })
}

// The replicas of a work, where it is one for this plan, and where the weather may be so.
fn opened(alloc: Global, checked: Arc<Checked>, work: &Work, weather: Weather) -> Option<Cluster> {
    if weather.of == 0 || weather.lose > weather.of || weather.twice > weather.of - weather.lose {
        return None;
    }
    if !is_work_of(checked.plan(), work) {
        return None;
    }
    Cluster::with_weather(alloc, checked, work, 7, weather).ok()
}

/// What comes of a case, each replica on a thread of its own.
pub fn worked<R: Threads + Wait + Sync, G: Gate + Sync>(
    rt: &R,
    alloc: Global,
    case: &Case<'_>,
    gate: &G,
) -> Option<Ends> {
    let begun = begin(alloc, case)?;
    begun.cluster.work_all(rt, alloc, gate).ok()?;
    begun.end(alloc)
}
