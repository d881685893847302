//! Questions about work texts and step scripts.

ghost use Rattle.std.specs.Prelude.{◌≡◌, IfSome, nat_lt};
ghost use Rattle.std.specs.List.{list_all};
ghost use Rattle.lucy_names.specs.Plans.{AreNamesOf};

use crate::plans::{limit, plan_of};
use crate::trouble::Trouble;
use crate::turns::Turns;
use crate::words::{parted, put_bytes, put_numbered};
use lucy_calls::{CallsError, Step, Work, read_steps, read_work, write_steps, write_work};
use lucy_names::Names;
use lucy_plan::{Call, Plan};
use sqlite_items::Items;
use std::alloc::{AllocError, Global};

// A plan and its names.
#[derive(Drop)]
struct Told {
    plan: Plan,
    names: Names,
}

fn planned(alloc: Global, text: &str) -> Option<Told>
    ensures { IfSome result (λ told. AreNamesOf told.plan told.names) }
{
    let plan = plan_of(alloc, text)?;
    match Names::of_plan(alloc, &plan) {
        Ok(Some(names)) => Some(Told { plan, names }),
        _ => {
            drop(plan);
            None
        }
    }
}

// The words of a refusal, and its line or its count.
fn words_of(refusal: CallsError) -> Result<(&'static str, u64), Trouble> {
    match refusal {
        CallsError::BadLine(line) => Ok(("line", line)),
        CallsError::BadReplica(line) => Ok(("replica", line)),
        CallsError::UnknownTxn(line) => Ok(("transaction", line)),
        CallsError::BadArgument(line) => Ok(("argument", line)),
        CallsError::Limit { what, count } => Ok((limit(what), count)),
        CallsError::OutOfMemory => Err(Trouble::OutOfMemory),
    }
}

fn put_refusal(
    out: &mut String,
    alloc: Global,
    refusal: Option<CallsError>,
) -> Result<(), Trouble> {
    match refusal {
        Some(refusal) => {
            let (words, number) = words_of(refusal)?;
            put_numbered(out, alloc, words, number)?;
        }
        None => out.push_str("ok")?,
    }
    Ok(())
}

// Counts the answer that a refusal is.
fn count_refusal(
    turns: &mut Turns,
    out: &mut String,
    alloc: Global,
    refusal: Option<CallsError>,
) -> Result<(), Trouble> {
    let mut answer = String::new(alloc);
    put_refusal(&mut answer, alloc, refusal)?;
    turns.count(out, alloc, &answer)?;
    Ok(())
}

/// What is told of a text.
#[derive(Clone, Copy)]
pub enum Report {
    /// Its first fault, or `ok`.
    Fault,
    /// The faults of its proper fronts, from the shortest on: how many of them, and what.
    Fronts,
    /// What it says.
    Said,
    /// The text that is written of what it says, which is read and written as it stands.
    Written,
}

// The refusal of a work text, if it is refused.
fn work_fault(alloc: Global, told: &Told, text: &[u8]) -> Option<CallsError>
    requires { AreNamesOf told.now.plan told.now.names }
{
    read_work(alloc, &told.plan, &told.names, text).err()
}

fn put_work_fronts(out: &mut String, alloc: Global, told: &Told, text: &[u8]) -> Result<(), Trouble>
    requires { AreNamesOf told.now.plan told.now.names }
{
    let mut turns = Turns::new(alloc);
    for at in 0..text.len() {
        if let Some(front) = text.get(..at) {
            count_refusal(&mut turns, out, alloc, work_fault(alloc, told, front))?;
        }
    }
    turns.put(out, alloc)?;
    Ok(())
}

fn put_call(out: &mut String, alloc: Global, call: &Call) -> Result<(), AllocError> {
    put_numbered(out, alloc, "", u64::from(call.txn))?;
    for argument in call.arguments.as_slice() {
        let digits = argument.to_string(alloc)?;
        out.push_str(" ")?;
        out.push_str(&digits)?;
    }
    Ok(())
}

// A replica and its calls, if it has any.
fn put_calls(
    out: &mut String,
    alloc: Global,
    replica: usize,
    calls: &[Call],
) -> Result<(), AllocError> {
    for call in calls {
        put_numbered(out, alloc, ";", replica as u64)?;
        out.push_str(":")?;
        put_call(out, alloc, call)?;
    }
    Ok(())
}

fn put_work(out: &mut String, alloc: Global, work: &Work) -> Result<(), AllocError> {
    put_numbered(out, alloc, "replicas", work.lists.len() as u64)?;
    for (replica, calls) in work.lists.as_slice().iter().enumerate() {
        put_calls(out, alloc, replica, calls.as_slice())?;
    }
    Ok(())
}

fn work_of(alloc: Global, told: &Told, text: &[u8]) -> Result<Work, Trouble>
    requires { AreNamesOf told.now.plan told.now.names }
{
    match read_work(alloc, &told.plan, &told.names, text) {
        Ok(work) => Ok(work),
        Err(CallsError::OutOfMemory) => Err(Trouble::OutOfMemory),
        Err(_) => Err(Trouble::NotUnderstood),
    }
}

fn put_said_work(out: &mut String, alloc: Global, told: &Told, text: &[u8]) -> Result<(), Trouble>
    requires { AreNamesOf told.now.plan told.now.names }
{
    let work = work_of(alloc, told, text)?;
    let put = put_work(out, alloc, &work);
    drop(work);
    Ok(put?)
}

fn are_named(txns: usize, calls: &[Call]) -> bool
    ensures { result ≡ list_all (λ call. nat_lt call.txn txns) calls.now }
{
    calls.iter().all(|call| (call.txn as usize) < txns)
}

fn all_are_named(txns: usize, lists: &[Items<Call>]) -> bool
    ensures { result ≡ list_all (λ calls. list_all (λ call. nat_lt call.txn txns) calls) lists.now }
{
    lists.iter().all(|calls| are_named(txns, calls.as_slice()))
}

// The text that is written of work.
fn text_of(alloc: Global, told: &Told, work: &Work) -> Result<Vec<u8>, Trouble>
    requires { AreNamesOf told.now.plan told.now.names }
{
    if !all_are_named(told.plan.parts().txns.len(), work.lists.as_slice()) {
        return Err(Trouble::NotUnderstood);
    }
    Ok(write_work(alloc, &told.names, work)?)
}

// The text that is written of what a work text says.
fn work_written(alloc: Global, told: &Told, text: &[u8]) -> Result<Vec<u8>, Trouble>
    requires { AreNamesOf told.now.plan told.now.names }
{
    let work = work_of(alloc, told, text)?;
    let written = text_of(alloc, told, &work);
    drop(work);
    written
}

// Appends a text that is written, and what is written of it where that is not the same.
fn put_written(out: &mut String, written: &[u8], again: &[u8]) -> Result<(), Trouble> {
    put_bytes(out, written)?;
    if written != again {
        out.push_str(", and again ")?;
        put_bytes(out, again)?;
    }
    Ok(())
}

fn put_written_work(
    out: &mut String,
    alloc: Global,
    told: &Told,
    text: &[u8],
) -> Result<(), Trouble>
    requires { AreNamesOf told.now.plan told.now.names }
{
    let written = work_written(alloc, told, text)?;
    let again = work_written(alloc, told, &written)?;
    put_written(out, &written, &again)
}

fn put_work_report(
    out: &mut String,
    alloc: Global,
    report: Report,
    told: &Told,
    text: &[u8],
) -> Result<(), Trouble>
    requires { AreNamesOf told.now.plan told.now.names }
{
    match report {
        Report::Fault => put_refusal(out, alloc, work_fault(alloc, told, text)),
        Report::Fronts => put_work_fronts(out, alloc, told, text),
        Report::Said => put_said_work(out, alloc, told, text),
        Report::Written => put_written_work(out, alloc, told, text),
    }
}

/// What is told of a plan and, behind the bar, a work text.
pub fn work(out: &mut String, alloc: Global, report: Report, text: &str) -> Result<(), Trouble> {
    let (plan, text) = parted(text)?;
    match planned(alloc, plan) {
        Some(told) => {
            let put = put_work_report(out, alloc, report, &told, text.as_bytes());
            drop(told);
            put
        }
        None => Err(Trouble::NotUnderstood),
    }
}

// The refusal of a step script, if it is refused.
fn steps_fault(alloc: Global, replicas: u32, text: &[u8]) -> Option<CallsError> {
    read_steps(alloc, replicas, text).err()
}

fn put_step_fronts(
    out: &mut String,
    alloc: Global,
    replicas: u32,
    text: &[u8],
) -> Result<(), Trouble> {
    let mut turns = Turns::new(alloc);
    for at in 0..text.len() {
        if let Some(front) = text.get(..at) {
            count_refusal(&mut turns, out, alloc, steps_fault(alloc, replicas, front))?;
        }
    }
    turns.put(out, alloc)?;
    Ok(())
}

fn put_step(out: &mut String, alloc: Global, step: Step) -> Result<(), AllocError> {
    match step {
        Step::Submit(replica) => put_numbered(out, alloc, "Submit", u64::from(replica)),
        Step::Send(replica) => put_numbered(out, alloc, "Send", u64::from(replica)),
        Step::Deliver { to, packet } => {
            put_numbered(out, alloc, "Deliver", u64::from(to))?;
            put_numbered(out, alloc, "", packet)
        }
        Step::Begin(replica) => put_numbered(out, alloc, "Begin", u64::from(replica)),
        Step::Freeze(replica) => put_numbered(out, alloc, "Freeze", u64::from(replica)),
        Step::OpenEpoch => out.push_str("OpenEpoch"),
        Step::Thaw(replica) => put_numbered(out, alloc, "Thaw", u64::from(replica)),
    }
}

fn put_steps(out: &mut String, alloc: Global, steps: &[Step]) -> Result<(), AllocError> {
    if steps.is_empty() {
        return out.push_str("none");
    }
    for (place, step) in steps.iter().enumerate() {
        if place > 0 {
            out.push_str("; ")?;
        }
        put_step(out, alloc, *step)?;
    }
    Ok(())
}

fn steps_of(alloc: Global, replicas: u32, text: &[u8]) -> Result<Vec<Step>, Trouble> {
    match read_steps(alloc, replicas, text) {
        Ok(steps) => Ok(steps),
        Err(CallsError::OutOfMemory) => Err(Trouble::OutOfMemory),
        Err(_) => Err(Trouble::NotUnderstood),
    }
}

// The text that is written of what a step script says.
fn steps_written(alloc: Global, replicas: u32, text: &[u8]) -> Result<Vec<u8>, Trouble> {
    let steps = steps_of(alloc, replicas, text)?;
    Ok(write_steps(alloc, &steps)?)
}

fn put_written_steps(
    out: &mut String,
    alloc: Global,
    replicas: u32,
    text: &[u8],
) -> Result<(), Trouble> {
    let written = steps_written(alloc, replicas, text)?;
    let again = steps_written(alloc, replicas, &written)?;
    put_written(out, &written, &again)
}

fn put_said_steps(
    out: &mut String,
    alloc: Global,
    replicas: u32,
    text: &[u8],
) -> Result<(), Trouble> {
    let steps = steps_of(alloc, replicas, text)?;
    put_steps(out, alloc, &steps)?;
    Ok(())
}

/// What is told of a number of replicas and, behind the bar, a step script.
pub fn steps(out: &mut String, alloc: Global, report: Report, text: &str) -> Result<(), Trouble> {
    let (replicas, text) = parted(text)?;
    let Ok(replicas) = replicas.parse::<u32>() else {
        return Err(Trouble::NotUnderstood);
    };
    match report {
        Report::Fault => put_refusal(out, alloc, steps_fault(alloc, replicas, text.as_bytes())),
        Report::Fronts => put_step_fronts(out, alloc, replicas, text.as_bytes()),
        Report::Said => put_said_steps(out, alloc, replicas, text.as_bytes()),
        Report::Written => put_written_steps(out, alloc, replicas, text.as_bytes()),
    }
}
