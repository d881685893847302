use crate::lives::{calls, checked};
use crate::making::{wrong_row, yes_or_no};
use lucy_audit::{Audit, Difference, audit};
use lucy_calls::{Step, Work};
use lucy_core::{World, is_work_of};
use lucy_epochs::{Epoch, Table};
use lucy_judge::Checked;
use lucy_replica::Life;
use sqlite_items::Items;
use std::alloc::Global;
use std::sync::Arc;

// The calls of replicas, with a comma between two.
fn work_of(alloc: Global, text: &str) -> Option<Work> {
    let mut lists = Items::new(alloc);
    for amounts in text.split(',') {
        lists.push(Items::from_vec(calls(alloc, amounts)?)).ok()?;
    }
    Some(Work { lists })
}

// A step, as `s0` for a submit, `p0` for what replica 0 sends, `d10` for packet 0 to replica 1, and `b0`, `f0`, `o`, `t0` of a change.
fn step_of(word: &str) -> Option<Step> {
    let (kind, numbers) = word.split_at_checked(1)?;
    if kind == "o" {
        return Some(Step::OpenEpoch);
    }
    let (replica, packet) = numbers.split_at_checked(1)?;
    let replica = replica.parse::<u32>().ok()?;
    match kind {
        "s" => Some(Step::Submit(replica)),
        "p" => Some(Step::Send(replica)),
        "d" => Some(Step::Deliver {
            to: replica,
            packet: packet.parse::<u64>().ok()?,
        }),
        "b" => Some(Step::Begin(replica)),
        "f" => Some(Step::Freeze(replica)),
        "t" => Some(Step::Thaw(replica)),
        _ => None,
    }
}

// Steps with a space between two; `s0*3` is three of one kind.
fn steps_of(alloc: Global, text: &str) -> Option<Vec<Step>> {
    let mut steps = Vec::new(alloc);
    for word in text.split_terminator(' ') {
        let (word, count) = word.split_once('*').unwrap_or((word, "1"));
        let step = step_of(word)?;
        for _ in 0..count.parse::<u32>().ok()? {
            steps.push(step).ok()?;
        }
    }
    Some(steps)
}

// The replicas of a work after the steps of a text.
fn lives_after(
    alloc: Global,
    checked: &Arc<Checked>,
    amounts: &str,
    steps: &str,
) -> Option<Vec<Life>> {
    let work = work_of(alloc, amounts)?;
    if !is_work_of(checked.plan(), &work) {
        return None;
    }
    let mut world = World::new(alloc, checked.clone().ok()?, &work).ok()?;
    let steps = steps_of(alloc, steps)?;
    if !world.takes_all(&steps) {
        return None;
    }
    let _events = world.run(alloc, &steps).ok()?;
    Some(world.into_lives())
}

// Of each place the replica of the first list where the text says `a`, of the second where it says `b`, and neither at
// `-`.
fn mixed(alloc: Global, mut a: Vec<Life>, mut b: Vec<Life>, which: &str) -> Option<Vec<Life>> {
    let mut lives = Vec::new(alloc);
    for word in which.as_bytes().iter().rev() {
        let (first, second) = (a.pop()?, b.pop()?);
        match *word {
            b'a' => lives.push(first).ok()?,
            b'b' => lives.push(second).ok()?,
            _ => {}
        }
    }
    lives.reverse();
    Some(lives)
}

// The table of the first record of a plan.
fn table(alloc: Global, checked: &Checked) -> Option<Table> {
    let plan = checked.plan().clone().ok()?;
    let first = Epoch::first(alloc, plan).ok()?;
    Table::new(alloc, Arc::new(alloc, first).ok()?).ok()
}

// Whether this is told: the difference's kind, and its numbers.
fn is_told(told: &Audit, want: &str) -> Option<bool> {
    let mut words = want.split(' ');
    let kind = words.next()?;
    let numbers = words.map(|word| word.parse::<u64>().unwrap_or(9));
    let told = match told {
        Audit::Agreed => ("agreed", [0, 0, 0]),
        Audit::Apart(difference) => named(difference),
    };
    Some(told.0 == kind && numbers.eq(told.1))
}

fn named(difference: &Difference) -> (&'static str, [u64; 3]) {
    match difference {
        Difference::Seats { place, held } => ("seats", [u64::from(*place), u64::from(*held), 0]),
        Difference::Calls { replica, .. } => ("calls", [u64::from(*replica), 0, 0]),
        Difference::Records { ours, .. } => ("records", [ours.number(), 0, 0]),
        Difference::Opening { kept, .. } => ("opening", [kept.number(), 0, 0]),
        Difference::Named { kept, reply } => {
            ("named", [kept.number(), u64::from(reply.is_some()), 0])
        }
        Difference::Counts {
            replica,
            held,
            accepted,
        } => (
            "counts",
            [u64::from(*replica), u64::from(*held), u64::from(*accepted)],
        ),
        Difference::Lengths {
            replica,
            ours,
            theirs,
        } => ("lengths", [u64::from(*replica), *ours, *theirs]),
    }
}

// The bound of the plan, its depth and the bound of the table's plan; the calls and steps of one run and of another;
// of which run each replica is, and whether they are in reverse order; the work; what is told.
const AUDITS: &str = "10 16 10|1|s0|1|s0|a|no|2|calls 0 0 0
10 16 10|1|s0|1|s0|a|no|1|agreed 0 0 0
10 16 20|1|s0|1|s0|a|no|1|records 0 0 0
10 16 10|1|s0|1||b|no|1|lengths 0 0 1
10 16 10|1|s0|1|s0|a|no|1 1|lengths 0 1 2
10 16 10|,||,||aa|yes|,|seats 0 1 0
20 16 20|1*17,|s0*17 b0 f0 f1 o t1 t0|1*17,||ab|no|1*17,|lengths 1 1 2
20 16 20|1*17,|s0*17 b0 f0 f1 o t1 t0|1*17,||aa|no|1*17,|agreed 0 0 0
40 16 40|1*17,10|s0*17 b0 f0 f1 o t1 t0 s1|1*17,10|s0*17 s1 b0 f0 f1 o t1 t0|aa|no|1*17,10|agreed 0 0 0
40 16 40|1*17,10|s0*17 b0 f0 f1 o t1 t0 s1|1*17,10|s0*17 s1 b0 f0 f1 o t1 t0|ab|no|1*17,10|agreed 0 0 0
20 16 20|0*16 1,5|s0*17 b0 f0 f1 o t1 t0 s1|0*16 1,5|s0*17 s1 b0 f0 f1 o t1 t0|ab|no|0*16 1,5|records 1 0 0
20 16 20|0*16 1,5,5|s0*17 s1 b0 f0 f1 f2 o t2 t1 t0 s2|0*16 1,5,5|s0*17 s2 b0 f0 f1 f2 o t2 t1 t0 s1|aaa|no|0*16 1,5,5|agreed 0 0 0
20 16 20|0*16 1,5,5|s0*17 s1 b0 f0 f1 f2 o t2 t1 t0 s2|0*16 1,5,5|s0*17 s2 b0 f0 f1 f2 o t2 t1 t0 s1|aba|no|0*16 1,5,5|opening 1 0 0
20 16 20|,,1*17|s2*17 b2 f0 f1 f2 o t2 t1 t0|,,||aa-|no|,|named 1 0 0
10 16 10|5,8|s1 p1 d00 s0|5,8|s0 p0 s1 d10|ab|no|5,8|counts 0 1 0";

// The lives of a row, of which these are the fields.
fn lives_of(
    alloc: Global,
    checked: &Arc<Checked>,
    fields: &mut std::str::Split<'_, char>,
) -> Option<Vec<Life>> {
    let a = lives_after(alloc, checked, fields.next()?, fields.next()?)?;
    let b = lives_after(alloc, checked, fields.next()?, fields.next()?)?;
    let mut lives = mixed(alloc, a, b, fields.next()?)?;
    if yes_or_no(fields.next()?)? {
        lives.reverse();
    }
    Some(lives)
}

fn number(word: &str) -> Option<i64> {
    word.parse::<i64>().ok()
}

// What an audit tells, where there are as many replicas as lists in the work.
fn told(
    alloc: Global,
    checked: &Checked,
    work: &Work,
    table: &Table,
    lives: &[Life],
) -> Option<Audit> {
    if lives.len() > 16 || lives.len() != work.lists.len() {
        return None;
    }
    audit(alloc, checked, work, table, lives).ok()
}

fn is_audited(alloc: Global, row: &str) -> Option<bool> {
    let mut fields = row.split('|');
    let mut plan = fields.next()?.split(' ');
    let bound = number(plan.next()?)?;
    let depth = plan.next()?.parse::<u32>().ok()?;
    let here = checked(alloc, bound, depth)?;
    let there = checked(alloc, number(plan.next()?)?, depth)?;
    let lives = lives_of(alloc, &here, &mut fields)?;
    let work = work_of(alloc, fields.next()?)?;
    let table = table(alloc, &there)?;
    let told = told(alloc, &here, &work, &table, lives.as_slice())?;
    is_told(&told, fields.next()?)
}

#[test]
fn audits(rt: HostRuntime) {
    assert_eq!(rt; wrong_row(rt.alloc(), AUDITS, is_audited), None);
}
