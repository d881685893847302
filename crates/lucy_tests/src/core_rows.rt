use crate::lives::{calls, checked};
use crate::making::{wrong_row, yes_or_no};
use lucy_calls::{Step, Work};
use lucy_core::{Event, World, is_work_of};
use lucy_expr::Id;
use sqlite_items::Items;
use std::alloc::Global;

// The calls of replicas, with a comma between two.
fn work_of(alloc: Global, text: &str) -> Option<Work> {
    let mut lists = Items::new(alloc);
    for amounts in text.split(',') {
        lists.push(Items::from_vec(calls(alloc, amounts)?)).ok()?;
    }
    Some(Work { lists })
}

// A number of 32 bits.
fn number(word: &str) -> Option<u32> {
    word.parse::<u32>().ok()
}

// The opening world of replicas with this work.
fn world(alloc: Global, bound: i64, depth: u32, work: &Work) -> Option<World> {
    let checked = checked(alloc, bound, depth)?;
    if !is_work_of(checked.plan(), work) {
        return None;
    }
    World::new(alloc, checked, work).ok()
}

fn step_of(text: &str) -> Option<Step> {
    let mut words = text.split(' ');
    let word = words.next()?;
    if word == "open" {
        return Some(Step::OpenEpoch);
    }
    let replica = number(words.next()?)?;
    match word {
        "submit" => Some(Step::Submit(replica)),
        "send" => Some(Step::Send(replica)),
        "deliver" => Some(Step::Deliver {
            to: replica,
            packet: words.next()?.parse::<u64>().ok()?,
        }),
        "begin" => Some(Step::Begin(replica)),
        "freeze" => Some(Step::Freeze(replica)),
        "thaw" => Some(Step::Thaw(replica)),
        _ => None,
    }
}

// An event, as it is written: `done` with its id, `packet` with its number, or a word alone.
fn event_of(text: &str) -> Option<Event> {
    match text {
        "broken" => Some(Event::Broken),
        "wants" => Some(Event::Wants),
        "ended" => Some(Event::Ended),
        "merged" => Some(Event::Merged),
        "deep" => Some(Event::Deep),
        "no packet" => Some(Event::NoPacket),
        _ => numbered(text),
    }
}

fn numbered(text: &str) -> Option<Event> {
    let (word, rest) = text.split_once(' ')?;
    match word {
        "done" => Some(Event::Done(id_of(rest)?)),
        "packet" => Some(Event::Sent(rest.parse::<u64>().ok()?)),
        _ => None,
    }
}

fn id_of(text: &str) -> Option<Id> {
    let (replica, count) = text.split_once('.')?;
    Some(Id {
        replica: number(replica)?,
        count: number(count)?,
    })
}

// The steps of a text of steps, each with `=` and its event behind it, and commas between them.
fn steps_in(alloc: Global, text: &str) -> Option<Vec<Step>> {
    let mut steps = Vec::new(alloc);
    for part in text.split_terminator(',') {
        let (step, _) = part.split_once('=')?;
        steps.push(step_of(step)?).ok()?;
    }
    Some(steps)
}

// Whether these are the events of such a text.
fn are_told(events: &[Event], text: &str) -> Option<bool> {
    let mut parts = text.split_terminator(',');
    for event in events {
        let (_, want) = parts.next()?.split_once('=')?;
        if event_of(want)? != *event {
            return Some(false);
        }
    }
    Some(parts.next().is_none())
}

// Whether a world takes the steps of a text and answers its events.
fn answers(alloc: Global, world: &mut World, text: &str) -> Option<bool> {
    let steps = steps_in(alloc, text)?;
    if !world.takes_all(&steps) {
        return None;
    }
    let events = world.run(alloc, &steps).ok()?;
    are_told(&events, text)
}

// Whether the first numbers of the states of all replicas are these.
fn are_at(world: &World, text: &str) -> Option<bool> {
    let mut words = text.split(' ');
    for life in world.lives() {
        let number = words.next()?.parse::<i64>().ok()?;
        if life.state().as_slice().first() != Some(&number) {
            return Some(false);
        }
    }
    Some(words.next().is_none())
}

// The bound of the plan and its depth, the amounts of each replica, each step and what it answers, and the leaf of
// each replica at the end. In the first row nothing happens. In the last one sixteen calls of one replica are as deep as a plan may be that allows 16:
// then no packet is merged with its expression, and the next call waits for a change.
const RUNS: &str = "10 1024|10 1,||0 0
10 1024|10 1,|submit 0=done 0.0,submit 0=broken,submit 0=ended|10 0
10 1024|3,|submit 0=done 0.0,send 0=packet 0,deliver 1 0=merged,deliver 1 0=merged,deliver 1 0=merged|3 3
10 1024|3,5,,|submit 0=done 0.0,submit 1=done 1.0,send 0=packet 0,send 1=packet 1,deliver 2 0=merged,deliver 2 1=merged,deliver 3 1=merged,deliver 3 0=merged|3 5 5 5
10 1024|3,|deliver 1 0=no packet,send 0=packet 0,deliver 1 1=no packet,deliver 0 18446744073709551615=no packet,deliver 1 0=merged|0 0
100 16|1 1 1 1 1 1 1 1 1 1 1 1 1 1 1 1 1,|submit 0=done 0.0,submit 0=done 0.1,submit 0=done 0.2,submit 0=done 0.3,submit 0=done 0.4,submit 0=done 0.5,submit 0=done 0.6,submit 0=done 0.7,submit 0=done 0.8,submit 0=done 0.9,submit 0=done 0.10,submit 0=done 0.11,submit 0=done 0.12,submit 0=done 0.13,submit 0=done 0.14,submit 0=done 0.15,send 0=packet 0,deliver 1 0=deep,submit 0=wants,submit 1=ended|16 0";

// The opening world of a row, of which the first two fields are these.
fn opening(alloc: Global, plan: &str, amounts: &str) -> Option<World> {
    let (bound, depth) = plan.split_once(' ')?;
    let work = work_of(alloc, amounts)?;
    world(alloc, bound.parse::<i64>().ok()?, number(depth)?, &work)
}

// Whether the world takes the steps, answers their events, and ends with these states in its one record.
fn goes(alloc: Global, world: &mut World, steps: &str, ends: &str) -> Option<bool> {
    Some(answers(alloc, world, steps)? && are_at(world, ends)? && world.epochs().len() == 1)
}

fn is_run(alloc: Global, row: &str) -> Option<bool> {
    let mut fields = row.split('|');
    let mut world = opening(alloc, fields.next()?, fields.next()?)?;
    goes(alloc, &mut world, fields.next()?, fields.next()?)
}

// Steps; whether a world of two replicas takes them.
const TAKEN: &str = "submit 1|yes
send 1|yes
deliver 1 7|yes
submit 2|no
send 2|no
deliver 2 0|no
begin 1|yes
begin 2|no
freeze 1|yes
freeze 2|no
open|yes
thaw 1|yes
thaw 2|no";

fn is_taken(alloc: Global, row: &str) -> Option<bool> {
    let (step, want) = row.split_once('|')?;
    let step = step_of(step)?;
    let world = opening(alloc, "10 1024", "3,")?;
    let takes = world.takes(step);
    drop(world);
    Some(takes == yes_or_no(want)?)
}

// Calls of replicas, and whether they are work of a plan: then a world opens with them. There are at most sixteen replicas.
const WORKS: &str = "11|no
1,1,1,1,1,1,1,1,1,1,1,1,1,1,1,1,1|no
1*4097|no
1*4096,1*4096,1*4096,1*4096,1*4096,1*4096,1*4096,1*4096,1*4096,1*4096,1*4096,1*4096,1*4096,1*4096,1*4096,1*4096|yes";

fn is_fitting(alloc: Global, row: &str) -> Option<bool> {
    let (amounts, want) = row.split_once('|')?;
    let work = work_of(alloc, amounts)?;
    let opens = world(alloc, 10, 1024, &work).is_some();
    Some(opens == yes_or_no(want)?)
}

fn wrong_rows(alloc: Global) -> [Option<&'static str>; 3] {
    [
        wrong_row(alloc, RUNS, is_run),
        wrong_row(alloc, TAKEN, is_taken),
        wrong_row(alloc, WORKS, is_fitting),
    ]
}

#[test]
fn worlds(rt: HostRuntime) {
    assert_eq!(rt; wrong_rows(rt.alloc()), [None; 3]);
}
