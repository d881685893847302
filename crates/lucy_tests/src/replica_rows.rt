use crate::lives::{checked, life};
use crate::making::wrong_row;
use lucy_expr::Id;
use lucy_replica::{Life, Packet, Received, Reply, Submitted};
use std::alloc::Global;

// What a submit should answer, and the leaf after it.
#[derive(Clone, Copy)]
struct Try {
    answer: Submitted,
    leaf: i64,
}

fn leaf(life: &Life) -> Option<i64> {
    life.state().as_slice().first().copied()
}

fn done(count: u32, leaf: i64) -> Try {
    let id = Id { replica: 1, count };
    Try {
        answer: Submitted::Done(id),
        leaf,
    }
}

// What a submit should answer, written `done COUNT LEAF` or `broken LEAF`.
fn try_of(text: &str) -> Option<Try> {
    let mut words = text.split(' ');
    match words.next()? {
        "done" => Some(done(
            words.next()?.parse::<u32>().ok()?,
            number_of(words.next()?)?,
        )),
        "broken" => Some(Try {
            answer: Submitted::Broken,
            leaf: number_of(words.next()?)?,
        }),
        _ => None,
    }
}

fn number_of(word: &str) -> Option<i64> {
    word.parse::<i64>().ok()
}

// Whether the next submit goes so.
fn goes(alloc: Global, life: &mut Life, want: Try) -> bool {
    life.submit(alloc).ok() == Some(want.answer) && leaf(life) == Some(want.leaf)
}

// Whether the submits go so, and the last one says that there are no more calls.
fn go(alloc: Global, life: &mut Life, tries: &str) -> Option<bool> {
    for text in tries.split(',') {
        if !goes(alloc, life, try_of(text)?) {
            return Some(false);
        }
    }
    Some(life.submit(alloc).ok() == Some(Submitted::Ended))
}

// A replica of a plan with this bound and this depth.
fn life_within(alloc: Global, bound: i64, depth: u32, replica: u32, amounts: &str) -> Option<Life> {
    let checked = checked(alloc, bound, depth)?;
    life(alloc, &checked, replica, amounts)
}

// The bound of a plan, the amounts of replica 1, and what each of its submits answers.
const SUBMITS: &str = "10|10 1|done 0 10,broken 10
10|3 0 7|done 0 3,done 1 3,done 2 10
7|5 3 2 0|done 0 5,broken 5,done 1 7,done 2 7
7|8 10 7|broken 0,broken 0,done 0 7";

fn is_submitted(alloc: Global, row: &str) -> Option<bool> {
    let mut fields = row.split('|');
    let bound = number_of(fields.next()?)?;
    let mut life = life_within(alloc, bound, 1024, 1, fields.next()?)?;
    go(alloc, &mut life, fields.next()?)
}

// What is done with one replica: sixteen calls and one past the depth, or calls of which the last is broken.
#[derive(Clone, Copy)]
enum Lone {
    FillsUp,
    BreaksLast,
}

// The place of the first that does not hold.
fn first_false(told: &[bool]) -> Option<usize> {
    told.iter().position(|holds| !*holds)
}

fn wrong_of_one(alloc: Global, life: &mut Life, lone: Lone) -> Option<usize> {
    match lone {
        Lone::FillsUp => first_false(&fills_up(alloc, life)),
        Lone::BreaksLast => first_false(&breaks_last(alloc, life)),
    }
}

fn amounts(lone: Lone) -> &'static str {
    match lone {
        Lone::FillsUp => "1*17",
        Lone::BreaksLast => "9*12",
    }
}

// What does not hold of replica 1 of a plan with the bound 100 and the depth 16.
fn told_of_one(alloc: Global, lone: Lone) -> Option<Option<usize>> {
    let mut life = life_within(alloc, 100, 16, 1, amounts(lone))?;
    Some(wrong_of_one(alloc, &mut life, lone))
}

// What is done with two replicas: each takes what the other sends; one gets as deep as a plan allows; they have
// different plans.
#[derive(Clone, Copy)]
enum Both {
    Merge,
    Deepen,
    Differ,
}

fn wrong_of_both(alloc: Global, left: &mut Life, right: &mut Life, both: Both) -> Option<usize> {
    match both {
        Both::Merge => first_false(&merges(alloc, left, right)),
        Both::Deepen => first_false(&stays(alloc, left, right)),
        Both::Differ => first_false(&is_stale(alloc, left, right)),
    }
}

// Two replicas of one plan with the bound 100.
fn pair(alloc: Global, left: &str, right: &str) -> Option<(Life, Life)> {
    let checked = checked(alloc, 100, 16)?;
    let left = life(alloc, &checked, 0, left)?;
    let right = life(alloc, &checked, 1, right)?;
    Some((left, right))
}

// The first replica of a plan, and the second one of another plan.
fn apart(alloc: Global) -> Option<(Life, Life)> {
    let left = life_within(alloc, 100, 16, 0, "3")?;
    let right = life_within(alloc, 100, 17, 1, "")?;
    Some((left, right))
}

fn pair_of(alloc: Global, both: Both) -> Option<(Life, Life)> {
    match both {
        Both::Merge => pair(alloc, "3", "5"),
        Both::Deepen => pair(alloc, "1 1", "1"),
        Both::Differ => apart(alloc),
    }
}

fn told_of_both(alloc: Global, both: Both) -> Option<Option<usize>> {
    let (mut left, mut right) = pair_of(alloc, both)?;
    Some(wrong_of_both(alloc, &mut left, &mut right, both))
}

// Submits calls that add 1, each of them done.
fn fill(alloc: Global, life: &mut Life, count: u32) -> bool {
    for place in 0..count {
        if !goes(alloc, life, done(place, i64::from(place).saturating_add(1))) {
            return false;
        }
    }
    true
}

fn is_marked(life: &Life, depth: u32) -> bool {
    match life.mark() {
        Some(point) => point.depth() == depth,
        None => false,
    }
}

// Sixteen calls are done, and the next is wanted, as often as it is submitted.
fn fills_up(alloc: Global, life: &mut Life) -> [bool; 8] {
    let wants = Try {
        answer: Submitted::Wants,
        leaf: 16,
    };
    [
        fill(alloc, life, 16),
        life.mark().is_none(),
        goes(alloc, life, wants),
        goes(alloc, life, wants),
        is_marked(life, 16),
        life.accepted() == 16,
        life.replies().len() == 16,
        life.next().is_some(),
    ]
}

fn submitted(alloc: Global, life: &mut Life) -> Option<Submitted> {
    life.submit(alloc).ok()
}

fn call_of(replica: u32, count: u32) -> Option<Submitted> {
    Some(Submitted::Done(Id { replica, count }))
}

// What a replica answers to what another sends.
fn sent(alloc: Global, from: &Life, to: &mut Life) -> Option<Received> {
    let packet = from.publish().ok()?;
    to.receive(alloc, &packet).ok()
}

// What a replica answers to two shares of one packet.
fn sent_twice(alloc: Global, from: &Life, to: &mut Life) -> Option<[Received; 2]> {
    let packet = from.publish().ok()?.share().ok()?;
    let once = to.receive(alloc, &packet).ok()?;
    let again = to.receive(alloc, &packet).ok()?;
    Some([once, again])
}

fn merges(alloc: Global, left: &mut Life, right: &mut Life) -> [bool; 9] {
    [
        submitted(alloc, left) == call_of(0, 0),
        sent_twice(alloc, left, right) == Some([Received::Merged, Received::Merged]),
        leaf(right) == Some(3),
        submitted(alloc, right) == call_of(1, 0),
        sent(alloc, right, left) == Some(Received::Merged),
        leaf(left) == Some(8),
        right.expr().depth() == 4,
        left.expr().depth() == 5,
        left.expr().reach(1) == 1,
    ]
}

// How often a packet is merged, up to so many times.
fn merged(alloc: Global, packet: &Packet, to: &mut Life, times: u32) -> u32 {
    for count in 0..times {
        if to.receive(alloc, packet).ok() != Some(Received::Merged) {
            return count;
        }
    }
    times
}

// How often what a replica sends is merged, and what the next time answers.
fn deepened(alloc: Global, from: &Life, to: &mut Life) -> Option<(u32, Received)> {
    let packet = from.publish().ok()?;
    let count = merged(alloc, &packet, to, 15);
    Some((count, to.receive(alloc, &packet).ok()?))
}

fn stays(alloc: Global, left: &mut Life, right: &mut Life) -> [bool; 7] {
    [
        submitted(alloc, left) == call_of(0, 0),
        deepened(alloc, left, right) == Some((15, Received::Deep)),
        right.expr().depth() == 16,
        sent(alloc, right, left) == Some(Received::Deep),
        left.expr().depth() == 1,
        submitted(alloc, right) == Some(Submitted::Wants),
        submitted(alloc, left) == call_of(0, 1),
    ]
}

fn is_stale(alloc: Global, left: &mut Life, right: &mut Life) -> [bool; 4] {
    [
        submitted(alloc, left) == call_of(0, 0),
        sent(alloc, left, right) == Some(Received::Stale),
        leaf(right) == Some(0),
        right.expr().depth() == 0,
    ]
}

// Whether the last reply is that a call is broken, at the first record and at this depth.
fn is_broken_at(life: &Life, depth: u32) -> bool {
    match life.replies() {
        [.., Reply::Broken { epoch, point }] => epoch.number() == 0 && point.depth() == depth,
        _ => false,
    }
}

// Eleven calls that add 9 are done, and one is broken.
fn submits_all(alloc: Global, life: &mut Life) -> bool {
    for _ in 0..12 {
        if submitted(alloc, life).is_none() {
            return false;
        }
    }
    true
}

fn breaks_last(alloc: Global, life: &mut Life) -> [bool; 7] {
    [
        submits_all(alloc, life),
        is_broken_at(life, 11),
        life.closings().is_empty(),
        life.replica() == 1,
        life.epoch().number() == 0,
        life.calls().len() == 12,
        life.next().is_none(),
    ]
}

// What does not hold of one replica and of two.
fn told(alloc: Global) -> [Option<Option<usize>>; 5] {
    [
        told_of_one(alloc, Lone::FillsUp),
        told_of_one(alloc, Lone::BreaksLast),
        told_of_both(alloc, Both::Merge),
        told_of_both(alloc, Both::Deepen),
        told_of_both(alloc, Both::Differ),
    ]
}

#[test]
fn replicas_submit_and_receive(rt: HostRuntime) {
    assert_eq!(rt; told(rt.alloc()), [Some(None); 5]);
}

#[test]
fn submits_are_done_or_broken(rt: HostRuntime) {
    assert_eq!(rt; wrong_row(rt.alloc(), SUBMITS, is_submitted), None);
}
