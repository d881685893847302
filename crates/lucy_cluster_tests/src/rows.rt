//! Replicas on threads: what has to be true of each row at its end, whatever the schedule was.

use crate::ends::{Ends, Replies};
use crate::gates::{Counting, Meeting, Passed};
use crate::making::{Case, Task, begin, worked};
use lucy_cluster::{NoGate, Point};
use lucy_net::Weather;
use lucy_replica::Life;
use std::alloc::Global;
use std::sync::Wait;
use std::thread::Threads;

// The second and third segments let a replica go on where the first does not.
const THREE: &str = "lucy 1 object { max x in 0..20; } start { } invariant true;
txn add(n in 0..20) { when true { x := x + n; } }
segment low when x <= 5 do add; segment mid when x <= 15 do add; segment high when true do; end";

/// Each replica goes on alone.
pub const ONE: &str = "lucy 1 object { max x in 0..10; } start { } invariant true;
txn add(n in 0..10) { when true { x := x + n; } }
segment main when true do add; end";

// Each replica goes on alone, until its expression is as deep as 16.
const DEEP: &str = "lucy 1 object { max x in 0..100; } start { } invariant true;
txn add(n in 0..10) { when true { x := x + n; } }
segment main when true do add; depth 16; end";

/// No replica goes on alone.
pub const STILL: &str = "lucy 1 object { max x in 0..10; } start { } invariant true;
txn add(n in 0..10) { when true { x := x + n; } }
segment still when true do; end";

pub const PLAIN: Weather = Weather {
    lose: 1,
    twice: 1,
    of: 8,
};

pub const ALL_LOST: Weather = Weather {
    lose: 1,
    twice: 0,
    of: 1,
};

pub const ALL_DOUBLED: Weather = Weather {
    lose: 0,
    twice: 1,
    of: 1,
};

const FAIR: Weather = Weather {
    lose: 0,
    twice: 0,
    of: 1,
};

const TWO_APART: [Task; 2] = [
    Task {
        calls: 1,
        argument: 6,
    },
    Task {
        calls: 1,
        argument: 2,
    },
];

const TWO_TO_MERGE: [Task; 2] = [
    Task {
        calls: 1,
        argument: 3,
    },
    Task {
        calls: 1,
        argument: 5,
    },
];

const TWO_ALIKE: [Task; 2] = [
    Task {
        calls: 1,
        argument: 1,
    },
    Task {
        calls: 1,
        argument: 1,
    },
];

const FIVE: Task = Task {
    calls: 5,
    argument: 1,
};

const SIXTY: Task = Task {
    calls: 60,
    argument: 1,
};

const FOUR_TIMES_FIVE: [Task; 4] = [FIVE; 4];

const FOUR_TIMES_SIXTY: [Task; 4] = [SIXTY; 4];

/// Two replicas, of which one has to leave its segment, before or after the other's call.
pub fn first_case(weather: Weather) -> Case<'static> {
    Case {
        plan: THREE,
        tasks: &TWO_APART,
        weather,
    }
}

/// Four replicas that cannot go on alone.
pub fn still_case() -> Case<'static> {
    Case {
        plan: STILL,
        tasks: &FOUR_TIMES_FIVE,
        weather: PLAIN,
    }
}

/// Four replicas whose expressions soon are as deep as they may be.
pub fn deep_case() -> Case<'static> {
    Case {
        plan: DEEP,
        tasks: &FOUR_TIMES_SIXTY,
        weather: PLAIN,
    }
}

// Two replicas that go on alone, with these tasks.
fn alone_case(tasks: &[Task], weather: Weather) -> Case<'_> {
    Case {
        plan: ONE,
        tasks,
        weather,
    }
}

pub fn is_first_row(alloc: Global, ends: &Ends) -> [bool; 6] {
    [
        ends.are_agreed(alloc),
        ends.records() == 2,
        ends.opens(1, [6, 8]),
        ends.are_whole(2),
        ends.has_replies(0, Replies::new(0, 0, 1, 0)),
        ends.has_replies(1, Replies::new(1, 0, 0, 0)),
    ]
}

/// Two replicas on two threads, of which one has to leave its segment.
pub fn first_row<R: Threads + Wait + Sync>(
    rt: &R,
    alloc: Global,
    weather: Weather,
) -> Option<[bool; 6]> {
    let ends = worked(rt, alloc, &first_case(weather), &NoGate)?;
    Some(is_first_row(alloc, &ends))
}

/// One thread alone works for two replicas, one after the other: the second takes in what the first sent.
pub fn one_thread<R: Wait>(rt: &R, alloc: Global) -> Option<[bool; 4]> {
    let begun = begin(alloc, &alone_case(&TWO_TO_MERGE, FAIR))?;
    if begun.cluster.replicas() != 2 {
        return None;
    }
    begun.cluster.work(rt, alloc, 0, &NoGate).ok()?;
    begun.cluster.work(rt, alloc, 1, &NoGate).ok()?;
    let ends = begun.end(alloc)?;
    Some([
        ends.are_agreed(alloc),
        ends.are_whole(2),
        ends.is_at(0, 3),
        ends.is_at(1, 8),
    ])
}

pub fn is_still_row(alloc: Global, ends: &Ends) -> [bool; 5] {
    [
        ends.are_agreed(alloc),
        ends.records() == 11,
        ends.are_whole(4),
        ends.replies() == Replies::new(0, 10, 10, 0),
        ends.is_at(0, 10) && ends.is_at(1, 10) && ends.is_at(2, 10) && ends.is_at(3, 10),
    ]
}

/// Four replicas that cannot go on alone: each call opens a record, until the bound is reached.
pub fn still<R: Threads + Wait + Sync>(rt: &R, alloc: Global) -> Option<[bool; 5]> {
    let ends = worked(rt, alloc, &still_case(), &NoGate)?;
    Some(is_still_row(alloc, &ends))
}

pub fn is_deep_row(alloc: Global, ends: &Ends) -> [bool; 3] {
    [
        ends.are_agreed(alloc),
        ends.records() >= 2,
        ends.are_whole(4),
    ]
}

/// Four replicas whose expressions soon are as deep as they may be.
pub fn deep<R: Threads + Wait + Sync>(rt: &R, alloc: Global) -> Option<[bool; 3]> {
    let ends = worked(rt, alloc, &deep_case(), &NoGate)?;
    Some(is_deep_row(alloc, &ends))
}

// Whether a replica passed the points as often as it has to: a commit for each call that is done, an adoption for each
// record after the first, and each time that a change froze it.
fn is_counted(passed: &Passed, life: &Life, changes: u64, frozen: u64) -> bool {
    passed.count(Point::Commit) == Replies::of(life).done as u64
        && passed.count(Point::Adopt) == changes
        && passed.count(Point::Freeze) == frozen
        && frozen >= changes
}

pub fn are_counted(gate: &Counting, ends: &Ends) -> Option<bool> {
    let changes = ends.records().saturating_sub(1) as u64;
    let frozen = gate.replicas.first()?.count(Point::Freeze);
    for (passed, life) in gate.replicas.iter().zip(&ends.lives) {
        if !is_counted(passed, life, changes, frozen) {
            return Some(false);
        }
    }
    Some(gate.replicas.len() == ends.lives.len())
}

/// The same four replicas, counted: whether they end as they have to, and whether the counts are right.
pub fn counted<R: Threads + Wait + Sync>(rt: &R, alloc: Global) -> Option<[bool; 3]> {
    let gate = Counting::new(alloc, 4).ok()?;
    let ends = worked(rt, alloc, &deep_case(), &gate)?;
    Some([
        ends.are_agreed(alloc),
        ends.are_whole(4),
        are_counted(&gate, &ends)?,
    ])
}

/// Two replicas that commit at the same time: each is held until the other one is at its commit.
pub fn meeting<R: Threads + Wait + Sync>(rt: &R, alloc: Global) -> Option<[bool; 3]> {
    let gate = Meeting::new();
    let ends = worked(rt, alloc, &alone_case(&TWO_ALIKE, PLAIN), &gate)?;
    Some([ends.are_agreed(alloc), ends.are_whole(2), gate.has_met()])
}
