//! Runs on threads, by the call of the program.

use crate::ends::Replies;
use crate::gates::{Counting, Meeting, Passed};
use crate::rows::{ONE, STILL};
use lucy_cluster::{Gate, NoGate, Point};
use lucy_io::{MemoryInputs, MemorySink, MemorySource};
use lucy_replica::Life;
use lucy_top::{Ended, lucy};
use std::alloc::{AllocError, Global};
use std::sync::Wait;
use std::thread::Threads;

// Offers go on alone until the auction is closed, which one change does.
const AUCTION: &str =
    "lucy 1 object { max bid in 0..1000000; max won in 0..1000000; orflag closed; } start { }
invariant closed => won = bid;
txn offer(n in 1..1000000) { when not closed and n > bid { bid := n; } }
txn close() { when true { closed := on; won := bid; } }
segment live when not closed do offer; segment shut when closed do offer close; end";

// Five calls of each of four replicas.
const FOUR_TIMES_FIVE: &[u8] = b"work 1
replicas 4
0 add 1\n0 add 1\n0 add 1\n0 add 1\n0 add 1
1 add 1\n1 add 1\n1 add 1\n1 add 1\n1 add 1
2 add 1\n2 add 1\n2 add 1\n2 add 1\n2 add 1
3 add 1\n3 add 1\n3 add 1\n3 add 1\n3 add 1
end
";

// How a call ended, and what it wrote.
#[derive(Drop)]
struct Called {
    ended: Ended,
    sink: MemorySink,
}

impl Called {
    // Whether it is a run on threads that ended well.
    fn is_threaded(&self) -> bool {
        self.ended.status == 0
            && self.ended.apart.is_none()
            && self.sink.bytes().starts_with(b"threads\n")
    }

    // The replicas that a run left.
    fn lives(&self) -> Option<&[Life]> {
        let outcome = self.ended.outcome.as_ref()?;
        Some(outcome.lives.as_slice())
    }
}

fn words(alloc: Global, text: &str) -> Result<Vec<String>, AllocError> {
    let mut words = Vec::new(alloc);
    for word in text.split(' ') {
        words.push(String::from_str(alloc, word)?)?;
    }
    Ok(words)
}

fn inputs(alloc: Global, plan: &str, work: &[u8]) -> Result<MemoryInputs, AllocError> {
    let mut pairs = Vec::new(alloc);
    for (name, text) in [("p", plan.as_bytes()), ("w", work)] {
        pairs.push((
            String::from_str(alloc, name)?,
            Vec::from_slice(alloc, text)?,
        ))?;
    }
    Ok(MemoryInputs::new(alloc, pairs, Vec::new(alloc)))
}

// The call on these words, with a plan `p` and a work `w`.
fn ask<R: Threads + Wait + Sync, G: Gate + Sync>(
    rt: &R,
    alloc: Global,
    asked: &str,
    plan: &str,
    work: &[u8],
    gate: &G,
) -> Result<Called, AllocError> {
    let words = words(alloc, asked)?;
    let mut inputs = inputs(alloc, plan, work)?;
    let mut source = MemorySource::new(Vec::new(alloc), 1, Vec::new(alloc));
    let mut sink = MemorySink::new(alloc, 65536, 4096, Vec::new(alloc))?;
    let ended = lucy(rt, alloc, &words, &mut inputs, &mut source, &mut sink, gate);
    Ok(Called { ended, sink })
}

/// Two replicas that commit at the same time: each is held until the other one is at its commit.
pub fn run_meets<R: Threads + Wait + Sync>(rt: &R, alloc: Global) -> Option<[bool; 2]> {
    let work = b"work 1\nreplicas 2\n0 add 1\n1 add 1\nend\n";
    let gate = Meeting::new();
    let run = ask(rt, alloc, "run p - w 5", ONE, work, &gate).ok()?;
    Some([run.is_threaded(), gate.has_met()])
}

// Whether each of its calls has a reply.
fn has_replies(life: &Life, calls: usize) -> bool {
    let replies = Replies::of(life);
    let accepted = replies.done.saturating_add(replies.moved);
    accepted
        .saturating_add(replies.broken)
        .saturating_add(replies.refused)
        == calls
}

// Whether a replica passed a commit for each call that is done, and an adoption for each record after
// the first.
fn is_counted(passed: &Passed, life: &Life) -> bool {
    passed.count(Point::Commit) == Replies::of(life).done as u64
        && passed.count(Point::Adopt) == life.closings().len() as u64
}

/// An auction of four replicas with 50 made calls each: whether it is worked on threads, whether each
/// call has a reply, and whether the points that were passed are as many as they have to be.
pub fn run_counts<R: Threads + Wait + Sync>(rt: &R, alloc: Global) -> Option<[bool; 3]> {
    let made = ask(rt, alloc, "make-work p 9 4 50", AUCTION, b"", &NoGate).ok()?;
    let gate = Counting::new(alloc, 4).ok()?;
    let run = ask(rt, alloc, "run p - w 5", AUCTION, made.sink.bytes(), &gate).ok()?;
    let lives = run.lives()?;
    Some([
        run.is_threaded(),
        lives.len() == 4 && lives.iter().all(|life| has_replies(life, 50)),
        gate.replicas
            .iter()
            .zip(lives)
            .all(|(passed, life)| is_counted(passed, life)),
    ])
}

/// Four replicas that cannot go on alone, with five calls each: whether they are worked on threads, how each
/// call ends, and whether each replica took ten records.
pub fn run_moves<R: Threads + Wait + Sync>(rt: &R, alloc: Global) -> Option<[bool; 3]> {
    let run = ask(rt, alloc, "run p - w 3", STILL, FOUR_TIMES_FIVE, &NoGate).ok()?;
    let lives = run.lives()?;
    Some([
        run.is_threaded(),
        Replies::of_all(lives) == Replies::new(0, 10, 10, 0),
        lives.iter().all(|life| life.closings().len() == 10),
    ])
}

/// Words that ask for no run are answered as ever: the words are bad at their second place.
pub fn no_run<R: Threads + Wait + Sync>(rt: &R, alloc: Global) -> Option<[bool; 3]> {
    let call = ask(rt, alloc, "check", ONE, b"", &NoGate).ok()?;
    Some([
        call.ended.status == 2,
        call.ended.outcome.is_none() && call.ended.apart.is_none(),
        call.sink.bytes() == b"bad words at 1\n".as_slice(),
    ])
}
