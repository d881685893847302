//! Gates that count, and one at which two replicas meet.

use lucy_cluster::{Gate, Point};
use std::alloc::{AllocError, Global};
use std::sync::atomic::{AtomicBool, AtomicU64, Ordering};

/// How often one replica passed each point.
#[derive(Drop)]
pub struct Passed {
    commits: AtomicU64,
    merges: AtomicU64,
    freezes: AtomicU64,
    adoptions: AtomicU64,
}

impl Passed {
    // It passed none yet.
    fn new() -> Passed {
        Passed {
            commits: AtomicU64::new(0),
            merges: AtomicU64::new(0),
            freezes: AtomicU64::new(0),
            adoptions: AtomicU64::new(0),
        }
    }

    /// How often it passed this point.
    pub fn count(&self, point: Point) -> u64 {
        self.counter(point).load(Ordering::SeqCst)
    }

    fn counter(&self, point: Point) -> &AtomicU64 {
        match point {
            Point::Commit => &self.commits,
            Point::Merge => &self.merges,
            Point::Freeze => &self.freezes,
            Point::Adopt => &self.adoptions,
        }
    }
}

/// A gate that counts, for each replica, how often it passed each point.
#[derive(Drop)]
pub struct Counting {
    pub replicas: Vec<Passed>,
}

impl Counting {
    /// Nothing was passed by so many replicas.
    pub fn new(alloc: Global, replicas: u32) -> Result<Counting, AllocError> {
        let mut passed = Vec::new(alloc);
        for _ in 0..replicas {
            passed.push(Passed::new()).map_err(AllocError::from)?;
        }
        Ok(Counting { replicas: passed })
    }
}

impl Gate for Counting {
    fn at(&self, replica: u32, point: Point) {
        if let Some(passed) = self.replicas.get(replica as usize) {
            passed.counter(point).fetch_add(1, Ordering::SeqCst);
        }
    }
}

// How long a replica waits, in turns of a loop.
const MOST_TURNS: u32 = 500_000_000;

// One of two replicas that are to meet.
#[derive(Drop)]
struct Guest {
    has_come: AtomicBool,
    has_met: AtomicBool,
}

impl Guest {
    // It has not come yet.
    fn new() -> Guest {
        Guest {
            has_come: AtomicBool::new(false),
            has_met: AtomicBool::new(false),
        }
    }

    // It comes, and waits for the other one.
    fn meet(&self, other: &Guest) {
        self.has_come.store(true, Ordering::SeqCst);
        for _ in 0..MOST_TURNS {
            if other.has_come.load(Ordering::SeqCst) {
                self.has_met.store(true, Ordering::SeqCst);
                return;
            }
        }
    }
}

/// A gate that holds each of the replicas 0 and 1 at its commit until the other one is at its own, or until
/// it has waited for 500,000,000 turns.
#[derive(Drop)]
pub struct Meeting {
    first: Guest,
    second: Guest,
}

impl Meeting {
    /// Nobody has come yet.
    pub fn new() -> Meeting {
        Meeting {
            first: Guest::new(),
            second: Guest::new(),
        }
    }

    /// Whether both were at their commits at the same time.
    pub fn has_met(&self) -> bool {
        self.first.has_met.load(Ordering::SeqCst) && self.second.has_met.load(Ordering::SeqCst)
    }
}

impl Gate for Meeting {
    fn at(&self, replica: u32, point: Point) {
        if point != Point::Commit {
            return;
        }
        match replica {
            0 => self.first.meet(&self.second),
            1 => self.second.meet(&self.first),
            _ => {}
        }
    }
}
