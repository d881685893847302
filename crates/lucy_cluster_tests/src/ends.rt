//! What stands behind the locks at the end.

use lucy_audit::{Audit, audit};
use lucy_calls::Work;
use lucy_epochs::Table;
use lucy_judge::Checked;
use lucy_replica::{Life, Reply};
use std::alloc::Global;
use std::sync::Arc;

/// How many replies of each kind there are.
#[derive(Clone, Copy, PartialEq, Eq)]
pub struct Replies {
    pub done: usize,
    pub broken: usize,
    pub moved: usize,
    pub refused: usize,
}

impl Replies {
    /// So many of each kind.
    pub fn new(done: usize, broken: usize, moved: usize, refused: usize) -> Replies {
        Replies {
            done,
            broken,
            moved,
            refused,
        }
    }

    /// Those of a replica.
    pub fn of(life: &Life) -> Replies {
        let replies = life.replies();
        Replies {
            done: replies
                .iter()
                .filter(|it| matches!(it, Reply::Done { .. }))
                .count(),
            broken: replies
                .iter()
                .filter(|it| matches!(it, Reply::Broken { .. }))
                .count(),
            moved: replies
                .iter()
                .filter(|it| matches!(it, Reply::Moved { .. }))
                .count(),
            refused: replies
                .iter()
                .filter(|it| matches!(it, Reply::Refused { .. }))
                .count(),
        }
    }

    /// Those of all these replicas together.
    pub fn of_all(lives: &[Life]) -> Replies {
        let mut all = Replies::new(0, 0, 0, 0);
        for life in lives {
            all = all.plus(Replies::of(life));
        }
        all
    }

    // Both together.
    fn plus(self, other: Replies) -> Replies {
        Replies {
            done: self.done.saturating_add(other.done),
            broken: self.broken.saturating_add(other.broken),
            moved: self.moved.saturating_add(other.moved),
            refused: self.refused.saturating_add(other.refused),
        }
    }
}

// Whether an audit tells no difference, where there are as many replicas as lists in the work.
fn is_agreed(alloc: Global, checked: &Checked, work: &Work, table: &Table, lives: &[Life]) -> bool {
    if lives.len() > 16 || lives.len() != work.lists.len() {
        return false;
    }
    matches!(audit(alloc, checked, work, table, lives), Ok(Audit::Agreed))
}

/// The table and the replicas at the end, with the plan and the work that were given.
#[derive(Drop)]
pub struct Ends {
    pub checked: Arc<Checked>,
    pub work: Work,
    pub table: Table,
    pub lives: Vec<Life>,
}

impl Ends {
    /// How many records there are.
    pub fn records(&self) -> usize {
        self.table.list().len()
    }

    /// Whether there are so many replicas, each call has a reply, and each replica took every record.
    pub fn are_whole(&self, replicas: usize) -> bool {
        let records = self.records();
        self.lives.len() == replicas
            && self.lives.iter().all(|life| {
                life.replies().len() == life.calls().len() && life.closings().len() + 1 == records
            })
    }

    /// Whether the audit finds that this is a legal outcome of the work, with the table's records.
    pub fn are_agreed(&self, alloc: Global) -> bool {
        let lives = self.lives.as_slice();
        is_agreed(alloc, &self.checked, &self.work, &self.table, lives)
    }

    /// Whether the replica of this number has so many replies of each kind.
    pub fn has_replies(&self, replica: usize, wanted: Replies) -> bool {
        match self.lives.get(replica) {
            Some(life) => Replies::of(life) == wanted,
            None => false,
        }
    }

    /// The replies of all replicas together.
    pub fn replies(&self) -> Replies {
        Replies::of_all(self.lives.as_slice())
    }

    /// Whether the first number of the state of the replica of this number is this.
    pub fn is_at(&self, replica: usize, number: i64) -> bool {
        match self.lives.get(replica) {
            Some(life) => life.state().as_slice().first() == Some(&number),
            None => false,
        }
    }

    /// Whether the second record is of this segment, and the first number of its opening one of two.
    pub fn opens(&self, segment: u32, numbers: [i64; 2]) -> bool {
        let Some(record) = self.table.list().get(1) else {
            return false;
        };
        let first = record.opening().as_slice().first();
        record.segment() == segment && (first == Some(&numbers[0]) || first == Some(&numbers[1]))
    }
}
