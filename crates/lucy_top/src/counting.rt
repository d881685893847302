//! What a drill counts of a world.

ghost use Rattle.std.specs.Prelude.{◌≡◌, ◌≤◌, length, map};
ghost use Rattle.lucy_replica.specs.Answering.{answer_of};
ghost use Rattle.lucy_top.specs.Drills as drills;

use lucy_core::World;
use lucy_make::Drill;
use lucy_plan::Plan;
use lucy_replica::{Life, Reply};

/// A kind of reply.
#[derive(Clone, Copy, PartialEq, Eq)]
pub enum ReplyKind {
    Done,
    Broken,
    Moved,
    Refused,
}

fn is_of(kind: ReplyKind, reply: &Reply) -> bool
    ensures { result ≡ drills.is_of kind (answer_of reply.now) }
{
    match reply {
        Reply::Done { .. } => kind == ReplyKind::Done,
        Reply::Broken { .. } => kind == ReplyKind::Broken,
        Reply::Moved { .. } => kind == ReplyKind::Moved,
        Reply::Refused { .. } => kind == ReplyKind::Refused,
    }
}

// How many of the replies are of this kind.
fn how_many(kind: ReplyKind, replies: &[Reply]) -> u64
    ensures value { result ≡ drills.how_many kind (map answer_of replies.now) }
    ensures few { result ≤ length replies.now }
{
    let mut count = 0;
    for reply in replies {
        if is_of(kind, reply) {
            count += 1;
        }
    }
    count
}

// How many of a replica's replies are of this kind.
fn of_one(kind: ReplyKind, life: &Life) -> u64
    ensures value { result ≡ drills.how_many kind life.now.replica.replies }
    ensures few { result ≤ 4096 }
{
    life.facts();
    how_many(kind, life.replies())
}

// How many of the replies of all replicas are of this kind.
fn over_all(kind: ReplyKind, lives: &[Life]) -> u64
    requires { length lives.now ≤ 16 }
    ensures { result ≡ drills.over_all kind (map (λ life. life.replica) lives.now) }
{
    let mut count = 0;
    for life in lives {
        count += of_one(kind, life);
    }
    count
}

/// What a drill of a seed and a size counts of the world after so many steps. The world has at most 16 replicas.
#[tactic(auto, unfolding(crate::specs::Drills::counts))]
pub fn count(plan: &Plan, seed: u64, size: u32, steps: u64, world: &World) -> Drill
    requires { length world.now.replicas ≤ 16 }
    ensures { result ≡ drills.counts plan.now seed size steps world.now }
{
    let lives = world.lives();
    Drill {
        seed,
        size,
        leaves: plan.parts().object.len() as u64,
        steps,
        done: over_all(ReplyKind::Done, lives),
        broken: over_all(ReplyKind::Broken, lives),
        moved: over_all(ReplyKind::Moved, lives),
        refused: over_all(ReplyKind::Refused, lives),
        epochs: world.epochs().len() as u64,
    }
}
