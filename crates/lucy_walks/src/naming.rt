//! The names of the calls of a sketch.

ghost use Rattle.std.specs.Prelude.{◌≡◌, ◌<◌, IsTrue, IfOk, length, replicate};
ghost use Rattle.lucy_expr.specs.Trees.{Apply, Merge};
ghost use Rattle.lucy_walks.specs.Sketches.{tree_of, are_seated, most_replicas, next_id, counted, named_on, named};

use crate::sketches::Sketch;
use lucy_expr::{Expr, Id};
use lucy_plan::Call;
use std::alloc::{AllocError, Global};

// The replicas whose calls an expression may have.
const REPLICAS: u32 = 16;

// Counts and depths below this number can go up by one.
const MOST: u32 = u32::MAX - 1;

// The name of the next call of a replica. A count that 32 bits do not hold is want of memory.
fn take_id(replica: u32, counts: &mut [u32]) -> Result<Id, AllocError>
    requires { replica < length counts.old }
    ensures id { IfOk result (λ id. id ≡ next_id counts.old replica) }
    ensures small { IfOk result (λ id. id.count < MOST) }
    ensures counts { IfOk result (λ _. counts.new ≡ counted counts.old replica) }
{
    let place = replica as usize;
    let count = counts[place];
    if count >= MOST {
        return Err(AllocError);
    }
    counts[place] = count + 1;
    Ok(Id { replica, count })
}

// A call, applied to an expression. A depth that 32 bits do not hold is want of memory.
fn applied(alloc: Global, inner: &Expr, id: Id, call: &Call) -> Result<Expr, AllocError>
    requires replica { id.replica < inner.now.room }
    requires count { id.count < MOST }
    ensures tree { IfOk result (λ e. e.tree ≡ Apply id call.now inner.now.tree) }
    ensures room { IfOk result (λ e. e.room ≡ inner.now.room) }
{
    if inner.depth() >= MOST {
        return Err(AllocError);
    }
    let call = call.copied(alloc)?;
    inner.applied(alloc, id, call)
}

// The merge of two expressions of one room.
fn merged(alloc: Global, left: &Expr, right: &Expr) -> Result<Expr, AllocError>
    requires { left.now.room ≡ right.now.room }
    ensures tree { IfOk result (λ e. e.tree ≡ Merge left.now.tree right.now.tree) }
    ensures room { IfOk result (λ e. e.room ≡ left.now.room) }
{
    if left.depth() >= MOST || right.depth() >= MOST {
        return Err(AllocError);
    }
    left.merged(alloc, right)
}

// The expression of a sketch, where each replica has made so many calls before.
fn name_on(alloc: Global, sketch: &Sketch, counts: &mut [u32]) -> Result<Expr, AllocError>
    requires replicas { length counts.old ≡ most_replicas }
    requires seated { IsTrue (are_seated (tree_of sketch.now)) }
    ensures tree { IfOk result (λ e. (e.tree, counts.new) ≡ named_on counts.old (tree_of sketch.now)) }
    ensures room { IfOk result (λ e. e.room ≡ most_replicas) }
{
    match sketch {
        Sketch::Start => Expr::start(alloc, REPLICAS),
        Sketch::Apply {
            replica,
            call,
            inner,
        } => {
            let part = name_on(alloc, inner, counts)?;
            let id = take_id(*replica, counts)?;
            applied(alloc, &part, id, call)
        }
        Sketch::Merge { left, right } => {
            let first = name_on(alloc, left, counts)?;
            let second = name_on(alloc, right, counts)?;
            merged(alloc, &first, &second)
        }
    }
}

/// The expression of a sketch. Its calls are named in the order in which it is evaluated, each by
/// its replica and the number of that replica's calls before. Each call is one of replicas 0 to 15.
pub fn name(alloc: Global, sketch: &Sketch) -> Result<Expr, AllocError>
    requires { IsTrue (are_seated (tree_of sketch.now)) }
    ensures tree { IfOk result (λ e. e.tree ≡ named (tree_of sketch.now)) }
    ensures room { IfOk result (λ e. e.room ≡ most_replicas) }
{
    let mut counts = [0u32; 16];
    name_on(alloc, sketch, &mut counts)
}
