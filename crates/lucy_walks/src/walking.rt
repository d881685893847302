//! The walk of a seed.

ghost use Rattle.std.specs.Prelude.{◌≡◌, ◌<◌, ◌≤◌, ◌^◌, ◌∷◌, [], ◌↔◌, IsTrue, IfOk, IfSome, length, option_map};
ghost use Rattle.std.specs.Ordering.{int_eq};
ghost use Rattle.std.specs.Cmp.Lexicographic.{pointwise};
ghost use Rattle.std.specs.Arc.{arc_value};
ghost use Rattle.lucy_plan.specs.Calls.{Fits};
ghost use Rattle.lucy_plan.specs.Segments.{IsWhole};
ghost use Rattle.lucy_expr.specs.Trees.{Start, Apply, Merge};
ghost use Rattle.lucy_walks.specs.Sketches.{tree_of, unnamed, most_replicas, named};
ghost use Rattle.lucy_walks.specs.Walks as walks;
ghost use Rattle.lucy_walks.specs.Entries.{tree_in, trees_in, IsEntry, AreEntries, Offers};
ghost use Rattle.lucy_walks.specs.Laws.{Meets};

use crate::drawing::draw_call;
use crate::entries::Entry;
use crate::naming::name;
use crate::sketches::Sketch;
use lucy_expr::Expr;
use lucy_model::{Raw, State, merge};
use lucy_net::Chaos;
use lucy_plan::{Call, Plan, apply, settle, whole};
use std::alloc::{AllocError, Global};
use std::sync::Arc;

// The most nodes of an expression.
const MOST_NODES: u32 = 1000;

// The start, as the first entry of a pool.
#[tactic(auto, using(crate::proofs::EntryLemmas::whole_length))]
fn start_entry(alloc: Global, plan: &Plan) -> Result<Entry, AllocError>
    requires { IsWhole plan.now plan.now.start }
    ensures tree { IfOk result (λ entry. tree_in entry ≡ Start) }
    ensures entry { IfOk result (IsEntry plan.now) }
{
    let sketch = Arc::new(alloc, Sketch::Start)?;
    let state = State::new(alloc, plan.parts().start.as_slice())?;
    Ok(Entry {
        sketch,
        state,
        nodes: 1,
    })
}

// The merge of two sketches.
fn merged_sketch(
    alloc: Global,
    left: &Arc<Sketch>,
    right: &Arc<Sketch>,
) -> Result<Arc<Sketch>, AllocError>
    ensures { IfOk result (λ s. tree_of (arc_value s) ≡ Merge (tree_of (arc_value left.now)) (tree_of (arc_value right.now))) }
{
    let left = left.clone()?;
    let right = right.clone()?;
    let sketch = Arc::new(alloc, Sketch::Merge { left, right })?;
    Ok(sketch)
}

// The merge of two entries, unless it has too many nodes.
fn merged_entry(
    alloc: Global,
    plan: &Plan,
    left: &Entry,
    right: &Entry,
) -> Result<Option<Entry>, AllocError>
    requires left { IsEntry plan.now left.now }
    requires right { IsEntry plan.now right.now }
    ensures { IfOk result (Offers plan.now (Merge (tree_in left.now) (tree_in right.now))) }
{
    let nodes = left.nodes + right.nodes + 1;
    if nodes > MOST_NODES {
        return Ok(None);
    }
    let object = plan.parts().object.as_slice();
    let state = merge(alloc, object, &left.state, &right.state)?;
    let sketch = merged_sketch(alloc, &left.sketch, &right.sketch)?;
    Ok(Some(Entry {
        sketch,
        state,
        nodes,
    }))
}

// What a call makes of a state, if the result satisfies the invariant.
fn result_of(
    alloc: Global,
    plan: &Plan,
    call: &Call,
    state: &State,
) -> Result<Option<State>, AllocError>
    requires fits { Fits plan.now call.now }
    requires state { length state.now ≡ length plan.now.object }
    ensures { IfOk result (walks.ResultIs plan.now call.now state.now) }
{
    let mut raw = Raw::new(alloc, state.length())?;
    apply(plan, call, state, &mut raw);
    if !whole(plan, &raw) {
        return Ok(None);
    }
    let state = settle(alloc, &raw)?;
    Ok(Some(state))
}

// A call of replica 0 on an entry, unless it has too many nodes or its result breaks the invariant.
fn called_entry(
    alloc: Global,
    plan: &Plan,
    inner: &Entry,
    call: Call,
) -> Result<Option<Entry>, AllocError>
    requires inner { IsEntry plan.now inner.now }
    requires fits { Fits plan.now call }
    ensures { IfOk result (Offers plan.now (Apply (unnamed 0) call (tree_in inner.now))) }
{
    if inner.nodes >= MOST_NODES {
        return Ok(None);
    }
    let Some(state) = result_of(alloc, plan, &call, &inner.state)? else {
        return Ok(None);
    };
    let nodes = inner.nodes + 1;
    let sketch = Sketch::Apply {
        replica: 0,
        call,
        inner: inner.sketch.clone()?,
    };
    let sketch = Arc::new(alloc, sketch)?;
    Ok(Some(Entry {
        sketch,
        state,
        nodes,
    }))
}

// One of the entries of a pool.
#[tactic(auto, unfolding(crate::specs::Walks::picked))]
fn pick<'a>(plan: &Plan, pool: &'a [Entry], chaos: &mut Chaos) -> &'a Entry
    requires some { 0 < length pool.now }
    requires few { length pool.now < 2 ^ 32 }
    requires entries { AreEntries plan.now pool.now }
    ensures tree { (tree_in result.now, chaos.new) ≡ walks.picked (trees_in pool.now) chaos.old }
    ensures entry { IsEntry plan.now result.now }
{
    let _plan = plan;
    let place = chaos.draw(pool.len() as u32);
    &pool[place as usize]
}

// The merge of two entries of a pool.
#[tactic(auto, unfolding(crate::specs::Walks::merge_of))]
fn offer_merge(
    alloc: Global,
    plan: &Plan,
    pool: &[Entry],
    chaos: &mut Chaos,
) -> Result<Option<Entry>, AllocError>
    requires some { 0 < length pool.now }
    requires few { length pool.now < 2 ^ 32 }
    requires entries { AreEntries plan.now pool.now }
    ensures offer { IfOk result (Offers plan.now (walks.merge_of (trees_in pool.now) chaos.old).0) }
    ensures chaos { IfOk result (λ _. chaos.new ≡ (walks.merge_of (trees_in pool.now) chaos.old).1) }
{
    let left = pick(plan, pool, chaos);
    let right = pick(plan, pool, chaos);
    merged_entry(alloc, plan, left, right)
}

// A call on an entry of a pool. The plan has a transaction.
#[tactic(auto, unfolding(crate::specs::Walks::call_on))]
fn offer_call(
    alloc: Global,
    plan: &Plan,
    pool: &[Entry],
    chaos: &mut Chaos,
) -> Result<Option<Entry>, AllocError>
    requires txns { 0 < length plan.now.txns }
    requires some { 0 < length pool.now }
    requires few { length pool.now < 2 ^ 32 }
    requires entries { AreEntries plan.now pool.now }
    ensures offer { IfOk result (Offers plan.now (walks.call_on plan.now (trees_in pool.now) chaos.old).0) }
    ensures chaos { IfOk result (λ _. chaos.new ≡ (walks.call_on plan.now (trees_in pool.now) chaos.old).1) }
{
    let inner = pick(plan, pool, chaos);
    let call = draw_call(alloc, plan, chaos)?;
    called_entry(alloc, plan, inner, call)
}

// What a round makes of a pool, if it enters the pool.
#[tactic(auto, unfolding(crate::specs::Walks::made))]
fn offer(
    alloc: Global,
    plan: &Plan,
    pool: &[Entry],
    chaos: &mut Chaos,
) -> Result<Option<Entry>, AllocError>
    requires some { 0 < length pool.now }
    requires few { length pool.now < 2 ^ 32 }
    requires entries { AreEntries plan.now pool.now }
    ensures offer { IfOk result (Offers plan.now (walks.made plan.now (trees_in pool.now) chaos.old).0) }
    ensures chaos { IfOk result (λ _. chaos.new ≡ (walks.made plan.now (trees_in pool.now) chaos.old).1) }
{
    let kind = chaos.draw(4);
    if kind == 3 || plan.parts().txns.as_slice().is_empty() {
        offer_merge(alloc, plan, pool, chaos)
    } else {
        offer_call(alloc, plan, pool, chaos)
    }
}

// Whether a state is the goal.
fn is_goal(state: &State, goal: &State) -> bool
    ensures test { result ≡ pointwise int_eq state.now goal.now }
    ensures same { IsTrue result ↔ (state.now ≡ goal.now) }
{
    *state == *goal
}

// The expression of an entry that is the goal, its calls named.
fn met(alloc: Global, plan: &Plan, entry: &Entry, goal: &State) -> Result<Expr, AllocError>
    requires entry { IsEntry plan.now entry.now }
    requires goal { entry.now.state ≡ goal.now }
    ensures tree { IfOk result (λ e. e.tree ≡ named (tree_in entry.now)) }
    ensures room { IfOk result (λ e. e.room ≡ most_replicas) }
    ensures meets { IfOk result (λ e. Meets plan.now goal.now e.tree) }
{
    let _plan = plan;
    let _goal = goal;
    name(alloc, &entry.sketch)
}

// The rounds, from the start on.
fn walk_on(
    alloc: Global,
    plan: &Plan,
    chaos: &mut Chaos,
    length: u32,
    goal: &State,
    first: Entry,
) -> Result<Option<Expr>, AllocError>
    requires length { length ≤ 1000 }
    requires first { IsEntry plan.now first }
    ensures walk { IfOk result (λ found. option_map (λ e. e.tree) found ≡ option_map named (walks.walk_on plan.now goal.now length (tree_in first ∷ []) chaos.old)) }
    ensures meets { IfOk result (λ found. IfSome found (λ e. (e.room ≡ most_replicas) × Meets plan.now goal.now e.tree)) }
{
    let mut pool = Vec::new(alloc);
    pool.push(first)?;
    for round in 0..length {
        if let Some(entry) = offer(alloc, plan, pool.as_slice(), chaos)? {
            if is_goal(&entry.state, goal) {
                let expr = met(alloc, plan, &entry, goal)?;
                return Ok(Some(expr));
            }
            pool.push(entry)?;
        }
    }
    Ok(None)
}

/// Looks for an expression whose value is the goal, by a walk that its seed determines: a pool of
/// expressions begins with the start, and each of `length` rounds adds a merge of two of them, or a
/// call of replica 0 on one of them, both drawn. What has more than 1,000 nodes, and a call whose
/// result breaks the invariant, is dropped. `None` exactly where that walk meets no such expression.
/// The start satisfies the invariant, and `length` is at most 1,000.
#[tactic(auto, unfolding(crate::specs::Walks::walked))]
pub fn walk(
    alloc: Global,
    plan: &Plan,
    seed: u64,
    length: u32,
    goal: &State,
) -> Result<Option<Expr>, AllocError>
    requires length { length ≤ 1000 }
    requires start { IsWhole plan.now plan.now.start }
    ensures walk { IfOk result (λ found. option_map (λ e. e.tree) found ≡ walks.walked plan.now seed length goal.now) }
    ensures meets { IfOk result (λ found. IfSome found (λ e. (e.room ≡ most_replicas) × Meets plan.now goal.now e.tree)) }
{
    let first = start_entry(alloc, plan)?;
    if is_goal(&first.state, goal) {
        let expr = met(alloc, plan, &first, goal)?;
        return Ok(Some(expr));
    }
    let mut chaos = Chaos::new(seed);
    walk_on(alloc, plan, &mut chaos, length, goal, first)
}
