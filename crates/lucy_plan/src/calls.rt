ghost use Rattle.std.specs.Prelude.{◌≡◌, ◌≤◌, ◌^◌, ◌↔◌, IsTrue, true, length};
ghost use Rattle.std.specs.List.{list_all};
ghost use Rattle.lucy_model.specs.Numbers.{AllBelow};
ghost use Rattle.lucy_model.specs.Ranges.{all_allowed};
ghost use Rattle.lucy_plan.specs.Plans as plans;
ghost use Rattle.lucy_plan.specs.Calls as calls;
ghost use Rattle.lucy_plan.specs.Sizes.{first_version, most_leaves};

use crate::parts::{Branch, Call, Limits, Set};
use crate::plans::Plan;
use lucy_model::{Raw, State, eval, holds};

/// Whether there is one argument for each parameter, each in its range.
fn are_arguments(params: &[Limits], arguments: &[i64]) -> bool
    ensures { result ≡ calls.are_arguments params.now arguments.now }
{
    if params.len() != arguments.len() {
        return false;
    }
    for (i, limits) in params.iter().enumerate() {
        if arguments[i] < limits.lo || arguments[i] > limits.hi {
            return false;
        }
    }
    true
}

/// Whether a call fits a plan: the transaction exists, and the arguments are as many as it has
/// parameters, each in its range.
pub fn fits(plan: &Plan, call: &Call) -> bool
    ensures { IsTrue result ↔ calls.Fits plan.now call.now }
{
    match plan.parts().txns.get(call.txn as usize) {
        None => false,
        Some(txn) => are_arguments(txn.params.as_slice(), call.arguments.as_slice()),
    }
}

/// Copies a state into a buffer.
fn copy_state(state: &State, out: &mut Raw)
    requires out { length out.old ≡ length state.now }
    requires few { length state.now ≤ most_leaves first_version }
    ensures { out.new ≡ state.now }
{
    for leaf in 0..out.length() as u32 {
        out.set(leaf, i128::from(state.get(leaf)));
    }
}

/// Sets each leaf of the changes to its term's value in the state.
fn set_all(sets: &[Set], state: &State, arguments: &[i64], out: &mut Raw)
    requires sets { list_all (plans.is_set (length state.now) (length arguments.now)) sets.now ≡ true }
    requires out { length out.old ≡ length state.now }
    ensures value { out.new ≡ calls.with_sets sets.now state.now arguments.now out.old }
    ensures even { length out.new ≡ length out.old }
{
    for change in sets {
        out.set(change.leaf, eval(&change.to, state, arguments));
    }
}

/// Changes the buffer, which holds the state, by the first branch whose condition holds in it.
fn run_branches(branches: &[Branch], state: &State, arguments: &[i64], out: &mut Raw)
    requires branches { list_all (plans.is_branch (length state.now) (length arguments.now)) branches.now ≡ true }
    requires out { out.old ≡ state.now }
    ensures value { out.new ≡ calls.changed_by (calls.first_holding branches.now state.now arguments.now) state.now arguments.now }
    ensures even { length out.new ≡ length state.now }
{
    for branch in branches {
        if holds(&branch.when, state, arguments) {
            set_all(branch.sets.as_slice(), state, arguments, out);
            return;
        }
    }
}

/// Writes the result of a call that fits into a buffer: the first branch whose condition holds in
/// the state gives each leaf that it sets its term's value in the state. All other leaves, and
/// without such a branch all, keep their numbers. It takes no memory.
pub fn apply(plan: &Plan, call: &Call, state: &State, out: &mut Raw)
    requires fits { calls.Fits plan.now call.now }
    requires state { length state.now ≡ length plan.now.object }
    requires out { length out.old ≡ length plan.now.object }
    ensures value { out.new ≡ calls.applied plan.now call.now state.now }
    ensures even { length out.new ≡ length plan.now.object }
    ensures small { IsTrue (all_allowed plan.now.object state.now) → AllBelow (2 ^ 69) out.new }
{
    let parts = plan.parts();
    copy_state(state, out);
    if let Some(txn) = parts.txns.get(call.txn as usize) {
        run_branches(
            txn.branches.as_slice(),
            state,
            call.arguments.as_slice(),
            out,
        );
    }
}
