ghost use Rattle.std.specs.Prelude.{◌≡◌, ◌≤◌, ◌+◌, IfOk, length};
ghost use Rattle.lucy_closure.specs.Readings as readings;

use lucy_model::State;
use lucy_plan::Plan;
use std::alloc::{AllocError, Global};

// Whether numbers come before others, of which there are as many, in the order of dictionaries.
fn comes_before(left: &[i64], right: &[i64]) -> bool
    requires { length left.now ≡ length right.now }
    ensures { result ≡ readings.comes_before left.now right.now }
{
    for (i, number) in left.iter().enumerate() {
        if *number < right[i] {
            return true;
        }
        if *number > right[i] {
            return false;
        }
    }
    false
}

fn states(alloc: Global, left: &[i64], right: &[i64]) -> Result<(State, State), AllocError>
    ensures { IfOk result (λ pair. pair ≡ (left.now, right.now)) }
{
    let left = State::new(alloc, left)?;
    let right = State::new(alloc, right)?;
    Ok((left, right))
}

/// The two states of an assignment to a closure formula's variables, the lexicographically smaller first. It has at
/// least two numbers for each leaf.
pub fn read_pair(
    alloc: Global,
    plan: &Plan,
    assignment: &[i64],
) -> Result<(State, State), AllocError>
    requires { length plan.now.object + length plan.now.object ≤ length assignment.now }
    ensures { IfOk result (λ pair. pair ≡ readings.pair_of (length plan.now.object) assignment.now) }
{
    let leaves = plan.parts().object.len();
    let left = &assignment[..leaves];
    let right = &assignment[leaves..leaves + leaves];
    if comes_before(right, left) {
        states(alloc, right, left)
    } else {
        states(alloc, left, right)
    }
}

/// The state of an assignment to a cover formula's variables. It has at least one number for each leaf.
pub fn read_state(alloc: Global, plan: &Plan, assignment: &[i64]) -> Result<State, AllocError>
    requires { length plan.now.object ≤ length assignment.now }
    ensures { IfOk result (λ state. state ≡ readings.first_state (length plan.now.object) assignment.now) }
{
    let leaves = plan.parts().object.len();
    let state = State::new(alloc, &assignment[..leaves])?;
    Ok(state)
}
