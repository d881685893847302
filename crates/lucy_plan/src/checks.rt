ghost use Rattle.std.specs.Prelude.{◌≡◌, ◌==◌, ◌≤◌, map, [], length};
ghost use Rattle.std.specs.List.{list_all, list_any};
ghost use Rattle.std.specs.Option.{option_or};
ghost use Rattle.lucy_model.specs.Ranges.{all_allowed};
ghost use Rattle.lucy_plan.specs.Faults as faults;
ghost use Rattle.lucy_plan.specs.Sizes.{first_version, most_leaves, most_segments};

use crate::counts::{plan_nodes, points};
use crate::parts::{Branch, PlanParts, Segment, Set, Txn};
use crate::refusal::{PlanError, What};
use crate::rules::Rule;
use crate::sizes::{
    FIRST_VERSION, LEAST_DEPTH, MOST_ARGUMENTS, MOST_DEPTH, MOST_NODES, MOST_POINTS, MOST_SEGMENTS,
    MOST_TXNS, most_leaves,
};
use crate::terms::{limit, test_condition, test_place, test_term};
use lucy_model::{Leaf, State};

fn test_set(rule: Rule, change: &Set, leaves: usize, arguments: usize) -> Result<(), PlanError>
    ensures { faults.Answers (faults.set_fault rule leaves arguments change.now) result }
{
    test_place(rule, change.leaf, leaves)?;
    test_term(rule, &change.to, leaves, arguments)
}

fn test_sets(rule: Rule, sets: &[Set], leaves: usize, arguments: usize) -> Result<(), PlanError>
    ensures { faults.Answers (faults.first_of (map (faults.set_fault rule leaves arguments) sets.now)) result }
{
    for change in sets {
        test_set(rule, change, leaves, arguments)?;
    }
    Ok(())
}

fn test_branch(
    rule: Rule,
    branch: &Branch,
    leaves: usize,
    arguments: usize,
) -> Result<(), PlanError>
    ensures { faults.Answers (faults.branch_fault rule leaves arguments branch.now) result }
{
    test_condition(rule, &branch.when, leaves, arguments)?;
    test_sets(rule, branch.sets.as_slice(), leaves, arguments)
}

fn test_branches(
    rule: Rule,
    branches: &[Branch],
    leaves: usize,
    arguments: usize,
) -> Result<(), PlanError>
    ensures { faults.Answers (faults.first_of (map (faults.branch_fault rule leaves arguments) branches.now)) result }
{
    for branch in branches {
        test_branch(rule, branch, leaves, arguments)?;
    }
    Ok(())
}

fn test_txn(rule: Rule, txn: &Txn, leaves: usize) -> Result<(), PlanError>
    ensures { faults.Answers (faults.txn_fault rule leaves txn.now) result }
{
    test_branches(rule, txn.branches.as_slice(), leaves, txn.params.len())
}

fn test_txns(rule: Rule, txns: &[Txn], leaves: usize) -> Result<(), PlanError>
    ensures { faults.Answers (faults.first_of (map (faults.txn_fault rule leaves) txns.now)) result }
{
    for txn in txns {
        test_txn(rule, txn, leaves)?;
    }
    Ok(())
}

fn test_places(rule: Rule, places: &[u32], end: usize) -> Result<(), PlanError>
    ensures { faults.Answers (faults.first_of (map (faults.place_fault rule end) places.now)) result }
{
    for place in places {
        test_place(rule, *place, end)?;
    }
    Ok(())
}

fn test_segment(rule: Rule, segment: &Segment, leaves: usize, txns: usize) -> Result<(), PlanError>
    ensures { faults.Answers (faults.segment_fault rule leaves txns segment.now) result }
{
    test_condition(rule, &segment.condition, leaves, 0)?;
    test_places(rule, segment.txns.as_slice(), txns)
}

fn test_segments(
    rule: Rule,
    segments: &[Segment],
    leaves: usize,
    txns: usize,
) -> Result<(), PlanError>
    ensures { faults.Answers (faults.first_of (map (faults.segment_fault rule leaves txns) segments.now)) result }
{
    for segment in segments {
        test_segment(rule, segment, leaves, txns)?;
    }
    Ok(())
}

/// Asks one question of all parts: of the invariant, the transactions and the segments.
fn test_rule(rule: Rule, parts: &PlanParts) -> Result<(), PlanError>
    ensures { faults.Answers (faults.rule_fault rule parts.now) result }
{
    let leaves = parts.object.len();
    test_condition(rule, &parts.invariant, leaves, 0)?;
    test_txns(rule, parts.txns.as_slice(), leaves)?;
    test_segments(rule, parts.segments.as_slice(), leaves, parts.txns.len())
}

fn test_params(txns: &[Txn]) -> Result<(), PlanError>
    ensures { faults.Answers (faults.first_of (map faults.params_fault txns.now)) result }
{
    for txn in txns {
        limit(What::Arguments, 0, MOST_ARGUMENTS, txn.params.len() as u64)?;
    }
    Ok(())
}

fn test_ranges(object: &[Leaf], start: &[i64]) -> Result<(), PlanError>
    requires { length object.now ≤ most_leaves first_version }
    ensures { faults.Answers (faults.range_fault 0 object.now start.now) result }
{
    for (i, leaf) in object.iter().enumerate() {
        let Some(number) = start.get(i) else {
            return Ok(());
        };
        if !leaf.allows(i128::from(*number)) {
            return Err(PlanError::BadStart { leaf: i as u32 });
        }
    }
    Ok(())
}

fn test_length(leaves: usize, numbers: usize) -> Result<(), PlanError>
    requires { leaves ≤ most_leaves first_version }
    ensures { faults.Answers (faults.length_fault leaves numbers) result }
{
    if leaves == numbers {
        Ok(())
    } else {
        Err(PlanError::BadStart {
            leaf: leaves.min(numbers) as u32,
        })
    }
}

fn test_start(object: &[Leaf], start: &State) -> Result<(), PlanError>
    requires { length object.now ≤ most_leaves first_version }
    ensures { faults.Answers (option_or (faults.range_fault 0 object.now start.now) (faults.length_fault (length object.now) (length start.now))) result }
{
    test_ranges(object, start.as_slice())?;
    test_length(object.len(), start.length())
}

/// Whether one of the changes sets this leaf.
fn is_set(sets: &[Set], leaf: u32) -> bool
    ensures { result ≡ list_any (λ earlier. earlier.leaf == leaf) sets.now }
{
    sets.iter().any(|earlier| earlier.leaf == leaf)
}

fn test_again(sets: &[Set]) -> Result<(), PlanError>
    ensures { faults.Answers (faults.again_fault [] sets.now) result }
{
    for (i, change) in sets.iter().enumerate() {
        if is_set(&sets[..i], change.leaf) {
            return Err(PlanError::BadIndex { index: change.leaf });
        }
    }
    Ok(())
}

fn test_twice(branches: &[Branch]) -> Result<(), PlanError>
    ensures { faults.Answers (faults.first_of (map faults.branch_twice_fault branches.now)) result }
{
    for branch in branches {
        test_again(branch.sets.as_slice())?;
    }
    Ok(())
}

fn test_all_twice(txns: &[Txn]) -> Result<(), PlanError>
    ensures { faults.Answers (faults.first_of (map faults.twice_fault txns.now)) result }
{
    for txn in txns {
        test_twice(txn.branches.as_slice())?;
    }
    Ok(())
}

/// Whether the numbers are a state of the object.
fn is_state(object: &[Leaf], state: &State) -> bool
    ensures { result ≡ all_allowed object.now state.now }
{
    let numbers = state.as_slice();
    if object.len() != numbers.len() {
        return false;
    }
    for (i, leaf) in object.iter().enumerate() {
        if !leaf.allows(i128::from(numbers[i])) {
            return false;
        }
    }
    true
}

fn are_states(object: &[Leaf], states: &[State]) -> bool
    ensures { result ≡ list_all (all_allowed object.now) states.now }
{
    for state in states {
        if !is_state(object, state) {
            return false;
        }
    }
    true
}

fn test_points(object: &[Leaf], segments: &[Segment]) -> Result<(), PlanError>
    requires { length segments.now ≤ most_segments }
    ensures { faults.Answers (faults.points_fault 0 object.now segments.now) result }
{
    for (i, segment) in segments.iter().enumerate() {
        if !are_states(object, segment.excepts.as_slice()) {
            return Err(PlanError::BadIndex { index: i as u32 });
        }
    }
    Ok(())
}

fn test_sizes(parts: &PlanParts) -> Result<(), PlanError>
    ensures { faults.Answers (faults.size_fault parts.now) result }
{
    limit(
        What::Leaves,
        1,
        most_leaves(FIRST_VERSION),
        parts.object.len() as u64,
    )?;
    test_rule(Rule::Factors, parts)?;
    test_rule(Rule::Constants, parts)?;
    limit(What::Conditions, 0, MOST_NODES, plan_nodes(parts))
}

fn test_counts(parts: &PlanParts) -> Result<(), PlanError>
    ensures { faults.Answers (faults.count_fault parts.now) result }
{
    limit(What::Transactions, 0, MOST_TXNS, parts.txns.len() as u64)?;
    test_params(parts.txns.as_slice())?;
    limit(
        What::Segments,
        1,
        MOST_SEGMENTS,
        parts.segments.len() as u64,
    )?;
    limit(
        What::Points,
        0,
        MOST_POINTS,
        points(parts.segments.as_slice()),
    )?;
    limit(What::Depth, LEAST_DEPTH, MOST_DEPTH, u64::from(parts.depth))
}

fn test_indices(parts: &PlanParts) -> Result<(), PlanError>
    requires { length parts.now.segments ≤ most_segments }
    ensures { faults.Answers (faults.index_fault parts.now) result }
{
    test_rule(Rule::Slots, parts)?;
    test_rule(Rule::Orders, parts)?;
    test_all_twice(parts.txns.as_slice())?;
    test_points(parts.object.as_slice(), parts.segments.as_slice())
}

/// Tells the first fault of the parts.
pub(crate) fn test_parts(parts: &PlanParts) -> Result<(), PlanError>
    ensures { faults.Answers (faults.fault_of parts.now) result }
{
    test_sizes(parts)?;
    test_counts(parts)?;
    test_start(parts.object.as_slice(), &parts.start)?;
    test_indices(parts)
}
