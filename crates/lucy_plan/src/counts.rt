ghost use Rattle.std.specs.Prelude.{◌≡◌, min, map, sum, sum_by, length};
ghost use Rattle.lucy_plan.specs.Counts as counts;

use crate::parts::{Branch, PlanParts, Segment, Txn};
use lucy_model::Condition;

/// How many nodes a condition has, or 2^64 - 1 where that is less.
#[cycle(counting)]
fn nodes(condition: &Condition) -> u64
    ensures { result ≡ min (counts.nodes_of condition.now) counts.most_told }
{
    match condition {
        Condition::True => 1,
        Condition::False => 1,
        Condition::Compare { term: _, op: _ } => 1,
        Condition::Is(_) => 1,
        Condition::Not(part) => nodes(part.get()).saturating_add(1),
        Condition::And(parts) => all_nodes(parts.as_slice()).saturating_add(1),
        Condition::Or(parts) => all_nodes(parts.as_slice()).saturating_add(1),
        Condition::Implies(left, right) => nodes(left.get())
            .saturating_add(nodes(right.get()))
            .saturating_add(1),
    }
}

#[cycle(counting)]
fn all_nodes(parts: &[Condition]) -> u64
    ensures { result ≡ min (sum_by counts.nodes_of parts.now) counts.most_told }
{
    let mut count = 0u64;
    for part in parts {
        count = count.saturating_add(nodes(part));
    }
    count
}

fn branch_nodes(branches: &[Branch]) -> u64
    ensures { result ≡ min (sum_by (λ branch. counts.nodes_of branch.when) branches.now) counts.most_told }
{
    let mut count = 0u64;
    for branch in branches {
        count = count.saturating_add(nodes(&branch.when));
    }
    count
}

fn txn_nodes(txns: &[Txn]) -> u64
    ensures { result ≡ min (sum_by counts.txn_nodes txns.now) counts.most_told }
{
    let mut count = 0u64;
    for txn in txns {
        count = count.saturating_add(branch_nodes(txn.branches.as_slice()));
    }
    count
}

fn segment_nodes(segments: &[Segment]) -> u64
    ensures { result ≡ min (sum_by (λ segment. counts.nodes_of segment.condition) segments.now) counts.most_told }
{
    let mut count = 0u64;
    for segment in segments {
        count = count.saturating_add(nodes(&segment.condition));
    }
    count
}

/// How many nodes the conditions of a plan have, or 2^64 - 1 where that is less.
pub(crate) fn plan_nodes(parts: &PlanParts) -> u64
    ensures { result ≡ min (counts.plan_nodes parts.now) counts.most_told }
{
    nodes(&parts.invariant)
        .saturating_add(txn_nodes(parts.txns.as_slice()))
        .saturating_add(segment_nodes(parts.segments.as_slice()))
}

/// How many points the segments leave out, or 2^64 - 1 where that is less.
pub(crate) fn points(segments: &[Segment]) -> u64
    ensures { result ≡ min (sum_by (λ segment. length segment.excepts) segments.now) counts.most_told }
{
    let mut count = 0u64;
    for segment in segments {
        count = count.saturating_add(segment.excepts.len() as u64);
    }
    count
}
