ghost use Rattle.std.specs.Prelude.{◌≡◌, ◌↔◌, IsTrue};

use crate::parts::{Branch, Call, Limits, PlanParts, Segment, Set, Txn};
use crate::plans::Plan;
use lucy_model::{Leaf, State};

fn same_numbers(left: &[i64], right: &[i64]) -> bool
    ensures { IsTrue result ↔ (left.now ≡ right.now) }
{
    left == right
}

fn same_places(left: &[u32], right: &[u32]) -> bool
    ensures { IsTrue result ↔ (left.now ≡ right.now) }
{
    left == right
}

fn same_leaf(left: &Leaf, right: &Leaf) -> bool
    ensures { IsTrue result ↔ (left.now ≡ right.now) }
{
    left.kind == right.kind && left.lo == right.lo && left.hi == right.hi
}

fn same_leaves(left: &[Leaf], right: &[Leaf]) -> bool
    ensures { IsTrue result ↔ (left.now ≡ right.now) }
{
    if left.len() != right.len() {
        return false;
    }
    for (i, leaf) in left.iter().enumerate() {
        if !same_leaf(leaf, &right[i]) {
            return false;
        }
    }
    true
}

fn same_limits(left: &Limits, right: &Limits) -> bool
    ensures { IsTrue result ↔ (left.now ≡ right.now) }
{
    left.lo == right.lo && left.hi == right.hi
}

fn same_params(left: &[Limits], right: &[Limits]) -> bool
    ensures { IsTrue result ↔ (left.now ≡ right.now) }
{
    if left.len() != right.len() {
        return false;
    }
    for (i, limits) in left.iter().enumerate() {
        if !same_limits(limits, &right[i]) {
            return false;
        }
    }
    true
}

fn same_states(left: &[State], right: &[State]) -> bool
    ensures { IsTrue result ↔ (left.now ≡ right.now) }
{
    if left.len() != right.len() {
        return false;
    }
    for (i, state) in left.iter().enumerate() {
        if !state.is_same(&right[i]) {
            return false;
        }
    }
    true
}

fn same_set(left: &Set, right: &Set) -> bool
    ensures { IsTrue result ↔ (left.now ≡ right.now) }
{
    left.leaf == right.leaf && left.to.is_same(&right.to)
}

fn same_sets(left: &[Set], right: &[Set]) -> bool
    ensures { IsTrue result ↔ (left.now ≡ right.now) }
{
    if left.len() != right.len() {
        return false;
    }
    for (i, change) in left.iter().enumerate() {
        if !same_set(change, &right[i]) {
            return false;
        }
    }
    true
}

fn same_branch(left: &Branch, right: &Branch) -> bool
    ensures { IsTrue result ↔ (left.now ≡ right.now) }
{
    left.when.is_same(&right.when) && same_sets(left.sets.as_slice(), right.sets.as_slice())
}

fn same_branches(left: &[Branch], right: &[Branch]) -> bool
    ensures { IsTrue result ↔ (left.now ≡ right.now) }
{
    if left.len() != right.len() {
        return false;
    }
    for (i, branch) in left.iter().enumerate() {
        if !same_branch(branch, &right[i]) {
            return false;
        }
    }
    true
}

fn same_txn(left: &Txn, right: &Txn) -> bool
    ensures { IsTrue result ↔ (left.now ≡ right.now) }
{
    left.name.is_same(&right.name)
        && same_params(left.params.as_slice(), right.params.as_slice())
        && same_branches(left.branches.as_slice(), right.branches.as_slice())
}

fn same_txns(left: &[Txn], right: &[Txn]) -> bool
    ensures { IsTrue result ↔ (left.now ≡ right.now) }
{
    if left.len() != right.len() {
        return false;
    }
    for (i, txn) in left.iter().enumerate() {
        if !same_txn(txn, &right[i]) {
            return false;
        }
    }
    true
}

fn same_segment(left: &Segment, right: &Segment) -> bool
    ensures { IsTrue result ↔ (left.now ≡ right.now) }
{
    left.name.is_same(&right.name)
        && left.condition.is_same(&right.condition)
        && same_states(left.excepts.as_slice(), right.excepts.as_slice())
        && same_places(left.txns.as_slice(), right.txns.as_slice())
}

fn same_segments(left: &[Segment], right: &[Segment]) -> bool
    ensures { IsTrue result ↔ (left.now ≡ right.now) }
{
    if left.len() != right.len() {
        return false;
    }
    for (i, segment) in left.iter().enumerate() {
        if !same_segment(segment, &right[i]) {
            return false;
        }
    }
    true
}

impl Call {
    /// Whether two calls are one: the same transaction with the same arguments.
    pub fn is_same(&self, other: &Call) -> bool
        ensures { IsTrue result ↔ (self.now ≡ other.now) }
    {
        self.txn == other.txn && same_numbers(self.arguments.as_slice(), other.arguments.as_slice())
    }
}

impl PlanParts {
    /// Whether two plans have the same parts.
    pub fn is_same(&self, other: &PlanParts) -> bool
        ensures { IsTrue result ↔ (self.now ≡ other.now) }
    {
        same_leaves(self.object.as_slice(), other.object.as_slice())
            && self.start.is_same(&other.start)
            && self.invariant.is_same(&other.invariant)
            && same_txns(self.txns.as_slice(), other.txns.as_slice())
            && same_segments(self.segments.as_slice(), other.segments.as_slice())
            && self.depth == other.depth
    }
}

impl Plan {
    /// Whether two plans are one, part by part.
    pub fn is_same(&self, other: &Plan) -> bool
        ensures { IsTrue result ↔ (self.now ≡ other.now) }
    {
        self.parts().is_same(other.parts())
    }
}
