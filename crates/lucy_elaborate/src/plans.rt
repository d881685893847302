//! The plan of a tree.

ghost use Rattle.std.specs.Prelude.{◌≡◌};
ghost use Rattle.lucy_gather.specs.Steps.{Gives, Answers};
ghost use Rattle.lucy_elaborate.specs.Plans as spec;

use crate::objects::object_of;
use crate::segments::segments_in;
use crate::starts::start_from;
use crate::txns::{Found, txns_in};
use lucy_gather::{ElabError, Scope, condition_of};
use lucy_model::Condition;
use lucy_names::Names;
use lucy_plan::{
    FIRST_VERSION, LEAST_DEPTH, MOST_DEPTH, Plan, PlanError, PlanParts, USUAL_DEPTH, What,
};
use lucy_tree::{Depth, Number, Segment, Tree};
use sqlite_items::Items;
use std::alloc::Global;

/// The invariant of a plan, and its transactions and segments.
#[derive(Drop)]
pub struct Rules {
    pub invariant: Condition,
    pub found: Found,
}

#[tactic(auto, unfolding(crate::specs::Plans::known_version))]
fn known_version(number: Number) -> Result<(), ElabError>
    ensures { Answers (spec.known_version number) result }
{
    if number.value == u64::from(FIRST_VERSION) {
        Ok(())
    } else {
        Err(ElabError::Version(number.span.start))
    }
}

/// A plan has a segment.
#[tactic(auto, unfolding(crate::specs::Plans::some_segment))]
fn some_segment(segments: &[Segment]) -> Result<(), ElabError>
    ensures { Answers (spec.some_segment segments.now) result }
{
    if segments.len() > 0 {
        Ok(())
    } else {
        Err(ElabError::Limit {
            what: What::Segments,
            count: 0,
        })
    }
}

/// The transactions and the segments, in text order.
#[tactic(auto, unfolding(crate::specs::Plans::lists_in))]
fn lists_in(alloc: Global, scope: &Scope, found: &mut Found, tree: &Tree) -> Result<(), ElabError>
    ensures { Gives (spec.lists_in scope.now tree.now found.old) result found.new }
{
    txns_in(alloc, scope, found, tree.txns.as_slice())?;
    some_segment(tree.segments.as_slice())?;
    segments_in(alloc, scope, found, tree.segments.as_slice())
}

#[tactic(auto, unfolding(crate::specs::Plans::rules_in))]
fn rules_in(
    alloc: Global,
    scope: &Scope,
    found: &mut Found,
    tree: &Tree,
) -> Result<Condition, ElabError>
    ensures { Gives (spec.rules_in scope.now tree.now found.old) result found.new }
{
    let invariant = condition_of(
        alloc,
        scope,
        &[],
        &tree.invariant.cond,
        &mut found.conditions,
    )?;
    lists_in(alloc, scope, found, tree).map(|()| invariant)
}

#[tactic(auto, unfolding(crate::specs::Plans::rules_of))]
fn rules_of(alloc: Global, scope: &Scope, tree: &Tree) -> Result<Rules, ElabError>
    ensures { Answers (spec.rules_of scope.now tree.now) result }
{
    let mut found = Found {
        txns: Items::new(alloc),
        segments: Items::new(alloc),
        conditions: 0,
        points: 0,
    };
    let invariant = rules_in(alloc, scope, &mut found, tree)?;
    Ok(Rules { invariant, found })
}

#[tactic(auto, unfolding(crate::specs::Plans::depth_of))]
fn depth_of(depth: &Option<Depth>) -> Result<u32, ElabError>
    ensures { Answers (spec.depth_of depth.now) result }
{
    match depth {
        None => Ok(USUAL_DEPTH),
        Some(depth) => {
            let count = depth.number.value;
            if LEAST_DEPTH <= count && count <= MOST_DEPTH {
                Ok(count as u32)
            } else {
                Err(ElabError::Limit {
                    what: What::Depth,
                    count,
                })
            }
        }
    }
}

#[tactic(auto, unfolding(crate::specs::Plans::parts_of))]
fn parts_of(alloc: Global, tree: &Tree) -> Result<PlanParts, ElabError>
    ensures { Answers (spec.parts_of tree.now) result }
{
    known_version(tree.version)?;
    let scope = object_of(alloc, tree.object.fields.as_slice())?;
    let start = start_from(alloc, &scope, tree.start.settings.as_slice())?;
    let rules = rules_of(alloc, &scope, tree)?;
    depth_of(&tree.depth).map(|depth| PlanParts {
        object: scope.leaves,
        start,
        invariant: rules.invariant,
        txns: rules.found.txns,
        segments: rules.found.segments,
        depth,
    })
}

/// How a fault of parts would be told. Trees give no parts with a fault.
fn refused(at: usize, fault: PlanError) -> ElabError
    ensures { result ≡ spec.refused at fault }
{
    match fault {
        PlanError::Limit { what, count } => ElabError::Limit { what, count },
        PlanError::BadStart { .. } => ElabError::BadStart(at),
        PlanError::BadIndex { .. } => ElabError::Kind(at),
        PlanError::OutOfMemory => ElabError::OutOfMemory,
    }
}

#[tactic(auto, unfolding(crate::specs::Plans::accepted))]
fn accepted(at: usize, parts: PlanParts) -> Result<Plan, ElabError>
    ensures { Answers (spec.accepted at parts) result }
{
    match Plan::new(parts) {
        Ok(plan) => Ok(plan),
        Err(fault) => Err(refused(at, fault)),
    }
}

#[tactic(auto, unfolding(crate::specs::Plans::named))]
fn named(alloc: Global, at: usize, plan: &Plan) -> Result<Names, ElabError>
    ensures { Answers (spec.named at plan.now) result }
{
    match Names::of_plan(alloc, plan)? {
        None => Err(ElabError::Twice(at)),
        Some(names) => Ok(names),
    }
}

/// The plan of a tree and its names, or the first refusal in text order.
#[tactic(auto, unfolding(crate::specs::Plans::elaborated))]
pub fn elaborate(alloc: Global, tree: &Tree) -> Result<(Plan, Names), ElabError>
    ensures { Answers (spec.elaborated tree.now) result }
{
    let parts = parts_of(alloc, tree)?;
    let plan = accepted(tree.end_word.start, parts)?;
    named(alloc, tree.end_word.start, &plan).map(|names| (plan, names))
}
