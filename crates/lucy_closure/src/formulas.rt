ghost use Rattle.std.specs.Prelude.{◌≡◌, ◌++◌, ◌∷◌, [], ◌<◌, ◌+◌, ◌≤◌, ◌↔◌, IfOk, IsTrue, true, length, map};
ghost use Rattle.lucy_clauses.specs.Formulas.{is_narrow, HasNoModel};
ghost use Rattle.lucy_model.specs.Conditions.{is_condition};
ghost use Rattle.lucy_plan.specs.Plans.{IsPlan};
ghost use Rattle.lucy_plan.specs.Segments.{is_in_segment};
ghost use Rattle.lucy_plan.specs.Soundness.{IsMergeClosed, IsCovered};
ghost use Rattle.lucy_closure.specs.Points.{are_points, all_numbers};
ghost use Rattle.lucy_closure.specs.Formulas as formulas;
ghost use Rattle.lucy_closure.specs.Meanings.{IsWholeClosedOff};

use crate::inside::{add_inside, left_out, outside};
use crate::merges::add_merged;
use lucy_clauses::{Formula, Range};
use lucy_model::{Condition, Leaf, State};
use lucy_normal::{Normal, Variables, normal_form, put_all};
use lucy_plan::{Plan, PlanParts, Segment};
use sqlite_items::Items;
use std::alloc::{AllocError, Global};

// The ranges of a state's variables.
fn add_ranges(ranges: &mut Items<Range>, object: &[Leaf]) -> Result<(), AllocError>
    ensures { IfOk result (λ _. ranges.new ≡ ranges.old ++ formulas.ranges_of object.now) }
{
    for leaf in object {
        ranges.push(Range {
            lo: leaf.lo,
            hi: leaf.hi,
        })?;
    }
    Ok(())
}

// A formula over one state, with no clause.
fn one_state(alloc: Global, object: &[Leaf]) -> Result<Formula, AllocError>
    ensures { IfOk result (λ f. f ≡ formulas.one_state object.now) }
{
    let mut ranges = Items::new(alloc);
    add_ranges(&mut ranges, object)?;
    let clauses = Items::new(alloc);
    Ok(Formula { ranges, clauses })
}

// A formula over two states and a third, with no clause.
fn three_states(alloc: Global, object: &[Leaf]) -> Result<Formula, AllocError>
    ensures { IfOk result (λ f. f ≡ formulas.three_states object.now) }
{
    let mut ranges = Items::new(alloc);
    add_ranges(&mut ranges, object)?;
    add_ranges(&mut ranges, object)?;
    add_ranges(&mut ranges, object)?;
    let clauses = Items::new(alloc);
    Ok(Formula { ranges, clauses })
}

// The variables of the merge of two states.
fn merge_at(object: &[Leaf]) -> Variables
    requires { length object.now ≤ 64 }
    ensures first { result.first ≡ length object.now + length object.now }
    ensures leaves { result.leaves ≡ length object.now }
{
    let leaves = object.len() as u32;
    Variables {
        first: leaves + leaves,
        leaves,
    }
}

// Two states inside, and their merge, of which something holds.
fn pair_formula(
    alloc: Global,
    object: &[Leaf],
    invariant: &Condition,
    condition: &Condition,
    points: &[State],
    last: Normal,
) -> Result<Formula, AllocError>
    requires few { length object.now ≤ 64 }
    requires invariant { IsTrue (is_condition (length object.now) 0 invariant.now) }
    requires condition { IsTrue (is_condition (length object.now) 0 condition.now) }
    requires points { are_points (length object.now) points.now ≡ true }
    ensures formula { IfOk result (λ f. f ≡ formulas.pair_formula object.now invariant.now condition.now points.now last) }
    ensures numbers { IfOk result (λ _. all_numbers points.now ≡ true) }
{
    let leaves = object.len() as u32;
    let left = Variables { first: 0, leaves };
    let right = Variables {
        first: leaves,
        leaves,
    };
    let mut parts = Items::new(alloc);
    add_inside(alloc, &mut parts, left, invariant, condition, points)?;
    add_inside(alloc, &mut parts, right, invariant, condition, points)?;
    add_merged(alloc, &mut parts, object)?;
    parts.push(last)?;
    let mut formula = three_states(alloc, object)?;
    put_all(alloc, &mut formula, parts.as_slice())?;
    Ok(formula)
}

// Two states of a segment have a merge outside it.
fn of_segment(alloc: Global, plan: &PlanParts, segment: &Segment) -> Result<Formula, AllocError>
    requires plan { IsPlan plan.now }
    requires segment { formulas.is_over (length plan.now.object) segment.now ≡ true }
    ensures { IfOk result (λ f. f ≡ formulas.segment_formula plan.now segment.now) }
{
    let object = plan.object.as_slice();
    let at = merge_at(object);
    let points = segment.excepts.as_slice();
    let last = outside(alloc, at, &plan.invariant, &segment.condition, points)?;
    let formula = pair_formula(
        alloc,
        object,
        &plan.invariant,
        &segment.condition,
        points,
        last,
    )?;
    Ok(formula)
}

// The same of the segment with a number.
fn of_closure(alloc: Global, plan: &PlanParts, segment: u32) -> Result<Formula, AllocError>
    requires { IsPlan plan.now }
    ensures { IfOk result (λ f. f ≡ formulas.closure_formula plan.now segment) }
{
    match plan.segments.get(segment as usize) {
        None => one_state(alloc, plan.object.as_slice()),
        Some(segment) => of_segment(alloc, plan, segment),
    }
}

// Two states of the invariant, neither of them a point, have a merge outside it.
fn of_whole(alloc: Global, plan: &PlanParts, points: &[State]) -> Result<Formula, AllocError>
    requires plan { IsPlan plan.now }
    requires points { are_points (length plan.now.object) points.now ≡ true }
    ensures formula { IfOk result (λ f. f ≡ formulas.whole_closure plan.now points.now) }
    ensures numbers { IfOk result (λ _. all_numbers points.now ≡ true) }
{
    let object = plan.object.as_slice();
    let last = normal_form(alloc, &plan.invariant, merge_at(object), false)?;
    let formula = pair_formula(
        alloc,
        object,
        &plan.invariant,
        &Condition::True,
        points,
        last,
    )?;
    Ok(formula)
}

// That a state is in none of the segments.
fn add_uncovered(
    alloc: Global,
    parts: &mut Items<Normal>,
    leaves: u32,
    segments: &[Segment],
) -> Result<(), AllocError>
    requires { formulas.are_over leaves segments.now ≡ true }
    ensures { IfOk result (λ _. parts.new ≡ parts.old ++ map formulas.uncovered segments.now) }
{
    for segment in segments {
        let at = Variables { first: 0, leaves };
        let part = left_out(alloc, at, &segment.condition, segment.excepts.as_slice())?;
        parts.push(part)?;
    }
    Ok(())
}

// That a state satisfies the invariant and is in no segment.
fn cover_parts(alloc: Global, plan: &PlanParts) -> Result<Items<Normal>, AllocError>
    requires { IsPlan plan.now }
    ensures { IfOk result (λ ps. ps ≡ formulas.cover_parts plan.now) }
{
    let leaves = plan.object.len() as u32;
    let at = Variables { first: 0, leaves };
    let mut parts = Items::new(alloc);
    let whole = normal_form(alloc, &plan.invariant, at, true)?;
    parts.push(whole)?;
    add_uncovered(alloc, &mut parts, leaves, plan.segments.as_slice())?;
    Ok(parts)
}

// A state of the invariant is in no segment.
fn of_cover(alloc: Global, plan: &PlanParts) -> Result<Formula, AllocError>
    requires { IsPlan plan.now }
    ensures { IfOk result (λ f. f ≡ formulas.cover_formula plan.now) }
{
    let parts = cover_parts(alloc, plan)?;
    let mut formula = one_state(alloc, plan.object.as_slice())?;
    put_all(alloc, &mut formula, parts.as_slice())?;
    Ok(formula)
}

/// The formula of a segment's closure. Variables 0 to L-1, where L is the number of leaves, are a first state, the next
/// L a second one and the next L their merge; fresh variables follow. It has a model exactly where two states of the
/// segment have a merge outside it. It is narrow.
pub fn closure_formula(alloc: Global, plan: &Plan, segment: u32) -> Result<Formula, AllocError>
    requires { segment < length plan.now.segments }
    ensures formula { IfOk result (λ f. f ≡ formulas.closure_formula plan.now segment) }
    ensures narrow { IfOk result (λ f. is_narrow f ≡ true) }
    ensures says { IfOk result (λ f. HasNoModel f ↔ IsMergeClosed plan.now.object (is_in_segment plan.now segment)) }
{
    let formula = of_closure(alloc, plan.parts(), segment)?;
    Ok(formula)
}

/// The formula of the invariant's closure, with points left out. Its variables are those of a closure formula. It has a
/// model exactly where two states of the invariant, neither of them one of the points, have a merge outside it. Each
/// point has one number for each leaf. It is narrow.
pub fn whole_closure(alloc: Global, plan: &Plan, points: &[State]) -> Result<Formula, AllocError>
    requires { are_points (length plan.now.object) points.now ≡ true }
    ensures formula { IfOk result (λ f. f ≡ formulas.whole_closure plan.now points.now) }
    ensures narrow { IfOk result (λ f. is_narrow f ≡ true) }
    ensures says { IfOk result (λ f. HasNoModel f ↔ IsWholeClosedOff plan.now points.now) }
{
    let formula = of_whole(alloc, plan.parts(), points)?;
    Ok(formula)
}

/// The formula of the cover. Variables 0 to L-1, where L is the number of leaves, are a state; fresh variables follow.
/// It has a model exactly where a state of the invariant is in no segment. It is narrow.
pub fn cover_formula(alloc: Global, plan: &Plan) -> Result<Formula, AllocError>
    ensures formula { IfOk result (λ f. f ≡ formulas.cover_formula plan.now) }
    ensures narrow { IfOk result (λ f. is_narrow f ≡ true) }
    ensures says { IfOk result (λ f. HasNoModel f ↔ IsCovered plan.now) }
{
    let formula = of_cover(alloc, plan.parts())?;
    Ok(formula)
}
