//! Segments.

ghost use Rattle.std.specs.Prelude.{◌≡◌, ◌∷◌, []};
ghost use Rattle.lucy_gather.specs.Steps.{Gives, Answers};
ghost use Rattle.lucy_elaborate.specs.Segments as spec;

use crate::limits::{next_place, refused};
use crate::txns::{Found, text_of};
use lucy_gather::{ElabError, Scope, allowed, condition_of, int_start, one_more, slot_of};
use lucy_model::{Condition, Leaf, State};
use lucy_plan::{MOST_POINTS, MOST_SEGMENTS, Segment, Txn, What};
use lucy_tree::{Chain, Except, Int, Name, Point, Then};
use sqlite_items::Items;
use std::alloc::Global;

#[tactic(auto, unfolding(crate::specs::Segments::with_number))]
fn with_number(found: &mut Items<i64>, number: i64) -> Result<(), ElabError>
    ensures { Gives (spec.with_number number found.old) result found.new }
{
    found.push(number)?;
    Ok(())
}

/// Puts the number of the next leaf behind those found. `at` is the place of the point.
#[tactic(auto, unfolding(crate::specs::Segments::number_in))]
fn number_in(leaves: &[Leaf], found: &mut Items<i64>, at: usize, int: Int) -> Result<(), ElabError>
    ensures { Gives (spec.number_in leaves.now at int found.old) result found.new }
{
    match leaves.get(found.len()) {
        None => Err(ElabError::Kind(at)),
        Some(leaf) => match allowed(leaf, int) {
            None => Err(ElabError::Range(int_start(int))),
            Some(number) => with_number(found, number),
        },
    }
}

fn later_numbers(
    leaves: &[Leaf],
    found: &mut Items<i64>,
    at: usize,
    others: &[Then<Int>],
) -> Result<(), ElabError>
    ensures { Gives (spec.later_numbers leaves.now at others.now found.old) result found.new }
{
    for other in others {
        number_in(leaves, found, at, other.item)?;
    }
    Ok(())
}

#[tactic(auto, unfolding(crate::specs::Segments::numbers_in))]
fn numbers_in(
    leaves: &[Leaf],
    found: &mut Items<i64>,
    at: usize,
    numbers: &Chain<Int>,
) -> Result<(), ElabError>
    ensures { Gives (spec.numbers_in leaves.now at numbers.now found.old) result found.new }
{
    number_in(leaves, found, at, numbers.first)?;
    later_numbers(leaves, found, at, numbers.others.as_slice())?;
    Ok(())
}

#[tactic(auto, unfolding(crate::specs::Segments::numbers_of))]
fn numbers_of(
    alloc: Global,
    leaves: &[Leaf],
    at: usize,
    numbers: &Chain<Int>,
) -> Result<State, ElabError>
    ensures { Answers (spec.numbers_of leaves.now at numbers.now) result }
{
    let mut found = Items::new(alloc);
    numbers_in(leaves, &mut found, at, numbers)?;
    let state = State::new(alloc, found.as_slice())?;
    Ok(state)
}

/// A point has one number for each leaf.
#[tactic(auto, unfolding(crate::specs::Segments::long_enough))]
fn long_enough(leaves: &[Leaf], point: &Point) -> Result<(), ElabError>
    ensures { Answers (spec.long_enough leaves.now point.now) result }
{
    let count = one_more(point.numbers.others.len())?;
    if count == leaves.len() {
        Ok(())
    } else {
        Err(ElabError::Kind(point.open_paren.start))
    }
}

#[tactic(auto, unfolding(crate::specs::Segments::counted_point))]
fn counted_point(count: &mut u32) -> Result<(), ElabError>
    ensures { Gives (spec.counted_point count.old) result count.new }
{
    if u64::from(*count) >= MOST_POINTS {
        return Err(ElabError::Limit {
            what: What::Points,
            count: MOST_POINTS + 1,
        });
    }
    *count += 1;
    Ok(())
}

#[tactic(auto, unfolding(crate::specs::Segments::point_of))]
fn point_of(
    alloc: Global,
    leaves: &[Leaf],
    point: &Point,
    count: &mut u32,
) -> Result<State, ElabError>
    ensures { Gives (spec.point_of leaves.now point.now count.old) result count.new }
{
    long_enough(leaves, point)?;
    counted_point(count)?;
    let state = numbers_of(alloc, leaves, point.open_paren.start, &point.numbers)?;
    Ok(state)
}

fn later_points(
    alloc: Global,
    leaves: &[Leaf],
    others: &[Point],
    first: State,
    count: &mut u32,
) -> Result<Items<State>, ElabError>
    ensures { Gives (spec.later_points leaves.now others.now (first ∷ []) count.old) result count.new }
{
    let mut found = Items::new(alloc);
    found.push(first)?;
    for other in others {
        let point = point_of(alloc, leaves, other, count)?;
        found.push(point)?;
    }
    Ok(found)
}

#[tactic(auto, unfolding(crate::specs::Segments::points_of))]
fn points_of(
    alloc: Global,
    leaves: &[Leaf],
    except: &Option<Except>,
    count: &mut u32,
) -> Result<Items<State>, ElabError>
    ensures { Gives (spec.points_of leaves.now except.now count.old) result count.new }
{
    match except {
        None => Ok(Items::new(alloc)),
        Some(except) => {
            let first = point_of(alloc, leaves, &except.first, count)?;
            later_points(alloc, leaves, except.others.as_slice(), first, count)
        }
    }
}

/// The place of the transaction with this name.
fn place_of(txns: &[Txn], name: &[u8]) -> Option<usize>
    ensures { result ≡ spec.place_from 0 name.now txns.now }
{
    for (place, txn) in txns.iter().enumerate() {
        if txn.name.as_str().as_bytes() == name {
            return Some(place);
        }
    }
    None
}

fn is_listed(found: &[u32], place: u32) -> bool
    ensures { result ≡ spec.is_listed place found.now }
{
    found.iter().any(|&listed| listed == place)
}

#[tactic(auto, unfolding(crate::specs::Segments::listed_in))]
fn listed_in(txns: &[Txn], found: &mut Items<u32>, name: &Name) -> Result<(), ElabError>
    ensures { Gives (spec.listed_in txns.now name.now found.old) result found.new }
{
    match place_of(txns, name.text.as_slice()) {
        None => Err(ElabError::UnknownName(name.span.start)),
        Some(place) => {
            let place = slot_of(place)?;
            if is_listed(found.as_slice(), place) {
                return Err(ElabError::Twice(name.span.start));
            }
            found.push(place)?;
            Ok(())
        }
    }
}

fn all_listed(txns: &[Txn], found: &mut Items<u32>, names: &[Name]) -> Result<(), ElabError>
    ensures { Gives (spec.all_listed txns.now names.now found.old) result found.new }
{
    for name in names {
        listed_in(txns, found, name)?;
    }
    Ok(())
}

#[tactic(auto, unfolding(crate::specs::Segments::listed))]
fn listed(alloc: Global, txns: &[Txn], names: &[Name]) -> Result<Items<u32>, ElabError>
    ensures { Answers (spec.listed txns.now names.now) result }
{
    let mut found = Items::new(alloc);
    all_listed(txns, &mut found, names)?;
    Ok(found)
}

#[tactic(auto, unfolding(crate::specs::Segments::room_for_segment))]
fn room_for_segment(found: &Found) -> Result<(), ElabError>
    ensures { Gives (spec.room_for_segment found.now) result found.now }
{
    next_place(found.segments.len(), MOST_SEGMENTS, What::Segments)?;
    Ok(())
}

fn is_segment_named(segments: &[Segment], name: &[u8]) -> bool
    ensures { result ≡ spec.is_segment_named name.now segments.now }
{
    for segment in segments {
        if segment.name.as_str().as_bytes() == name {
            return true;
        }
    }
    false
}

#[tactic(auto, unfolding(crate::specs::Segments::new_segment))]
fn new_segment(found: &Found, name: &Name) -> Result<(), ElabError>
    ensures { Gives (spec.new_segment name.now found.now) result found.now }
{
    if is_segment_named(found.segments.as_slice(), name.text.as_slice()) {
        Err(ElabError::Twice(name.span.start))
    } else {
        Ok(())
    }
}

#[tactic(auto, unfolding(crate::specs::Segments::with_segment))]
fn with_segment(
    alloc: Global,
    found: &mut Found,
    name: lucy_plan::Name,
    condition: Condition,
    excepts: Items<State>,
    names: &[Name],
) -> Result<(), ElabError>
    ensures { Gives (spec.with_segment name condition excepts names.now found.old) result found.new }
{
    match listed(alloc, found.txns.as_slice(), names) {
        Ok(txns) => {
            found.segments.push(Segment {
                name,
                condition,
                excepts,
                txns,
            })?;
            Ok(())
        }
        Err(error) => refused((name, condition, excepts), error),
    }
}

#[tactic(auto, unfolding(crate::specs::Segments::segment_in))]
fn segment_in(
    alloc: Global,
    scope: &Scope,
    found: &mut Found,
    segment: &lucy_tree::Segment,
) -> Result<(), ElabError>
    ensures { Gives (spec.segment_in scope.now segment.now found.old) result found.new }
{
    room_for_segment(found)?;
    new_segment(found, &segment.name)?;
    let name = text_of(alloc, &segment.name)?;
    let condition = condition_of(alloc, scope, &[], &segment.cond, &mut found.conditions)?;
    match points_of(
        alloc,
        scope.leaves.as_slice(),
        &segment.except,
        &mut found.points,
    ) {
        Ok(excepts) => with_segment(
            alloc,
            found,
            name,
            condition,
            excepts,
            segment.txns.as_slice(),
        ),
        Err(error) => refused((name, condition), error),
    }
}

/// The segments of a plan, behind those found.
pub fn segments_in(
    alloc: Global,
    scope: &Scope,
    found: &mut Found,
    segments: &[lucy_tree::Segment],
) -> Result<(), ElabError>
    ensures { Gives (spec.segments_in scope.now segments.now found.old) result found.new }
{
    for segment in segments {
        segment_in(alloc, scope, found, segment)?;
    }
    Ok(())
}
