use crate::making::{shared_plan, wrong_row, yes_or_no};
use lucy_epochs::{By, Epoch, Part, Parts};
use lucy_expr::Expr;
use lucy_model::{Raw, State, merge};
use lucy_plan::{Plan, first_segment, in_segment};
use std::alloc::{AllocError, Global};
use std::sync::Arc;
use std::thread;
use std::thread::Threads;

const BY: By = By {
    replica: 0,
    place: 0,
    count: 0,
};

const COUNTER: &str =
    "lucy 1 object { max x in 0..20; } start { } invariant true; txn add(n in 0..20) { when true { x := x + n; } } segment low when x <= 5 do add; segment mid when x <= 15 except (10) do add; segment high when true do; end";

fn counter(alloc: Global) -> Option<Arc<Plan>> {
    shared_plan(alloc, COUNTER)
}

// The first record of a plan, if its start is in a segment.
fn first(alloc: Global, plan: Arc<Plan>) -> Result<Option<Epoch>, AllocError> {
    let start = Raw::new(alloc, plan.parts().object.len())?;
    if !start.is_state(&plan.parts().start) || first_segment(&plan, &start).is_none() {
        return Ok(None);
    }
    Ok(Some(Epoch::first(alloc, plan)?))
}

// The record with these fields, if its opening, of one number, is in its segment.
fn record(
    alloc: Global,
    plan: &Arc<Plan>,
    number: u64,
    segment: u32,
    opening: i64,
    by: Option<By>,
) -> Result<Option<Epoch>, AllocError> {
    let state = State::new(alloc, &[opening])?;
    let mut raw = Raw::new(alloc, plan.parts().object.len())?;
    if raw.length() != 1 || segment as usize >= plan.parts().segments.len() {
        return Ok(None);
    }
    raw.set(0, i128::from(opening));
    if !raw.is_state(&state) || !in_segment(plan, segment, &raw) {
        return Ok(None);
    }
    let opening = Arc::new(alloc, state)?;
    Ok(Some(Epoch::new(number, segment, opening, plan.clone()?, by)))
}

// Whether a record is number 0, of segment 0, opens at 0, is of this plan, and has no cause.
fn tells_first(epoch: &Epoch, plan: &Plan) -> bool {
    epoch.number() == 0
        && epoch.segment() == 0
        && epoch.opening().as_slice() == [0].as_slice()
        && epoch.plan().is_same(plan)
        && epoch.by().is_none()
}

fn is_first(alloc: Global) -> Option<bool> {
    let plan = counter(alloc)?;
    let epoch = first(alloc, plan.clone().ok()?).ok()??;
    Some(tells_first(&epoch, &plan))
}

// Number, segment, opening and the causing replica of a record; whether it is the record 1 of segment 1 that opens with 8,
// by the first call of replica 0.
const RECORDS: &str = "1 1 8 0 yes
2 1 8 0 no
1 2 8 0 no
1 1 9 0 no
1 1 8 1 no
1 1 8 none no";

// The fields of a record but its plan.
#[derive(Clone, Copy)]
struct Fields {
    number: u64,
    segment: u32,
    opening: i64,
    by: Option<By>,
}

// The first call of a replica, or none.
fn by_of(word: &str) -> Option<By> {
    Some(By {
        replica: word.parse::<u32>().ok()?,
        place: 0,
        count: 0,
    })
}

fn fields_of<'a>(row: &'a str) -> Option<(Fields, &'a str)> {
    let mut words = row.split(' ');
    let number = words.next()?.parse::<u64>().ok()?;
    let segment = words.next()?.parse::<u32>().ok()?;
    let opening = words.next()?.parse::<i64>().ok()?;
    let by = match words.next()? {
        "none" => None,
        word => Some(by_of(word)?),
    };
    let fields = Fields {
        number,
        segment,
        opening,
        by,
    };
    Some((fields, words.next()?))
}

fn record_of(alloc: Global, plan: &Arc<Plan>, of: Fields) -> Option<Epoch> {
    record(alloc, plan, of.number, of.segment, of.opening, of.by).ok()?
}

// The record 1 of segment 1 of a plan, which opens with 8.
fn second(alloc: Global, plan: &Arc<Plan>) -> Option<Epoch> {
    record(alloc, plan, 1, 1, 8, Some(BY)).ok()?
}

fn is_second(epoch: &Epoch, other: &Epoch, want: &str) -> Option<bool> {
    Some(epoch.is_same(other) == yes_or_no(want)?)
}

// Beside a record of another plan of the same value.
fn is_compared(alloc: Global, row: &str) -> Option<bool> {
    let (fields, want) = fields_of(row)?;
    let epoch = second(alloc, &counter(alloc)?)?;
    let other = record_of(alloc, &counter(alloc)?, fields)?;
    is_second(&epoch, &other, want)
}

// The part of a replica that has done nothing.
fn fresh(alloc: Global, replica: u32, epoch: &Arc<Epoch>) -> Result<Part, AllocError> {
    let expr = Expr::start(alloc, 2)?;
    let state = epoch.opening().clone()?;
    Ok(Part::new(replica, epoch.clone()?, state, expr))
}

// The part of a replica that has merged another's fresh state, if the opening is of the object.
fn merged(alloc: Global, replica: u32, epoch: &Arc<Epoch>) -> Result<Option<Part>, AllocError> {
    let opening = epoch.opening();
    let object = epoch.plan().parts().object.as_slice();
    if opening.length() != object.len() {
        return Ok(None);
    }
    let start = Expr::start(alloc, 2)?;
    let expr = start.merged(alloc, &start)?;
    let state = Arc::new(alloc, merge(alloc, object, opening, opening)?)?;
    Ok(Some(Part::new(replica, epoch.clone()?, state, expr)))
}

fn shared_first(alloc: Global) -> Option<Arc<Epoch>> {
    let epoch = first(alloc, counter(alloc)?).ok()??;
    Arc::new(alloc, epoch).ok()
}

fn shared_second(alloc: Global) -> Option<Arc<Epoch>> {
    let plan = counter(alloc)?;
    let epoch = second(alloc, &plan)?;
    Arc::new(alloc, epoch).ok()
}

// Whether a part is that of replica 1, of this record, with the state 0 and an expression of depth 1.
fn tells_merged(part: &Part, epoch: &Epoch) -> bool {
    part.replica() == 1
        && part.epoch().is_same(epoch)
        && part.state().as_slice() == [0].as_slice()
        && part.expr().depth() == 1
}

fn is_merged(alloc: Global) -> Option<bool> {
    let epoch = shared_first(alloc)?;
    let part = merged(alloc, 1, &epoch).ok()??;
    Some(tells_merged(&part, &epoch))
}

fn told(alloc: Global) -> [bool; 3] {
    [
        is_first(alloc) == Some(true),
        is_merged(alloc) == Some(true),
        wrong_row(alloc, RECORDS, is_compared).is_none(),
    ]
}

// The first record of a plan; a part and its fields; records are compared by value.
#[test]
fn records_and_parts(rt: HostRuntime) {
    assert_eq!(rt; told(rt.alloc()), [true; 3]);
}

// The fresh parts of two replicas, each with its record.
fn two_fresh(
    alloc: Global,
    left: u32,
    right: u32,
    first: &Arc<Epoch>,
    other: &Arc<Epoch>,
) -> Result<Vec<Part>, AllocError> {
    let mut parts = Vec::new(alloc);
    parts.push(fresh(alloc, left, first)?)?;
    parts.push(fresh(alloc, right, other)?)?;
    Ok(parts)
}

// How many parts a change has, if they are its parts.
fn count_of(parts: Vec<Part>) -> Option<usize> {
    match Parts::new(parts) {
        Some(parts) => Some(parts.list().len()),
        None => None,
    }
}

// The same for two replicas of the first record.
fn count_of_one(alloc: Global, left: u32, right: u32) -> Option<Option<usize>> {
    let first = shared_first(alloc)?;
    Some(count_of(two_fresh(alloc, left, right, &first, &first).ok()?))
}

// The same where the second has another record.
fn count_of_two(alloc: Global, left: u32, right: u32) -> Option<Option<usize>> {
    let first = shared_first(alloc)?;
    let other = shared_second(alloc)?;
    Some(count_of(two_fresh(alloc, left, right, &first, &other).ok()?))
}

// How many parts there are of the replicas of two parts, where the second has the first's record, and where it has another; and of
// none.
fn counts(alloc: Global) -> [Option<Option<usize>>; 6] {
    [
        count_of_one(alloc, 0, 1),
        count_of_one(alloc, 1, 0),
        count_of_one(alloc, 0, 0),
        count_of_one(alloc, 0, 2),
        count_of_two(alloc, 0, 1),
        Some(count_of(Vec::new(alloc))),
    ]
}

#[test]
fn parts_of_a_change(rt: HostRuntime) {
    let want = [
        Some(Some(2)),
        Some(None),
        Some(None),
        Some(None),
        Some(None),
        Some(Some(0)),
    ];
    assert_eq!(rt; counts(rt.alloc()), want);
}

// A part goes to a thread, and a record is read there beside this thread.
fn crossed<R: Threads + Sync>(rt: &R, part: Part, epoch: &Epoch) -> (Part, u64) {
    thread::join(rt, move || part, || epoch.number())
}

// A record goes to a thread, and a part is read there beside this thread.
fn crossed_back<R: Threads + Sync>(rt: &R, epoch: Epoch, part: &Part) -> (Epoch, u32) {
    thread::join(rt, move || epoch, || part.replica())
}

// The part of replica 1 of the second record.
fn second_part(alloc: Global) -> Option<Part> {
    let shared = shared_second(alloc)?;
    merged(alloc, 1, &shared).ok()?
}

// The replica of a part and the number of a record, after the part went to a thread.
fn told_of_part<R: Threads + Sync>(rt: &R, alloc: Global) -> Option<(u32, u64)> {
    let epoch = shared_second(alloc)?;
    let (part, number) = crossed(rt, second_part(alloc)?, &epoch);
    Some((part.replica(), number))
}

// Whether a record is as before after it went to a thread, and the replica of the part beside it.
fn told_of_record<R: Threads + Sync>(rt: &R, alloc: Global) -> Option<(bool, u32)> {
    let shared = shared_second(alloc)?;
    let part = second_part(alloc)?;
    let (epoch, replica) = crossed_back(rt, second(alloc, shared.plan())?, &part);
    Some((epoch.is_same(&shared), replica))
}

fn crosses<R: Threads + Sync>(rt: &R, alloc: Global) -> [bool; 2] {
    [
        told_of_part(rt, alloc) == Some((1, 1)),
        told_of_record(rt, alloc) == Some((true, 1)),
    ]
}

#[test]
fn parts_and_records_cross_threads(rt: HostRuntime) {
    assert_eq!(rt; crosses(&rt, rt.alloc()), [true; 2]);
}
