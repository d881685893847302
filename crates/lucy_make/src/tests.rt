//! Made inputs with the values that an independent program gives.
use crate::{Drill, drill_text, make_plan, make_steps, make_work};
use lucy_calls::{Work, read_steps, write_steps};
use lucy_model::{Condition, Kind, Leaf, State};
use lucy_plan::{Limits, Name, Plan, PlanParts, Segment, Txn};
use sqlite_items::Items;
use std::alloc::{AllocError, Global};

const PLAN: &str = "lucy 1
object {
max x0 in 0 .. 23 ;
max x1 in 0 .. 48 ;
max x2 in 0 .. 83 ;
orflag f ;
}
start {
}
invariant x0 <= x1 + 0 and x1 <= x2 + 0 ;
txn add0 ( n in 0 .. 9 ) {
when true {
x0 := x0 + n ;
}
}
txn add1 ( n in 0 .. 9 ) {
when true {
x1 := x1 + n ;
}
}
txn add2 ( n in 0 .. 9 ) {
when true {
x2 := x2 + n ;
}
}
txn flip ( ) {
when true {
f := on ;
}
}
segment low when not f do add0 add1 add2 ;
segment high when f do add0 add1 add2 ;
end
";

const SMALLEST: &str = "lucy 1
object {
max x0 in 0 .. 81 ;
orflag f ;
}
start {
}
invariant true ;
txn add0 ( n in 0 .. 9 ) {
when true {
x0 := x0 + n ;
}
}
txn flip ( ) {
when true {
f := on ;
}
}
segment low when not f do add0 ;
segment high when f do add0 ;
end
";

const STEPS: &str = "steps 1
submit 0
send 0
send 1
submit 1
begin 1
submit 1
freeze 0
submit 1
freeze 1
open
thaw 0
thaw 1
submit 0
submit 0
begin 0
submit 0
freeze 0
submit 1
freeze 1
open
thaw 0
thaw 1
submit 0
submit 1
send 0
deliver 0 1
deliver 1 2
submit 0
end
";

#[test]
fn a_plan_is_made(rt: HostRuntime) -> Result<(), AllocError> {
    let text = make_plan(rt.alloc(), 7, 3)?;
    assert_eq!(rt; text.as_slice(), PLAN.as_bytes());
    Ok(())
}

#[test]
fn a_plan_of_one_number_is_made(rt: HostRuntime) -> Result<(), AllocError> {
    let text = make_plan(rt.alloc(), 0, 1)?;
    assert_eq!(rt; text.as_slice(), SMALLEST.as_bytes());
    Ok(())
}

#[test]
fn steps_are_made(rt: HostRuntime) -> Result<(), AllocError> {
    let steps = make_steps(rt.alloc(), 2, 7, 12)?;
    let text = write_steps(rt.alloc(), steps.as_slice())?;
    assert_eq!(rt; text.as_slice(), STEPS.as_bytes());
    Ok(())
}

// Whether made steps are read back as they were written.
fn are_read_back(alloc: Global) -> Option<bool> {
    let steps = make_steps(alloc, 4, 7, 200).ok()?;
    let text = write_steps(alloc, steps.as_slice()).ok()?;
    let back = read_steps(alloc, 4, text.as_slice()).ok()?;
    Some(steps.as_slice() == back.as_slice() && steps.len() == 620)
}

#[test]
fn made_steps_are_read_back(rt: HostRuntime) {
    assert_eq!(rt; are_read_back(rt.alloc()), Some(true));
}

// A transaction that changes nothing.
fn txn(alloc: Global, params: &[Limits]) -> Result<Txn, AllocError> {
    let name = Name::new(alloc, "t")?;
    let params = Items::from_slice(alloc, params)?;
    Ok(Txn {
        name,
        params,
        branches: Items::new(alloc),
    })
}

// Transactions with one argument, with two, and with none.
fn txns(alloc: Global) -> Option<Items<Txn>> {
    let digit = Limits::new(0, 9)?;
    let small = Limits::new(-5, 5)?;
    let wide = Limits::new(-(1 << 40), 1 << 40)?;
    let mut txns = Items::new(alloc);
    txns.push(txn(alloc, &[digit]).ok()?).ok()?;
    txns.push(txn(alloc, &[small, wide]).ok()?).ok()?;
    txns.push(txn(alloc, &[]).ok()?).ok()?;
    Some(txns)
}

fn segments(alloc: Global) -> Result<Items<Segment>, AllocError> {
    let name = Name::new(alloc, "s")?;
    let txns = Items::from_slice(alloc, &[0, 1, 2])?;
    let mut segments = Items::new(alloc);
    segments.push(Segment {
        name,
        condition: Condition::True,
        excepts: Items::new(alloc),
        txns,
    })?;
    Ok(segments)
}

fn plan(alloc: Global) -> Option<Plan> {
    let txns = txns(alloc)?;
    let segments = segments(alloc).ok()?;
    let object = Items::from_slice(alloc, &[Leaf::new(Kind::Max, 0, 9)?]).ok()?;
    let start = State::new(alloc, &[0]).ok()?;
    Plan::new(PlanParts {
        object,
        start,
        invariant: Condition::True,
        txns,
        segments,
        depth: 16,
    })
    .ok()
}

// The transaction of each call, and its arguments.
fn numbers_of(alloc: Global, work: &Work) -> Result<Vec<i64>, AllocError> {
    let mut numbers = Vec::new(alloc);
    for list in work.lists.as_slice() {
        for call in list.as_slice() {
            numbers.push(i64::from(call.txn))?;
            numbers.extend_from_slice(call.arguments.as_slice())?;
        }
    }
    Ok(numbers)
}

fn work_is(alloc: Global, wanted: &[i64]) -> Option<bool> {
    let plan = plan(alloc)?;
    let work = make_work(alloc, &plan, 9, 2, 4).ok()?;
    let numbers = numbers_of(alloc, &work).ok()?;
    Some(work.lists.len() == 2 && numbers.as_slice() == wanted)
}

#[test]
fn work_is_made(rt: HostRuntime) {
    let wanted = [
        1,
        0,
        -1_098_999_505_922,
        2,
        2,
        2,
        1,
        4,
        -1_096_391_799_273,
        2,
        0,
        4,
        0,
        3,
    ];
    assert_eq!(rt; work_is(rt.alloc(), &wanted), Some(true));
}

#[test]
fn a_drill_has_four_lines(rt: HostRuntime) -> Result<(), AllocError> {
    let text = drill_text(
        rt.alloc(),
        &Drill {
            seed: 7,
            size: 3,
            leaves: 4,
            steps: 620,
            done: 1,
            broken: 2,
            moved: 3,
            refused: 4,
            epochs: 5,
        },
    )?;
    let wanted =
        "drill 7 3\nleaves 4 calls 200 steps 620\ndone 1 broken 2 moved 3 refused 4 epochs 5\nend\n";
    assert_eq!(rt; text.as_slice(), wanted.as_bytes());
    Ok(())
}
