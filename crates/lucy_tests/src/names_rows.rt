use crate::making::plan_of;
use crate::parts::{LEAST, Sizes, parts, places_of};
use lucy_names::Names;
use lucy_plan::Plan;
use std::alloc::Global;

// Whether each of these names is put.
fn added(alloc: Global, names: &mut Names) -> [Option<bool>; 6] {
    [
        names.add_txn(alloc, "add").ok(),
        names.add_txn(alloc, "two").ok(),
        names.add_txn(alloc, "add").ok(),
        names.add_txn(alloc, "").ok(),
        names.add_segment(alloc, "add").ok(),
        names.add_segment(alloc, "add").ok(),
    ]
}

// The places of these names, by their texts and by their bytes.
fn found(names: &Names) -> [Option<u32>; 9] {
    [
        names.find_txn("add"),
        names.find_txn("two"),
        names.find_txn(""),
        names.find_txn("ad"),
        names.find_txn_bytes(b"add"),
        names.find_txn_bytes(b"two"),
        names.find_txn_bytes(b""),
        names.find_txn_bytes(b"ad"),
        names.find_txn_bytes(b"\xff"),
    ]
}

fn are_added(alloc: Global, names: &mut Names) -> bool {
    let want = [
        Some(true),
        Some(true),
        Some(false),
        Some(true),
        Some(true),
        Some(false),
    ];
    added(alloc, names) == want
}

fn are_found(names: &Names) -> bool {
    let want = [
        Some(0),
        Some(1),
        Some(2),
        None,
        Some(0),
        Some(1),
        Some(2),
        None,
        None,
    ];
    found(names) == want
}

fn are_kept(alloc: Global) -> [bool; 2] {
    let mut names = Names::new(alloc);
    [are_added(alloc, &mut names), are_found(&names)]
}

#[test]
fn names_by_hand(rt: HostRuntime) {
    assert_eq!(rt; are_kept(rt.alloc()), [true; 2]);
}

const PLAN: &str =
    "lucy 1 object { max x in 0..10; } start { } invariant true; txn add(n in 0..10) { } txn two(n in -5..5, m in 0..1099511627776) { } txn close() { } segment low when true do; segment high when true do; end";

// The place of the transaction `two` among the names of the plan.
fn place_of_two(alloc: Global) -> Option<u32> {
    let plan = plan_of(alloc, PLAN)?;
    let names = Names::of_plan(alloc, &plan).ok();
    drop(plan);
    names??.find_txn("two")
}

// Whether a plan has names that has so many transactions of one name, and so many segments of one name.
fn has_names(alloc: Global, txns: usize, segments: usize) -> Option<bool> {
    let sizes = Sizes {
        txns,
        segments,
        ..LEAST
    };
    let plan = Plan::new(parts(alloc, sizes, places_of(sizes))?).ok()?;
    let names = Names::of_plan(alloc, &plan).ok();
    drop(plan);
    Some(names?.is_some())
}

fn told(alloc: Global) -> [bool; 4] {
    [
        place_of_two(alloc) == Some(1),
        has_names(alloc, 1, 1) == Some(true),
        has_names(alloc, 2, 1) == Some(false),
        has_names(alloc, 1, 2) == Some(false),
    ]
}

#[test]
fn names_come_from_the_plan(rt: HostRuntime) {
    assert_eq!(rt; told(rt.alloc()), [true; 4]);
}
