use crate::parts::{LEAST, MOST, Places, Sizes, parts, places_of};
use lucy_plan::{Plan, PlanError, What};
use std::alloc::Global;

// Sizes and places without fault but for those from this one on, in the order in which they are told.
fn sizes_from(fault: u32) -> Sizes {
    Sizes {
        leaves: if fault == 0 { 65 } else { 4 },
        factor: if fault <= 1 { 1_000_001 } else { 1 },
        constant: if fault <= 2 { -(1 << 62) - 1 } else { 0 },
        nodes: if fault <= 3 { 4096 } else { 0 },
        txns: if fault <= 4 { 65 } else { 1 },
        params: if fault <= 5 { 5 } else { 1 },
        segments: if fault <= 6 { 17 } else { 1 },
        points: if fault <= 7 { 257 } else { 1 },
        depth: if fault <= 8 { 15 } else { 16 },
    }
}

fn places_from(fault: u32) -> Places {
    Places {
        start: if fault <= 9 { 10 } else { 0 },
        numbers: if fault <= 10 { 5 } else { 4 },
        leaf: if fault <= 11 { 7 } else { 0 },
        second: if fault <= 12 { 2 } else { 3 },
        again: if fault <= 13 { 3 } else { 0 },
        point: if fault <= 14 { -1 } else { 0 },
    }
}

fn limit(what: What, count: u64) -> PlanError {
    PlanError::Limit { what, count }
}

// The first fault of those from this one on.
fn wanted(fault: u32) -> PlanError {
    match fault {
        0 => limit(What::Leaves, 65),
        1 => limit(What::Coefficient, 1_000_001),
        2 => limit(What::Constant, (1 << 62) + 1),
        3 => limit(What::Conditions, 2 + 4096 + 65 + 17),
        4 => limit(What::Transactions, 65),
        5 => limit(What::Arguments, 5),
        6 => limit(What::Segments, 17),
        7 => limit(What::Points, 257),
        8 => limit(What::Depth, 15),
        9 => PlanError::BadStart { leaf: 1 },
        10 => PlanError::BadStart { leaf: 4 },
        11 => PlanError::BadIndex { index: 7 },
        12 => PlanError::BadIndex { index: 2 },
        13 => PlanError::BadIndex { index: 3 },
        _ => PlanError::BadIndex { index: 0 },
    }
}

// Whether parts are refused so.
fn is_refused(alloc: Global, sizes: Sizes, places: Places, want: PlanError) -> Option<bool> {
    let parts = parts(alloc, sizes, places)?;
    Some(Plan::new(parts).err() == Some(want))
}

fn wrong_fault(alloc: Global) -> Option<u32> {
    for fault in 0..15 {
        let told = is_refused(alloc, sizes_from(fault), places_from(fault), wanted(fault));
        if told != Some(true) {
            return Some(fault);
        }
    }
    None
}

// With all faults from each one on, that one is told.
#[test]
fn the_first_fault_is_told(rt: HostRuntime) {
    assert_eq!(rt; wrong_fault(rt.alloc()), None);
}

fn is_taken(alloc: Global, sizes: Sizes) -> Option<bool> {
    let parts = parts(alloc, sizes, places_of(sizes))?;
    Some(Plan::new(parts).is_ok())
}

fn fewer(leaves: usize, segments: usize, depth: u32) -> Sizes {
    let mut sizes = LEAST;
    sizes.leaves = leaves;
    sizes.segments = segments;
    sizes.depth = depth;
    sizes
}

fn is_refused_for(alloc: Global, sizes: Sizes, want: PlanError) -> Option<bool> {
    is_refused(alloc, sizes, places_of(sizes), want)
}

// The greatest and the least of each size are a plan's; past the limits on the other side parts are refused.
fn told(alloc: Global) -> [Option<bool>; 5] {
    [
        is_taken(alloc, MOST),
        is_taken(alloc, LEAST),
        is_refused_for(alloc, fewer(0, 0, 0), limit(What::Leaves, 0)),
        is_refused_for(alloc, fewer(4, 0, 0), limit(What::Segments, 0)),
        is_refused_for(alloc, fewer(4, 1, 2049), limit(What::Depth, 2049)),
    ]
}

#[test]
fn limits_are_kept(rt: HostRuntime) {
    assert_eq!(rt; told(rt.alloc()), [Some(true); 5]);
}
