use crate::lives::{checked, life};
use lucy_judge::Checked;
use lucy_replica::{Life, Packet, Received, Submitted};
use std::alloc::Global;
use std::thread;
use std::thread::Threads;

// A replica goes to a thread and comes back, while its plan is read beside.
fn crossed<R: Threads + Sync>(rt: &R, life: Life, checked: &Checked) -> (Life, u32) {
    thread::join(rt, move || life, || checked.plan().parts().depth)
}

// What a replica tells after it went to a thread: the limit of depth, whether its first call is done, its leaf then, and
// whether its next call is broken.
fn told<R: Threads + Sync>(rt: &R, alloc: Global) -> Option<(u32, [bool; 3])> {
    let checked = checked(alloc, 10, 1024)?;
    let life = life(alloc, &checked, 1, "7 4")?;
    let (mut life, depth) = crossed(rt, life, &checked);
    Some((depth, goes_on(alloc, &mut life)))
}

fn goes_on(alloc: Global, life: &mut Life) -> [bool; 3] {
    [
        matches!(life.submit(alloc), Ok(Submitted::Done(_))),
        life.state().as_slice().first() == Some(&7),
        life.submit(alloc).ok() == Some(Submitted::Broken),
    ]
}

// A packet goes to a thread and comes back, while the plan is read beside.
fn sent<R: Threads + Sync>(rt: &R, packet: Packet, checked: &Checked) -> (Packet, u32) {
    thread::join(rt, move || packet, || checked.plan().parts().depth)
}

// What comes of a packet that went to a thread: the limit of depth, whether another replica takes it over, and its leaf then.
fn delivered<R: Threads + Sync>(rt: &R, alloc: Global) -> Option<(u32, [bool; 2])> {
    let checked = checked(alloc, 10, 1024)?;
    let mut from = life(alloc, &checked, 1, "7")?;
    let mut to = life(alloc, &checked, 0, "1")?;
    from.submit(alloc).ok()?;
    let (packet, depth) = sent(rt, from.publish().ok()?, &checked);
    Some((depth, is_taken(alloc, &mut to, &packet)))
}

fn is_taken(alloc: Global, to: &mut Life, packet: &Packet) -> [bool; 2] {
    [
        to.receive(alloc, packet).ok() == Some(Received::Merged),
        to.state().as_slice().first() == Some(&7),
    ]
}

#[test]
fn packets_cross_threads(rt: HostRuntime) {
    assert_eq!(rt; delivered(&rt, rt.alloc()), Some((1024, [true, true])));
}

#[test]
fn replicas_cross_threads(rt: HostRuntime) {
    assert_eq!(rt; told(&rt, rt.alloc()), Some((1024, [true, true, true])));
}
