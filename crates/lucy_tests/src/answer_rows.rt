//! One call of `answer`, over inputs and a sink in memory, and over sinks that fail. All other rows of it stand in lucy_rows.

use lucy_io::{MemoryInputs, MemorySink, MemorySource};
use lucy_top::answer;
use std::alloc::{AllocError, Global};
use std::test::Fail;

const PLAN: &str =
    "lucy 1 object { max x in 0..10; } start { } invariant true; txn add(n in 0..10) { when true { x := x + n; } } segment main when true do add; end\n";

const WORK: &str = "work 1\nreplicas 2\n0 add 10\n0 add 1\nend\n";

const STEPS: &str = "steps 1\nsubmit 0\nsubmit 0\nsubmit 0\nend\n";

const AFTER: &str = "submit 0: done 0.0 (10)\nsubmit 0: broken (10)\nsubmit 0: ended (10)\n\
epoch 0 segment main opening (0)\n\
replica 0 epoch 0 state (10) done 1 broken 1 moved 0 refused 0\n\
replica 1 epoch 0 state (0) done 0 broken 0 moved 0 refused 0\n\
end\n";

const BELOW: &str =
    "lucy 1 object { max x in 0..10; max y in 0..10; } start { } invariant x <= y; txn up() { when true { y := y + 1; } } segment main when true do up; end";

// A certificate of the plan `BELOW`: the merge's first number is above neither that of the first state nor that of the second.
const CERTIFICATE: &str = "lucy certificate 1\npart closure 0\n\
lemma 1*0 -1*4 <= -1, -1*0 1*1 <= -1, -1*1 1*5 <= -1, 1*4 -1*5 <= 0\n\
+ 1 n0 1 n1 1 n2 1 n3\nqed\n\
lemma 1*2 -1*4 <= -1, -1*2 1*3 <= -1, -1*3 1*5 <= -1, 1*4 -1*5 <= 0\n\
+ 1 n0 1 n1 1 n2 1 n3\nqed\n\
rup by 0 5 8 9 1 6 10 4\npart cover\nend\n";

const ACCEPTED: &str = "accepted\n";

fn words(alloc: Global, text: &str) -> Result<Vec<String>, AllocError> {
    let mut words = Vec::new(alloc);
    for word in text.split(' ') {
        words.push(String::from_str(alloc, word)?)?;
    }
    Ok(words)
}

fn inputs(alloc: Global) -> Result<MemoryInputs, AllocError> {
    let mut pairs = Vec::new(alloc);
    for (name, text) in [
        ("p", PLAN),
        ("w", WORK),
        ("s", STEPS),
        ("b", BELOW),
        ("c", CERTIFICATE),
    ] {
        pairs.push((
            String::from_str(alloc, name)?,
            Vec::from_slice(alloc, text.as_bytes())?,
        ))?;
    }
    Ok(MemoryInputs::new(alloc, pairs, Vec::new(alloc)))
}

// The status of a call on these words.
fn asked(alloc: Global, text: &str, sink: &mut MemorySink) -> Result<u8, AllocError> {
    let mut inputs = inputs(alloc)?;
    let mut source = MemorySource::new(Vec::new(alloc), 1, Vec::new(alloc));
    let words = words(alloc, text)?;
    Ok(answer(alloc, &words, &mut inputs, &mut source, sink).status)
}

// The status of a replay.
fn run(alloc: Global, sink: &mut MemorySink) -> Result<u8, AllocError> {
    asked(alloc, "replay p - w s", sink)
}

#[test]
fn replays(rt: HostRuntime) -> Result<(), Fail> {
    let alloc = rt.alloc();
    let mut sink = MemorySink::new(alloc, 4096, 4096, Vec::new(alloc))?;
    assert_eq!(rt; run(alloc, &mut sink)?, 0);
    assert_eq!(rt; sink.bytes(), AFTER.as_bytes());
    Ok(())
}

// A sink that takes one byte a call and fails at each call in turn: the status is 6, and what it holds is the front of the text.
#[test]
fn writes_that_fail(rt: HostRuntime) -> Result<(), Fail> {
    let alloc = rt.alloc();
    for at in 0..AFTER.len() {
        let mut sink = MemorySink::new(alloc, 4096, 1, Vec::from_slice(alloc, &[at as u64])?)?;
        assert_eq!(rt; run(alloc, &mut sink)?, 6);
        assert_eq!(rt; sink.bytes(), &AFTER.as_bytes()[..at]);
    }
    Ok(())
}

// The same where a certificate is accepted.
#[test]
fn verdicts_that_fail(rt: HostRuntime) -> Result<(), Fail> {
    let alloc = rt.alloc();
    for at in 0..ACCEPTED.len() {
        let mut sink = MemorySink::new(alloc, 16, 1, Vec::from_slice(alloc, &[at as u64])?)?;
        assert_eq!(rt; asked(alloc, "verify b c", &mut sink)?, 6);
        assert_eq!(rt; sink.bytes(), &ACCEPTED.as_bytes()[..at]);
    }
    Ok(())
}

// A sink that takes four bytes a call and fails at its second.
#[test]
fn a_verdict_is_cut(rt: HostRuntime) -> Result<(), Fail> {
    let alloc = rt.alloc();
    let mut sink = MemorySink::new(alloc, 16, 4, Vec::from_slice(alloc, &[1])?)?;
    assert_eq!(rt; asked(alloc, "verify b c", &mut sink)?, 6);
    assert_eq!(rt; sink.bytes(), b"acce".as_slice());
    Ok(())
}

// What is written as a certificate is accepted.
#[test]
fn certificates_are_accepted(rt: HostRuntime) -> Result<(), Fail> {
    let alloc = rt.alloc();
    let mut written = MemorySink::new(alloc, 65536, 4096, Vec::new(alloc))?;
    assert_eq!(rt; asked(alloc, "certify b", &mut written)?, 0);
    let mut pairs = Vec::new(alloc);
    pairs.push((
        String::from_str(alloc, "b")?,
        Vec::from_slice(alloc, BELOW.as_bytes())?,
    ))?;
    pairs.push((
        String::from_str(alloc, "c")?,
        Vec::from_slice(alloc, written.bytes())?,
    ))?;
    let mut inputs = MemoryInputs::new(alloc, pairs, Vec::new(alloc));
    let mut source = MemorySource::new(Vec::new(alloc), 1, Vec::new(alloc));
    let mut sink = MemorySink::new(alloc, 16, 16, Vec::new(alloc))?;
    let words = words(alloc, "verify b c")?;
    assert_eq!(rt;
        answer(alloc, &words, &mut inputs, &mut source, &mut sink).status,
        0
    );
    assert_eq!(rt; sink.bytes(), ACCEPTED.as_bytes());
    Ok(())
}
