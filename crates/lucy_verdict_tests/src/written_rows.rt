//! What is written as a certificate of a plan that only a rounded sum can show sound, and that it is accepted.

use crate::making::{shared_plan, told};
use lucy_cert::write;
use lucy_findings::{certificate, examine, is_sound};
use lucy_plan::Plan;
use lucy_stream::verify;
use std::alloc::Global;

// Of two numbers the sum and the difference are never `2*z` and `2*w + 1` at once: both are even or both odd.
const PARITY: &str =
    "lucy 1 object { max x in -1000000000000..1000000000000; max y in -1000000000000..1000000000000; max z in -1000000000000..1000000000000; max w in -1000000000000..1000000000000; } start { } invariant not (x + y = 2*z and x - y = 2*w + 1); txn up() { when true { x := x + 1; } } segment main when true do up; end";

// The text of the certificate that is found for a plan.
fn written(alloc: Global, plan: &Plan) -> Option<Vec<u8>> {
    let findings = examine(alloc, plan).ok()?;
    if !is_sound(&findings) {
        return None;
    }
    let certificate = certificate(alloc, plan, &findings).ok()?;
    write(alloc, &certificate).ok()
}

// How many steps other than drops the first part has, and how many of its lines divide.
fn counted(text: &str) -> Option<(u32, u32)> {
    let (part, _) = text.split_once("part cover\n")?;
    let mut steps = 0u32;
    let mut dividing = 0u32;
    for line in part.lines() {
        if line.starts_with("lemma") || line.starts_with("rup") {
            steps = steps.saturating_add(1);
        }
        if line.starts_with("/ ") {
            dividing = dividing.saturating_add(1);
        }
    }
    Some((steps, dividing))
}

// Whether a certificate with few steps is written, among them one that divides, and whether it is accepted.
fn facts(alloc: Global) -> Option<[bool; 3]> {
    let plan = shared_plan(alloc, PARITY)?;
    let text = written(alloc, &plan)?;
    let (steps, dividing) = counted(str::from_utf8(&text).ok()?)?;
    let answer = told(alloc, verify(alloc, plan, &text))?;
    Some([steps <= 40, dividing >= 1, answer.as_str() == "accepted"])
}

#[test]
fn a_rounded_certificate_is_accepted(rt: HostRuntime) {
    assert_eq!(rt; facts(rt.alloc()), Some([true; 3]));
}
