//! The lines of faults.

ghost use Rattle.std.specs.Prelude.{◌≡◌, IfOk, List, ℕ, string_bytes};
ghost use Rattle.lucy_reading.specs.Lines as spec;
ghost use Rattle.lucy_reading.specs.Outcomes.{Tells};

use crate::refusal::Refusal;
use std::alloc::{AllocError, Global};

// A refusal with this line, if there was memory for it.
fn refusal(line: Result<String, AllocError>) -> Refusal
    ensures { (wanted : List ℕ) → IfOk line (λ text. string_bytes text ≡ wanted) → Tells wanted result }
{
    match line {
        Ok(text) => Refusal::Bad(text),
        Err(_) => Refusal::OutOfMemory,
    }
}

/// A fault at a byte of an input.
#[tactic(auto, unfolding(crate::specs::Lines::bad_byte))]
pub fn bad_byte(alloc: Global, name: &str, at: usize, what: &str) -> Refusal
    ensures { Tells (spec.bad_byte name.now at what.now) result }
{
    refusal(format!(in alloc; "bad {name} byte {at}: {what}\n"))
}

/// A fault in a line of an input.
#[tactic(auto, unfolding(crate::specs::Lines::bad_line))]
pub fn bad_line(alloc: Global, name: &str, at: u64, what: &str) -> Refusal
    ensures { Tells (spec.bad_line name.now at what.now) result }
{
    refusal(format!(in alloc; "bad {name} line {at}: {what}\n"))
}

/// A count or a size in an input, outside its limit.
#[tactic(auto, unfolding(crate::specs::Lines::bad_count))]
pub fn bad_count(alloc: Global, name: &str, count: u64, what: &str) -> Refusal
    ensures { Tells (spec.bad_count name.now count what.now) result }
{
    refusal(format!(in alloc; "bad {name} count {count}: {what}\n"))
}
