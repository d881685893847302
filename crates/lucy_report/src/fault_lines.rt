//! The lines that say why a call ended.

ghost use Rattle.std.specs.Prelude.{◌≡◌, IfOk, string_bytes};
ghost use Rattle.lucy_report.specs.FaultLines as spec;

use std::alloc::{AllocError, Global};

/// The words are in no form from this one on, counted from 0.
#[tactic(auto, unfolding(crate::specs::FaultLines::bad_words))]
pub fn bad_words(alloc: Global, at: usize) -> Result<String, AllocError>
    ensures { IfOk result (λ text. string_bytes text ≡ spec.bad_words at) }
{
    let text = format!(in alloc; "bad words at {at}\n")?;
    Ok(text)
}

/// There is no input of this name.
#[tactic(auto, unfolding(crate::specs::FaultLines::no_input))]
pub fn no_input(alloc: Global, name: &str) -> Result<String, AllocError>
    ensures { IfOk result (λ text. string_bytes text ≡ spec.no_input name.now) }
{
    let text = format!(in alloc; "no input {name}\n")?;
    Ok(text)
}

/// The input of this name could not be read.
#[tactic(auto, unfolding(crate::specs::FaultLines::read_fault))]
pub fn read_fault(alloc: Global, name: &str) -> Result<String, AllocError>
    ensures { IfOk result (λ text. string_bytes text ≡ spec.read_fault name.now) }
{
    let text = format!(in alloc; "read fault {name}\n")?;
    Ok(text)
}

/// What stands on standard input could not be read.
#[tactic(auto, unfolding(crate::specs::FaultLines::source_fault))]
pub fn source_fault(alloc: Global) -> Result<String, AllocError>
    ensures { IfOk result (λ text. string_bytes text ≡ spec.source_fault) }
{
    let text = String::from_str(alloc, "read fault\n")?;
    Ok(text)
}

/// The text of this name is no certificate: none goes on up to this line, counted from 1.
#[tactic(auto, unfolding(crate::specs::FaultLines::bad_certificate))]
pub fn bad_certificate(alloc: Global, name: &str, at: u64) -> Result<String, AllocError>
    ensures { IfOk result (λ text. string_bytes text ≡ spec.bad_certificate name.now at) }
{
    let text = format!(in alloc; "bad {name} line {at}: certificate\n")?;
    Ok(text)
}

/// What stands on standard input passes a limit of bytes, which is one less than this count.
#[tactic(auto, unfolding(crate::specs::FaultLines::long_input))]
pub fn long_input(alloc: Global, count: u64) -> Result<String, AllocError>
    ensures { IfOk result (λ text. string_bytes text ≡ spec.long_input count) }
{
    let text = format!(in alloc; "bad input count {count}: bytes\n")?;
    Ok(text)
}
