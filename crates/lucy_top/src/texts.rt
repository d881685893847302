ghost use Rattle.std.specs.Prelude.{◌≡◌, IfOk, string_bytes, List, ℕ};
ghost use Rattle.lucy_top.specs.Stops.{StopsWith};
ghost use Rattle.lucy_reading.specs.Outcomes.{Tells};
ghost use Rattle.lucy_report.specs.FaultLines as lines;

use crate::said::{Said, Stop};
use lucy_reading::Refusal;
use lucy_report::{bad_words, no_input, read_fault};
use std::alloc::{AllocError, Global};

// The end of a command with a text, if there was memory for it.
fn stop(status: u8, text: Result<String, AllocError>) -> Stop
    ensures { (wanted : List ℕ) → IfOk text (λ t. string_bytes t ≡ wanted) → StopsWith status wanted result }
{
    match text {
        Ok(text) => Stop::Ended(Said {
            status,
            text: text.into_bytes(),
        }),
        Err(_) => Stop::OutOfMemory,
    }
}

/// The end of a call whose words are in no form from this one on.
pub fn stop_at_words(alloc: Global, at: usize) -> Stop
    ensures { StopsWith 2 (lines.bad_words at) result }
{
    stop(2, bad_words(alloc, at))
}

/// The end of a command with this line, which refuses an input.
pub fn stop_with(line: String) -> Stop
    ensures { StopsWith 3 (string_bytes line) result }
{
    Stop::Ended(Said {
        status: 3,
        text: line.into_bytes(),
    })
}

/// The end of a command with an input that is refused.
pub fn stop_refused(refusal: Refusal) -> Stop
    ensures { (wanted : List ℕ) → Tells wanted refusal → StopsWith 3 wanted result }
{
    match refusal {
        Refusal::Bad(line) => stop_with(line),
        Refusal::OutOfMemory => Stop::OutOfMemory,
    }
}

/// The end of a command with an input that is not there.
pub fn stop_absent(alloc: Global, name: &str) -> Stop
    ensures { StopsWith 4 (lines.no_input name.now) result }
{
    stop(4, no_input(alloc, name))
}

/// The end of a command with an input that could not be read.
pub fn stop_failed(alloc: Global, name: &str) -> Stop
    ensures { StopsWith 5 (lines.read_fault name.now) result }
{
    stop(5, read_fault(alloc, name))
}
