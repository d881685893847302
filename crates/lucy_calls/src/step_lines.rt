//! The lines of a step script.

ghost use Rattle.std.specs.Prelude.{◌≡◌, [], map, IfOk};
ghost use Rattle.lucy_calls.specs.Lines.{up_to_end};
ghost use Rattle.lucy_calls.specs.NextLines.{left};
ghost use Rattle.lucy_io.specs.Outcomes.{Answers};
ghost use Rattle.lucy_calls.specs.declared.error.CallsError.TheVariants.{OutOfMemory};
ghost use Rattle.lucy_calls.specs.Steps as spec;

use crate::error::CallsError;
use crate::fields::{is_word, read_fields, read_heading};
use crate::lines::{Line, Lines, within_bytes};
use crate::numbers::{below, read_number, read_number_behind};
use crate::steps::Step;
use std::alloc::Global;

/// The greatest length of a step script, in bytes.
const MOST_BYTES: u32 = 1 << 20;

/// What a step with one replica does.
#[derive(Clone, Copy, Debug, PartialEq, Eq)]
pub enum Act {
    Submit,
    Send,
    Begin,
    Freeze,
    Thaw,
}

fn act_of(word: &[u8]) -> Option<Act>
    ensures { result ≡ spec.act_of word.now }
{
    if is_word(word, b"submit") {
        Some(Act::Submit)
    } else if is_word(word, b"send") {
        Some(Act::Send)
    } else if is_word(word, b"begin") {
        Some(Act::Begin)
    } else if is_word(word, b"freeze") {
        Some(Act::Freeze)
    } else if is_word(word, b"thaw") {
        Some(Act::Thaw)
    } else {
        None
    }
}

fn step_by(act: Act, replica: u32) -> Step
    ensures { result ≡ spec.step_by act replica }
{
    match act {
        Act::Submit => Step::Submit(replica),
        Act::Send => Step::Send(replica),
        Act::Begin => Step::Begin(replica),
        Act::Freeze => Step::Freeze(replica),
        Act::Thaw => Step::Thaw(replica),
    }
}

#[tactic(auto, unfolding(crate::specs::Steps::alone))]
fn read_alone(line: u64, word: &[u8]) -> Result<Step, CallsError>
    ensures { result ≡ spec.alone line word.now }
{
    if is_word(word, b"open") {
        Ok(Step::OpenEpoch)
    } else {
        Err(CallsError::BadLine(line))
    }
}

fn read_act(line: u64, word: &[u8]) -> Result<Act, CallsError>
    ensures { result ≡ spec.act_in line word.now }
{
    match act_of(word) {
        Some(act) => Ok(act),
        None => Err(CallsError::BadLine(line)),
    }
}

#[tactic(auto, unfolding(crate::specs::Steps::of_replica))]
fn read_of_replica(replicas: u32, line: u64, word: &[u8], digits: &[u8]) -> Result<Step, CallsError>
    ensures { result ≡ spec.of_replica replicas line word.now digits.now }
{
    let act = read_act(line, word)?;
    let number = read_number(line, digits)?;
    let replica = below(replicas, line, number)?;
    Ok(step_by(act, replica))
}

#[tactic(auto, unfolding(crate::specs::Steps::packet_of))]
fn read_packet(line: u64, digits: &[u8]) -> Result<u64, CallsError>
    ensures { result ≡ spec.packet_of line digits.now }
{
    let packet = read_number(line, digits)?;
    if packet <= u128::from(u64::MAX) {
        Ok(packet as u64)
    } else {
        Err(CallsError::BadLine(line))
    }
}

#[tactic(auto, unfolding(crate::specs::Steps::delivery))]
fn read_delivery(
    replicas: u32,
    line: u64,
    word: &[u8],
    digits: &[u8],
    packet_digits: &[u8],
) -> Result<Step, CallsError>
    ensures { result ≡ spec.delivery replicas line word.now digits.now packet_digits.now }
{
    let number = read_number_behind(b"deliver", line, word, digits)?;
    let packet = read_packet(line, packet_digits)?;
    let to = below(replicas, line, number)?;
    Ok(Step::Deliver { to, packet })
}

#[tactic(auto, unfolding(crate::specs::Steps::step_of))]
fn read_step(replicas: u32, line: u64, fields: &[&[u8]]) -> Result<Step, CallsError>
    ensures { result ≡ spec.step_of replicas line (map (λ f. f.now) fields.now) }
{
    match fields {
        [word] => read_alone(line, word),
        [word, digits] => read_of_replica(replicas, line, word, digits),
        [word, digits, packet] => read_delivery(replicas, line, word, digits, packet),
        _ => Err(CallsError::BadLine(line)),
    }
}

// Puts a line's step behind the others.
#[tactic(auto, unfolding(crate::specs::Steps::with_step))]
fn add_step(
    alloc: Global,
    replicas: u32,
    line: Line<'_>,
    steps: &mut Vec<Step>,
) -> Result<(), CallsError>
    ensures { Answers OutOfMemory (λ _. steps.new.items) (spec.with_step replicas line.entry.number line.entry.bytes.now steps.old.items) result }
{
    let fields = read_fields(alloc, line)?;
    let step = read_step(replicas, line.number, fields.as_slice())?;
    steps.push(step)?;
    Ok(())
}

#[tactic(auto, unfolding(crate::specs::Lines::up_to_end))]
fn read_up_to_end(alloc: Global, replicas: u32, lines: Lines<'_>) -> Result<Vec<Step>, CallsError>
    ensures { Answers OutOfMemory (λ v. v.items) (up_to_end (spec.with_step replicas) [] (left lines.entry)) result }
{
    let mut steps = Vec::new(alloc);
    let mut rest = lines;
    loop {
        let (line, after) = rest.next_line()?;
        if is_word(line.bytes, b"end") {
            after.ended()?;
            return Ok(steps);
        }
        add_step(alloc, replicas, line, &mut steps)?;
        rest = after;
    }
}

#[tactic(auto, unfolding(crate::specs::Steps::script_of))]
fn read_script(alloc: Global, replicas: u32, text: &[u8]) -> Result<Vec<Step>, CallsError>
    ensures { Answers OutOfMemory (λ v. v.items) (spec.script_of replicas text.now) result }
{
    let (line, rest) = Lines::new(text).next_line()?;
    read_heading(alloc, b"steps", line)?;
    read_up_to_end(alloc, replicas, rest)
}

/// The steps of a script for so many replicas: the line `steps 1`, a line for each step, the line
/// `end`.
///
/// Errors: `Limit` where the text has more than 2^20 bytes; else `BadLine` or `BadReplica` at the
/// first line at fault; `OutOfMemory`.
#[tactic(auto, unfolding(crate::specs::Steps::steps_of))]
pub fn read_steps(alloc: Global, replicas: u32, text: &[u8]) -> Result<Vec<Step>, CallsError>
    ensures { Answers OutOfMemory (λ v. v.items) (spec.steps_of replicas text.now) result }
{
    within_bytes(MOST_BYTES, text)?;
    read_script(alloc, replicas, text)
}
