//! The summary of a drill.

ghost use Rattle.std.specs.Prelude.{◌≡◌, ◌++◌, OnOk, IfOk};
ghost use Rattle.lucy_make.specs.Drills as spec;

use lucy_io::{write_count, write_text};
use std::alloc::{AllocError, Global};

/// How many replicas a drill has.
pub const DRILL_REPLICAS: u32 = 4;

/// How many calls each of them has.
pub const DRILL_CALLS: u32 = 50;

/// How many rounds of steps a drill has.
pub const DRILL_ROUNDS: u32 = 200;

/// What a drill counts.
#[derive(Clone, Copy, Debug)]
pub struct Drill {
    /// The seed of all that is made.
    pub seed: u64,
    /// The size of the plan.
    pub size: u32,
    /// The leaves of the plan's object.
    pub leaves: u64,
    /// The made steps.
    pub steps: u64,
    /// The calls that were accepted, over all replicas.
    pub done: u64,
    /// Those whose result breaks the invariant.
    pub broken: u64,
    /// Those that opened an epoch.
    pub moved: u64,
    /// Those that a change refused.
    pub refused: u64,
    /// The records of epochs.
    pub epochs: u64,
}

// The line of what is asked for.
fn write_asked(out: &mut Vec<u8>, drill: &Drill) -> Result<(), AllocError>
    ensures { OnOk result (out.new.items ≡ out.old.items ++ spec.asked_line drill.now) }
{
    write_text(out, "drill ")?;
    write_count(out, drill.seed)?;
    write_text(out, " ")?;
    write_count(out, u64::from(drill.size))?;
    write_text(out, "\n")
}

// The line of what was made.
fn write_made(out: &mut Vec<u8>, drill: &Drill) -> Result<(), AllocError>
    ensures { OnOk result (out.new.items ≡ out.old.items ++ spec.made_line drill.now) }
{
    write_text(out, "leaves ")?;
    write_count(out, drill.leaves)?;
    write_text(out, " calls 200 steps ")?;
    write_count(out, drill.steps)?;
    write_text(out, "\n")
}

// A word, a count and a space.
fn write_counted(out: &mut Vec<u8>, word: &str, count: u64) -> Result<(), AllocError>
    ensures { OnOk result (out.new.items ≡ out.old.items ++ spec.counted word.now count) }
{
    write_text(out, word)?;
    write_text(out, " ")?;
    write_count(out, count)?;
    write_text(out, " ")
}

// The line of what came of it.
fn write_ended(out: &mut Vec<u8>, drill: &Drill) -> Result<(), AllocError>
    ensures { OnOk result (out.new.items ≡ out.old.items ++ spec.ended_line drill.now) }
{
    write_counted(out, "done", drill.done)?;
    write_counted(out, "broken", drill.broken)?;
    write_counted(out, "moved", drill.moved)?;
    write_counted(out, "refused", drill.refused)?;
    write_text(out, "epochs ")?;
    write_count(out, drill.epochs)?;
    write_text(out, "\n")
}

/// The summary of a drill: a line of what is asked for, one of what was made, one of what came of it, and the line `end`.
#[tactic(auto, unfolding(crate::specs::Drills::drill_text))]
pub fn drill_text(alloc: Global, drill: &Drill) -> Result<Vec<u8>, AllocError>
    ensures { IfOk result (λ text. text.items ≡ spec.drill_text drill.now) }
{
    let mut out = Vec::new(alloc);
    write_asked(&mut out, drill)?;
    write_made(&mut out, drill)?;
    write_ended(&mut out, drill)?;
    write_text(&mut out, "end\n")?;
    Ok(out)
}
