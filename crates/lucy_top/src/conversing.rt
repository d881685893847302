//! A session of labels over a source and a sink. A pair is shown before the first line is heard, and each answer is
//! written before the next line is.

ghost use Rattle.std.specs.Prelude.{◌≡◌, ◌≤◌, ◌++◌, IfOk, OnOk, IfSome, IsSome, IsTrue, List, ℕ, Some, None, is_some, length, true};
ghost use Rattle.lucy_expr.specs.Reachability.{IsReached};
ghost use Rattle.lucy_report.specs.FaultLines.{long_input as long_words, source_fault as fault_words};
ghost use Rattle.lucy_report.specs.LabelTexts as lines;
ghost use Rattle.lucy_session.specs.Sessions.{answer_of, found_of, searched};
ghost use Rattle.lucy_session.specs.declared.reached.Pair.{Pair};
ghost use Rattle.lucy_top.specs.Conversing as spec;

use crate::hearing::{Heard, hear};
use lucy_expr::Expr;
use lucy_io::{Sink, Source, give_all};
use lucy_model::State;
use lucy_report::{
    long_input, source_fault, write_confluent, write_found_lines, write_not_confluent,
    write_pair_line, write_refused_line, write_undecided,
};
use lucy_session::{LabelError, Next, Session};
use std::alloc::{AllocError, Global};

// The most bytes of the input.
const MOST_INPUT: u32 = 1 << 20;

// Gives a text, or says the status of what went wrong.
fn give_text<K: Sink>(sink: &mut K, text: Result<Vec<u8>, AllocError>) -> Result<(), u8>
    ensures gives { (wanted : List ℕ) → IfOk text (λ t. t.items ≡ wanted) → spec.Gives wanted (K.held sink.old) (K.held sink.new) (K.faults sink.old) (K.faults sink.new) result }
    ensures later { K.faults sink.old ≤ K.faults sink.new }
{
    match text {
        Ok(text) => match give_all(sink, &text) {
            Ok(()) => Ok(()),
            Err(_) => Err(6),
        },
        Err(_) => Err(7),
    }
}

/// Gives a last text, and says the status.
pub fn say_last<K: Sink>(sink: &mut K, text: Result<Vec<u8>, AllocError>, status: u8) -> u8
    ensures tells { (wanted : List ℕ) → IfOk text (λ t. t.items ≡ wanted) → spec.Tells wanted status (K.held sink.old) (K.held sink.new) (K.faults sink.old) (K.faults sink.new) result }
    ensures later { K.faults sink.old ≤ K.faults sink.new }
{
    match give_text(sink, text) {
        Ok(()) => status,
        Err(status) => status,
    }
}

fn closed_text(alloc: Global, session: &Session) -> Result<Vec<u8>, AllocError>
    ensures { IfOk result (λ t. t.items ≡ lines.confluent session.now.points) }
{
    let mut text = Vec::new(alloc);
    write_confluent(&mut text, session.points())?;
    Ok(text)
}

fn broken_text(
    alloc: Global,
    session: &Session,
    left: &Expr,
    right: &Expr,
) -> Result<Vec<u8>, AllocError>
    requires left { IsReached session.now.plan left.now.tree }
    requires right { IsReached session.now.plan right.now.tree }
    ensures { IfOk result (λ t. t.items ≡ lines.not_confluent session.now.names.txns left.now.tree right.now.tree) }
{
    session.facts();
    let mut text = Vec::new(alloc);
    write_not_confluent(&mut text, session.names(), left, right)?;
    Ok(text)
}

fn undecided_text(alloc: Global) -> Result<Vec<u8>, AllocError>
    ensures { IfOk result (λ t. t.items ≡ lines.undecided) }
{
    let mut text = Vec::new(alloc);
    write_undecided(&mut text)?;
    Ok(text)
}

fn long_text(alloc: Global, count: u64) -> Result<Vec<u8>, AllocError>
    ensures { IfOk result (λ t. t.items ≡ long_words count) }
{
    let text = long_input(alloc, count)?;
    Ok(text.into_bytes())
}

fn fault_text(alloc: Global) -> Result<Vec<u8>, AllocError>
    ensures { IfOk result (λ t. t.items ≡ fault_words) }
{
    let text = source_fault(alloc)?;
    Ok(text.into_bytes())
}

fn refused_text(alloc: Global, error: LabelError) -> Result<Vec<u8>, AllocError>
    ensures { IfOk result (λ t. t.items ≡ lines.refused_line error) }
{
    let mut text = Vec::new(alloc);
    write_refused_line(&mut text, error)?;
    Ok(text)
}

// What a walk finds for the pair that is shown.
fn write_walk(
    alloc: Global,
    out: &mut Vec<u8>,
    session: &mut Session,
    seed: u64,
    length: u32,
) -> Result<(), AllocError>
    requires length { length ≤ 1000 }
    requires stands { IsSome session.old.pair }
    ensures text { (p : Pair) → session.old.pair ≡ Some p → OnOk result (out.new.items ≡ out.old.items ++ lines.found_lines session.old.names.txns (found_of session.old seed length p)) }
    ensures session { (p : Pair) → session.old.pair ≡ Some p → OnOk result (session.new ≡ searched session.old seed length p) }
{
    let (left, right) = session.search(alloc, seed, length)?;
    session.facts();
    write_found_lines(out, session.names(), left.as_ref(), right.as_ref())
}

// What a walk finds for the pair that is shown, where one is asked for.
fn write_walked(
    alloc: Global,
    out: &mut Vec<u8>,
    session: &mut Session,
    walk: Option<(u64, u32)>,
) -> Result<(), AllocError>
    requires walk { IfSome walk (λ w. w.1 ≤ 1000) }
    requires stands { IsSome session.old.pair }
    ensures text { (p : Pair) → session.old.pair ≡ Some p → OnOk result (out.new.items ≡ out.old.items ++ spec.walked_text walk session.old p) }
    ensures session { (p : Pair) → session.old.pair ≡ Some p → OnOk result (session.new ≡ spec.walked walk session.old p) }
{
    match walk {
        None => Ok(()),
        Some((seed, length)) => write_walk(alloc, out, session, seed, length),
    }
}

// The pair that is shown, and what a walk finds for it.
fn shown_text(
    alloc: Global,
    session: &mut Session,
    walk: Option<(u64, u32)>,
    left: &State,
    right: &State,
) -> Result<Vec<u8>, AllocError>
    requires walk { IfSome walk (λ w. w.1 ≤ 1000) }
    requires stands { session.old.pair ≡ Some (spec.pair_of left.now right.now) }
    ensures text { IfOk result (λ t. t.items ≡ spec.shown_text walk session.old (spec.pair_of left.now right.now)) }
    ensures session { OnOk result (session.new ≡ spec.walked walk session.old (spec.pair_of left.now right.now)) }
{
    let mut text = Vec::new(alloc);
    write_pair_line(&mut text, left, right)?;
    write_walked(alloc, &mut text, session, walk)?;
    Ok(text)
}

// Shows a pair.
fn show<K: Sink>(
    alloc: Global,
    sink: &mut K,
    session: &mut Session,
    walk: Option<(u64, u32)>,
    left: &State,
    right: &State,
) -> Result<(), u8>
    requires walk { IfSome walk (λ w. w.1 ≤ 1000) }
    requires stands { session.old.pair ≡ Some (spec.pair_of left.now right.now) }
    ensures gives { spec.Gives (spec.shown_text walk session.old (spec.pair_of left.now right.now)) (K.held sink.old) (K.held sink.new) (K.faults sink.old) (K.faults sink.new) result }
    ensures session { OnOk result (session.new ≡ spec.walked walk session.old (spec.pair_of left.now right.now)) }
    ensures later { K.faults sink.old ≤ K.faults sink.new }
{
    let Ok(text) = shown_text(alloc, session, walk, left, right) else {
        return Err(7);
    };
    give_text(sink, Ok(text))
}

// Says why a label is refused.
fn refuse<K: Sink>(alloc: Global, sink: &mut K, error: LabelError) -> Result<(), u8>
    ensures gives { spec.Gives (lines.refused_line error) (K.held sink.old) (K.held sink.new) (K.faults sink.old) (K.faults sink.new) result }
    ensures later { K.faults sink.old ≤ K.faults sink.new }
{
    give_text(sink, refused_text(alloc, error))
}

// Takes a label, and says whether the pair still stands.
fn take_label<K: Sink>(
    alloc: Global,
    sink: &mut K,
    session: &mut Session,
    line: &[u8],
) -> Result<bool, u8>
    requires stands { IsSome session.old.pair }
    requires line { length line.now ≤ 65536 }
    ensures takes { spec.TakesLabel session.old line.now session.new (K.held sink.old) (K.held sink.new) (K.faults sink.old) (K.faults sink.new) result }
    ensures later { K.faults sink.old ≤ K.faults sink.new }
{
    let before = session.points().len();
    match session.label(alloc, line) {
        Ok(()) => Ok(session.points().len() == before),
        Err(LabelError::OutOfMemory) => Err(7),
        Err(error) => {
            refuse(alloc, sink, error)?;
            Ok(true)
        }
    }
}

// Hears a line for the pair that stands, and takes it as a label.
fn hear_label<S: Source, K: Sink>(
    alloc: Global,
    source: &mut S,
    sink: &mut K,
    session: &mut Session,
    room: &mut u32,
) -> Result<bool, u8>
    requires asked { IsTrue (spec.asks (answer_of session.old.reached session.old.pair)) }
    ensures steps { (walk : spec.Walk) → spec.Steps walk session.old session.new true room.old room.new (S.left source.old) (S.left source.new) (K.held sink.old) (K.held sink.new)
        (S.faults source.old) (S.faults source.new) (K.faults sink.old) (K.faults sink.new) result }
    ensures later { K.faults sink.old ≤ K.faults sink.new }
{
    match hear(alloc, source, room) {
        Heard::Line { bytes, .. } => take_label(alloc, sink, session, &bytes),
        Heard::End => Err(say_last(sink, undecided_text(alloc), 1)),
        Heard::Long(count) => Err(say_last(sink, long_text(alloc, count), 3)),
        Heard::Fault => Err(say_last(sink, fault_text(alloc), 5)),
        Heard::OutOfMemory => Err(7),
    }
}

// What comes next in a session: a pair is shown, or a line is heard; or the session ends. It is told whether a pair
// stands.
fn step<S: Source, K: Sink>(
    alloc: Global,
    source: &mut S,
    sink: &mut K,
    session: &mut Session,
    walk: Option<(u64, u32)>,
    stands: bool,
    room: &mut u32,
) -> Result<bool, u8>
    requires walk { IfSome walk (λ w. w.1 ≤ 1000) }
    requires stands { stands ≡ is_some session.old.pair }
    ensures steps { spec.Steps walk session.old session.new stands room.old room.new (S.left source.old) (S.left source.new) (K.held sink.old) (K.held sink.new)
        (S.faults source.old) (S.faults source.new) (K.faults sink.old) (K.faults sink.new) result }
    ensures later { K.faults sink.old ≤ K.faults sink.new }
{
    match session.next(alloc) {
        Err(_) => Err(7),
        Ok(Next::Closed) => Err(say_last(sink, closed_text(alloc, session), 0)),
        Ok(Next::Broken { left, right }) => {
            let text = broken_text(alloc, session, &left, &right);
            Err(say_last(sink, text, 1))
        }
        Ok(Next::Pair { left, right, .. }) => {
            if stands {
                return hear_label(alloc, source, sink, session, room);
            }
            match show(alloc, sink, session, walk, &left, &right) {
                Ok(()) => Ok(true),
                Err(status) => Err(status),
            }
        }
    }
}

/// A session over a source and a sink, up to its end, whose status is told. No pair stands at its begin, and a walk's
/// length is at most 1,000.
pub fn converse<S: Source, K: Sink>(
    alloc: Global,
    source: &mut S,
    sink: &mut K,
    session: &mut Session,
    walk: Option<(u64, u32)>,
) -> u8
    requires walk { IfSome walk (λ w. w.1 ≤ 1000) }
    requires free { session.old.pair ≡ None }
    ensures converses { spec.Converses walk session.old (S.left source.old) (S.left source.new) (K.held sink.old) (K.held sink.new)
        (S.faults source.old) (S.faults source.new) (K.faults sink.old) (K.faults sink.new) result }
    ensures later { K.faults sink.old ≤ K.faults sink.new }
{
    let mut room = MOST_INPUT;
    let mut stands = false;
    loop {
        match step(alloc, source, sink, session, walk, stands, &mut room) {
            Ok(next) => stands = next,
            Err(status) => return status,
        }
    }
}
