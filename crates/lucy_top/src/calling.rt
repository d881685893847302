//! The call of the program: `run` on threads, and every other command as one thread does it.

ghost use Rattle.std.specs.Prelude.{◌≡◌, ◌⊎◌, ◌≤◌, ◌↔◌, true, IsTrue, List, ℕ, map, string_bytes, Option, Some, None, Ok, IfSome};
ghost use Rattle.std.specs.Option.{is_some};
ghost use Rattle.lucy_io.specs.Inputs.{Told};
ghost use Rattle.lucy_io.specs.Faults.{Rose};
ghost use Rattle.lucy_io.specs.declared.inputs.Ending.TheVariants.{Absent, Failed};
ghost use Rattle.lucy_top.specs.Causes.{Added, LastIs, AreInOrder, NoneFailed, ComesTo, IsAnswered};
ghost use Rattle.lucy_top.specs.Commands.{script_meant, script_with, names_in};
ghost use Rattle.lucy_top.specs.Conversing.{Walk};
ghost use Rattle.lucy_top.specs.Ends.{Follows, Ends};
ghost use Rattle.lucy_top.specs.Labelling.{Labels, session_by, session_in};
ghost use Rattle.lucy_top.specs.Outcomes.{Choice, any, kept, asks_run};
ghost use Rattle.lucy_top.specs.Serving.{Serves};
ghost use Rattle.lucy_top.specs.Threads.{IsApart, SuitsThreads};
ghost use Rattle.lucy_top.specs.Verdicts.{Verdict};
ghost use Rattle.lucy_words.specs.Commands.{IsWithin, command_of};

use crate::answering::{Ended, finish, run};
use crate::labelling::label;
use crate::said::{Said, Stop};
use crate::texts::stop_at_words;
use crate::threaded_runs::Kept;
use crate::threads::Crew;
use lucy_cluster::Gate;
use lucy_io::{Inputs, Sink, Source};
use lucy_words::{Command, WordsError};
use std::alloc::Global;
use std::sync::Wait;
use std::thread::Threads;

// Does what a command asks for that is no session of labels. A run is worked on threads.
fn run_asked<'x, R: Threads + Wait + Sync, I: Inputs, G: Gate + Sync>(
    rt: &'x R,
    alloc: Global,
    command: Command,
    inputs: &mut I,
    gate: &'x G,
    kept: &mut Kept,
) -> Result<Said, Stop>
    requires within { IsWithin command }
    requires scripted { session_by command ≡ None }
    requires empty { kept.old.outcome ≡ None }
    requires none { kept.old.apart ≡ None }
    ensures scripted { session_by command ≡ None }
    ensures told { I.told inputs.new ≡ I.told inputs.old }
    ensures follows { (told : Option Told) (choice : Choice) → told ≡ I.told inputs.old → SuitsThreads choice kept.new.outcome
        → Follows (script_meant choice command) told (I.journal inputs.old) (I.journal inputs.new) result }
    ensures only { IfSome kept.new.outcome (λ outcome. asks_run (Ok command) ≡ true) }
    ensures apart { IsApart kept.new.outcome kept.new.apart }
{
    match command {
        Command::Run {
            plan,
            cert,
            work,
            seed,
        } => {
            let crew = Crew { rt, gate, seed };
            match cert {
                None => crew.run_made(alloc, inputs, plan.as_str(), work.as_str(), kept),
                Some(cert) => crew.run(
                    alloc,
                    inputs,
                    plan.as_str(),
                    cert.as_str(),
                    work.as_str(),
                    kept,
                ),
            }
        }
        command => {
            let mut none = None;
            run(alloc, inputs, &command, &mut none)
        }
    }
}

// Does what the words ask for, and says the status. A run is worked on threads.
fn serve_on_threads<'x, R: Threads + Wait + Sync, I: Inputs, S: Source, K: Sink, G: Gate + Sync>(
    rt: &'x R,
    alloc: Global,
    words: &[String],
    inputs: &mut I,
    source: &mut S,
    sink: &mut K,
    gate: &'x G,
    kept: &mut Kept,
) -> u8
    requires empty { kept.old.outcome ≡ None }
    requires none { kept.old.apart ≡ None }
    ensures told { I.told inputs.new ≡ I.told inputs.old }
    ensures serves { (told : Option Told) → told ≡ I.told inputs.old
        → Serves SuitsThreads (command_of (map string_bytes words.now)) kept.new.outcome told (I.journal inputs.old) (I.journal inputs.new) source.old source.new (S.left source.old) (S.left source.new)
        (K.held sink.old) (K.held sink.new) (S.faults source.old) (S.faults source.new) (K.faults sink.old) (K.faults sink.new) result }
    ensures apart { IsApart kept.new.outcome kept.new.apart }
    ensures faults { K.faults sink.old ≤ K.faults sink.new }
{
    match lucy_words::command(alloc, words) {
        Ok(Command::Label { plan, walk }) => {
            label(alloc, inputs, source, sink, plan.as_str(), walk)
        }
        Ok(command) => {
            let said = run_asked(rt, alloc, command, inputs, gate, kept);
            finish(sink, said)
        }
        Err(WordsError::BadWords(at)) => finish(sink, Err(stop_at_words(alloc, at))),
        Err(WordsError::OutOfMemory) => 7,
    }
}

// What is kept of a call that ended with this status: all of it with a good verdict alone.
fn kept_at(status: u8, kept: Kept) -> Kept
    ensures zero { status ≡ 0 → (result.outcome ≡ kept.outcome) × (result.apart ≡ kept.apart) }
    ensures other { (¬ (status ≡ 0)) → (result.outcome ≡ None) × (result.apart ≡ None) }
{
    if status == 0 {
        return kept;
    }
    Kept {
        outcome: None,
        apart: None,
    }
}

/// Does what the words ask for, as `answer` does, but for a run: its replicas work on threads. Where
/// what they leave is no legal outcome, or two records differ that have to be the same, the outcome is
/// that of one thread alone, and the difference is kept beside it. It waits for threads only on the
/// words of a run; that it returns is not promised.
pub fn lucy<R: Threads + Wait + Sync, I: Inputs, S: Source, K: Sink, G: Gate + Sync>(
    rt: &R,
    alloc: Global,
    words: &[String],
    inputs: &mut I,
    source: &mut S,
    sink: &mut K,
    gate: &G,
) -> Ended
    ensures ends { session_in (command_of (map string_bytes words.now)) ≡ None
        → Ends (script_with any (map string_bytes words.now)) (I.told inputs.old) (I.journal inputs.old) (I.journal inputs.new)
        (K.held sink.old) (K.held sink.new) (K.faults sink.old) (K.faults sink.new) result.status }
    // A session of labels: what it shows, what it hears, what it writes of it, and how it ends.
    ensures labels { (plan : List ℕ) (walk : Walk) → session_in (command_of (map string_bytes words.now)) ≡ Some (plan, walk)
        → Labels plan walk (I.told inputs.old) (I.journal inputs.old) (I.journal inputs.new) (S.left source.old) (S.left source.new)
        (K.held sink.old) (K.held sink.new) (S.faults source.old) (S.faults source.new) (K.faults sink.old) (K.faults sink.new) result.status }
    // An input that is not there is the one cause of 4.
    ensures absent { result.status ≡ 4 → Added (I.journal inputs.old) (I.journal inputs.new) (LastIs Absent) }
    ensures absent_only { Added (I.journal inputs.old) (I.journal inputs.new) (LastIs Absent) → (result.status ≡ 4) ⊎ (result.status ≡ 6) ⊎ (result.status ≡ 7) }
    // An input that could not be read, the source among them, is the one cause of 5.
    ensures failed { result.status ≡ 5 → Added (I.journal inputs.old) (I.journal inputs.new) (LastIs Failed) ⊎ Rose (S.faults source.old) (S.faults source.new) }
    ensures failed_only { Added (I.journal inputs.old) (I.journal inputs.new) (LastIs Failed) → (result.status ≡ 5) ⊎ (result.status ≡ 6) ⊎ (result.status ≡ 7) }
    // The sink is the one cause of 6.
    ensures cut { result.status ≡ 6 → Rose (K.faults sink.old) (K.faults sink.new) }
    // The fetches are of the first names in the words, in their order, and all but the last were given.
    ensures order { Added (I.journal inputs.old) (I.journal inputs.new) (AreInOrder (names_in (map string_bytes words.now))) }
    // With inputs that are told, there and within their limits, and no fault, the answer is one that the words and the inputs come
    // to, or memory ran out.
    ensures complete { (t : Told) (verdict : Verdict) → session_in (command_of (map string_bytes words.now)) ≡ None
        → I.told inputs.old ≡ Some t → ComesTo (script_with any (map string_bytes words.now)) t verdict
        → Added (I.journal inputs.old) (I.journal inputs.new) NoneFailed → (¬ (Rose (K.faults sink.old) (K.faults sink.new)))
        → IsAnswered verdict (K.held sink.old) (K.held sink.new) result.status }
    // The outcome of a run is there exactly where the status is 0: it is legal, and the text is its own.
    ensures outcome { IsTrue (is_some result.outcome) ↔ ((asks_run (command_of (map string_bytes words.now)) ≡ true) × (result.status ≡ 0)) }
    ensures kept { session_in (command_of (map string_bytes words.now)) ≡ None → result.status ≡ 0
        → Ends (script_with (kept result.outcome) (map string_bytes words.now)) (I.told inputs.old) (I.journal inputs.old) (I.journal inputs.new)
        (K.held sink.old) (K.held sink.new) (K.faults sink.old) (K.faults sink.new) result.status }
    // A difference is kept exactly where that outcome is not of threads.
    ensures apart { IsApart result.outcome result.apart }
    ensures told { I.told inputs.new ≡ I.told inputs.old }
    ensures source { session_in (command_of (map string_bytes words.now)) ≡ None → source.new ≡ source.old }
    ensures faults { K.faults sink.old ≤ K.faults sink.new }
{
    let mut kept = Kept {
        outcome: None,
        apart: None,
    };
    let status = serve_on_threads(rt, alloc, words, inputs, source, sink, gate, &mut kept);
    let kept = kept_at(status, kept);
    Ended {
        status,
        outcome: kept.outcome,
        apart: kept.apart,
    }
}
