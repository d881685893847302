ghost use Rattle.std.specs.Prelude.{◌≡◌, ◌⊎◌, ◌≤◌, ◌↔◌, true, false, IsTrue, List, ℕ, map, string_bytes, Option, Some, None, Ok, IfSome};
ghost use Rattle.std.specs.Option.{is_some};
ghost use Rattle.lucy_io.specs.Inputs.{Told};
ghost use Rattle.lucy_io.specs.Faults.{Rose};
ghost use Rattle.lucy_io.specs.declared.inputs.Ending.TheVariants.{Absent, Failed};
ghost use Rattle.lucy_top.specs.Causes.{Added, LastIs, AreInOrder, NoneFailed, ComesTo, IsAnswered};
ghost use Rattle.lucy_top.specs.Commands.{script_of, script_meant, script_with, names_in};
ghost use Rattle.lucy_top.specs.Conversing.{Walk};
ghost use Rattle.lucy_top.specs.Ends.{Follows, Ends};
ghost use Rattle.lucy_top.specs.Labelling.{Labels, session_by, session_in};
ghost use Rattle.lucy_top.specs.Outcomes.{Choice, Suits, kept, asks_run};
ghost use Rattle.lucy_top.specs.Serving.{Serves};
ghost use Rattle.lucy_top.specs.Verdicts.{Verdict};
ghost use Rattle.lucy_top.specs.Writing.{Finishes};
ghost use Rattle.lucy_words.specs.Commands.{IsWithin, command_of};

use crate::alone_runs::{run_alone, run_made_alone};
use crate::checking::{certify, check};
use crate::drilling::drill;
use crate::labelling::label;
use crate::making::{help, make_plan, make_steps, make_work};
use crate::replaying::{replay, replay_made};
use crate::said::{Said, Stop};
use crate::texts::stop_at_words;
use crate::verifying::verify;
use lucy_audit::Difference;
use lucy_core::Outcome;
use lucy_io::{Inputs, Sink, Source, give_all};
use lucy_words::{Command, WordsError};
use std::alloc::Global;

/// How a call ended.
#[derive(Drop)]
pub struct Ended {
    /// From 0 to 7.
    pub status: u8,
    /// What a run came to, exactly where one was asked for and the status is 0.
    pub outcome: Option<Outcome>,
    /// Why that outcome is of one thread alone: exactly where it is, and threads were asked for.
    pub apart: Option<Difference>,
}

// Does what a command asks for that is no session of labels. The outcome of a run is kept.
pub fn run<I: Inputs>(
    alloc: Global,
    inputs: &mut I,
    command: &Command,
    slot: &mut Option<Outcome>,
) -> Result<Said, Stop>
    requires within { IsWithin command.now }
    requires scripted { session_by command.now ≡ None }
    requires empty { slot.old ≡ None }
    ensures scripted { session_by command.now ≡ None }
    ensures told { I.told inputs.new ≡ I.told inputs.old }
    ensures follows { (told : Option Told) (choice : Choice) → told ≡ I.told inputs.old → Suits choice slot.new
        → Follows (script_meant choice command.now) told (I.journal inputs.old) (I.journal inputs.new) result }
    ensures only { IfSome slot.new (λ outcome. asks_run (Ok command.now) ≡ true) }
    ensures no_threads { IfSome slot.new (λ outcome. outcome.threads ≡ false) }
{
    match command {
        Command::Check { plan } => check(alloc, inputs, plan.as_str()),
        Command::Certify { plan } => certify(alloc, inputs, plan.as_str()),
        Command::Verify { plan, cert } => verify(alloc, inputs, plan.as_str(), cert.as_str()),
        Command::Replay {
            plan,
            cert,
            work,
            steps,
        } => match cert {
            None => replay_made(alloc, inputs, plan.as_str(), work.as_str(), steps.as_str()),
            Some(cert) => replay(
                alloc,
                inputs,
                plan.as_str(),
                cert.as_str(),
                work.as_str(),
                steps.as_str(),
            ),
        },
        Command::MakePlan { seed, size } => make_plan(alloc, *seed, *size),
        Command::MakeWork {
            plan,
            seed,
            replicas,
            calls,
        } => make_work(alloc, inputs, plan.as_str(), *seed, *replicas, *calls),
        Command::MakeSteps {
            plan,
            work,
            seed,
            rounds,
        } => make_steps(alloc, inputs, plan.as_str(), work.as_str(), *seed, *rounds),
        Command::Drill { seed, size } => drill(alloc, *seed, *size),
        Command::Help => help(alloc),
        Command::Run {
            plan,
            cert,
            work,
            ..
        } => match cert {
            None => run_made_alone(alloc, inputs, plan.as_str(), work.as_str(), slot),
            Some(cert) => run_alone(
                alloc,
                inputs,
                plan.as_str(),
                cert.as_str(),
                work.as_str(),
                slot,
            ),
        },
        Command::Label { .. } => unreachable!(),
    }
}

/// Writes the text, and says the status.
pub fn finish<K: Sink>(sink: &mut K, said: Result<Said, Stop>) -> u8
    ensures { Finishes said (K.held sink.old) (K.held sink.new) (K.faults sink.old) (K.faults sink.new) result }
{
    match said {
        Ok(said) | Err(Stop::Ended(said)) => match give_all(sink, &said.text) {
            Ok(()) => said.status,
            Err(_) => 6,
        },
        Err(Stop::OutOfMemory) => 7,
    }
}

// The outcome of a call that ended so.
pub fn kept_by(status: u8, slot: Option<Outcome>) -> Option<Outcome>
    ensures zero { status ≡ 0 → result ≡ slot }
    ensures other { (¬ (status ≡ 0)) → result ≡ None }
{
    if status == 0 { slot } else { None }
}

// Does what the words ask for, and says the status. The outcome of a run is kept.
fn serve<I: Inputs, S: Source, K: Sink>(
    alloc: Global,
    words: &[String],
    inputs: &mut I,
    source: &mut S,
    sink: &mut K,
    slot: &mut Option<Outcome>,
) -> u8
    requires { slot.old ≡ None }
    ensures told { I.told inputs.new ≡ I.told inputs.old }
    ensures serves { (told : Option Told) → told ≡ I.told inputs.old
        → Serves Suits (command_of (map string_bytes words.now)) slot.new told (I.journal inputs.old) (I.journal inputs.new) source.old source.new (S.left source.old) (S.left source.new)
        (K.held sink.old) (K.held sink.new) (S.faults source.old) (S.faults source.new) (K.faults sink.old) (K.faults sink.new) result }
    ensures no_threads { IfSome slot.new (λ outcome. outcome.threads ≡ false) }
    ensures faults { K.faults sink.old ≤ K.faults sink.new }
{
    match lucy_words::command(alloc, words) {
        Ok(Command::Label { plan, walk }) => {
            label(alloc, inputs, source, sink, plan.as_str(), walk)
        }
        Ok(command) => {
            let said = run(alloc, inputs, &command, slot);
            finish(sink, said)
        }
        Err(WordsError::BadWords(at)) => finish(sink, Err(stop_at_words(alloc, at))),
        Err(WordsError::OutOfMemory) => 7,
    }
}

/// Does what the words ask for: it fetches and reads the inputs that they name, in their order, writes
/// the answer to `sink`, and says the status. A run is worked by one thread alone. A session of labels
/// hears its lines from `source` and writes each answer before the next line is heard; every other
/// command leaves `source` as it was.
pub fn answer<I: Inputs, S: Source, K: Sink>(
    alloc: Global,
    words: &[String],
    inputs: &mut I,
    source: &mut S,
    sink: &mut K,
) -> Ended
    ensures ends { session_in (command_of (map string_bytes words.now)) ≡ None
        → Ends (script_of (map string_bytes words.now)) (I.told inputs.old) (I.journal inputs.old) (I.journal inputs.new)
        (K.held sink.old) (K.held sink.new) (K.faults sink.old) (K.faults sink.new) result.status }
    // A session of labels: what it shows, what it hears, what it writes of it, and how it ends.
    ensures labels { (plan : List ℕ) (walk : Walk) → session_in (command_of (map string_bytes words.now)) ≡ Some (plan, walk)
        → Labels plan walk (I.told inputs.old) (I.journal inputs.old) (I.journal inputs.new) (S.left source.old) (S.left source.new)
        (K.held sink.old) (K.held sink.new) (S.faults source.old) (S.faults source.new) (K.faults sink.old) (K.faults sink.new) result.status }
    // An input that is not there is the one cause of 4.
    ensures absent { result.status ≡ 4 → Added (I.journal inputs.old) (I.journal inputs.new) (LastIs Absent) }
    ensures absent_only { Added (I.journal inputs.old) (I.journal inputs.new) (LastIs Absent) → (result.status ≡ 4) ⊎ (result.status ≡ 6) ⊎ (result.status ≡ 7) }
    // An input that could not be read, the source among them, is the one cause of 5.
    ensures failed { result.status ≡ 5 → Added (I.journal inputs.old) (I.journal inputs.new) (LastIs Failed) ⊎ Rose (S.faults source.old) (S.faults source.new) }
    ensures failed_only { Added (I.journal inputs.old) (I.journal inputs.new) (LastIs Failed) → (result.status ≡ 5) ⊎ (result.status ≡ 6) ⊎ (result.status ≡ 7) }
    // The sink is the one cause of 6.
    ensures cut { result.status ≡ 6 → Rose (K.faults sink.old) (K.faults sink.new) }
    // The fetches are of the first names in the words, in their order, and all but the last were given.
    ensures order { Added (I.journal inputs.old) (I.journal inputs.new) (AreInOrder (names_in (map string_bytes words.now))) }
    // With inputs that are told, there and within their limits, and no fault, the answer is the one that the words and the inputs
    // come to, or memory ran out.
    ensures complete { (t : Told) (verdict : Verdict) → session_in (command_of (map string_bytes words.now)) ≡ None
        → I.told inputs.old ≡ Some t → ComesTo (script_of (map string_bytes words.now)) t verdict
        → Added (I.journal inputs.old) (I.journal inputs.new) NoneFailed → (¬ (Rose (K.faults sink.old) (K.faults sink.new)))
        → IsAnswered verdict (K.held sink.old) (K.held sink.new) result.status }
    // The outcome of a run is there exactly where the status is 0: it is legal, and the text is its own.
    ensures outcome { IsTrue (is_some result.outcome) ↔ ((asks_run (command_of (map string_bytes words.now)) ≡ true) × (result.status ≡ 0)) }
    ensures kept { session_in (command_of (map string_bytes words.now)) ≡ None → result.status ≡ 0
        → Ends (script_with (kept result.outcome) (map string_bytes words.now)) (I.told inputs.old) (I.journal inputs.old) (I.journal inputs.new)
        (K.held sink.old) (K.held sink.new) (K.faults sink.old) (K.faults sink.new) result.status }
    ensures apart { result.apart ≡ None }
    ensures no_threads { IfSome result.outcome (λ outcome. outcome.threads ≡ false) }
    ensures told { I.told inputs.new ≡ I.told inputs.old }
    ensures source { session_in (command_of (map string_bytes words.now)) ≡ None → source.new ≡ source.old }
    ensures faults { K.faults sink.old ≤ K.faults sink.new }
{
    let mut slot = None;
    let status = serve(alloc, words, inputs, source, sink, &mut slot);
    Ended {
        status,
        outcome: kept_by(status, slot),
        apart: None,
    }
}
