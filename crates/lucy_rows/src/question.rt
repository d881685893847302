//! What can be asked of a text.

use crate::answers::{self, Given, Input};
use crate::calls::{self, Report};
use crate::errors;
use crate::language::{self, Listing};
use crate::plans::{self, Fact};
use crate::trees::{self, Part};
use crate::trouble::Trouble;
use std::alloc::Global;

/// What is asked of the rows of a table.
#[derive(Clone, Copy)]
pub enum Question {
    /// The tokens of a text, or its first fault.
    Tokens(Listing),
    /// Whether a plan text is read, or its first fault and the place.
    Tree,
    /// Where each proper front of a plan text stops.
    Fronts,
    /// The printed text of a plan text.
    Printed,
    /// Whether a plan text is printed as its tokens laid out.
    Layout,
    /// What is told of a tree.
    TreePart(Part),
    /// Why a plan text is refused.
    Refusal,
    /// Why a plan text without its end is refused, also with a fault behind it.
    FirstRefusal,
    /// What is told of a plan.
    PlanFact(Fact),
    /// What is told of a work text.
    Work(Report),
    /// What is told of a step script.
    Steps(Report),
    /// The status and the text of a call with these inputs.
    Answer(Given),
    /// The status of a call that gives a verdict, and the last line of its text.
    Soundness,
    /// What the call is answered with each proper front of an input in its place.
    AnswersToFronts(Given, Input),
    /// What a call fetches.
    Fetched(Given),
    /// What a call leaves of what is typed.
    Left,
    /// The text of an error.
    Error,
}

// A question about plan texts.
fn about_text(name: &str) -> Option<Question> {
    match name {
        "tokens" => Some(Question::Tokens(Listing::All)),
        "last token" => Some(Question::Tokens(Listing::Last)),
        "kinds" => Some(Question::Tokens(Listing::Kinds)),
        "tree" => Some(Question::Tree),
        "fronts" => Some(Question::Fronts),
        "printed" => Some(Question::Printed),
        "layout" => Some(Question::Layout),
        "groups" => Some(Question::TreePart(Part::Groups)),
        "places" => Some(Question::TreePart(Part::Places)),
        "refusal" => Some(Question::Refusal),
        "first refusal" => Some(Question::FirstRefusal),
        _ => None,
    }
}

// A question about plans.
fn about_plan(name: &str) -> Option<Question> {
    match name {
        "counts" => Some(Question::PlanFact(Fact::Counts)),
        "start" => Some(Question::PlanFact(Fact::Start)),
        "called" => Some(Question::PlanFact(Fact::Called)),
        "segment" => Some(Question::PlanFact(Fact::Segment)),
        "levels" => Some(Question::PlanFact(Fact::Levels)),
        "settled" => Some(Question::PlanFact(Fact::Settled)),
        "negation" => Some(Question::PlanFact(Fact::Negation)),
        _ => None,
    }
}

// A question about work and steps.
fn about_run(name: &str) -> Option<Question> {
    match name {
        "work" => Some(Question::Work(Report::Fault)),
        "work fronts" => Some(Question::Work(Report::Fronts)),
        "work said" => Some(Question::Work(Report::Said)),
        "work written" => Some(Question::Work(Report::Written)),
        "steps" => Some(Question::Steps(Report::Fault)),
        "step fronts" => Some(Question::Steps(Report::Fronts)),
        "steps said" => Some(Question::Steps(Report::Said)),
        "steps written" => Some(Question::Steps(Report::Written)),
        _ => None,
    }
}

// A question about whole calls, or about an error.
fn about_call(name: &str) -> Option<Question> {
    match name {
        "answer" => Some(Question::Answer(Given::Run)),
        "soundness" => Some(Question::Soundness),
        "verdict" => Some(Question::Answer(Given::Verdict)),
        "judged answer" => Some(Question::Answer(Given::JudgedRun)),
        "answers to plan fronts" => Some(Question::AnswersToFronts(Given::Run, Input::Plan)),
        "answers to work fronts" => Some(Question::AnswersToFronts(Given::Run, Input::Work)),
        "answers to step fronts" => Some(Question::AnswersToFronts(Given::Run, Input::Steps)),
        "verdicts to certificate fronts" => {
            Some(Question::AnswersToFronts(Given::Verdict, Input::Certificate))
        }
        "fetched" => Some(Question::Fetched(Given::Run)),
        "session" => Some(Question::Answer(Given::Session)),
        "left" => Some(Question::Left),
        "judged fetched" => Some(Question::Fetched(Given::JudgedRun)),
        "error" => Some(Question::Error),
        _ => None,
    }
}

/// The question of a name.
pub fn named(name: &str) -> Option<Question> {
    about_text(name)
        .or(about_plan(name))
        .or(about_run(name))
        .or(about_call(name))
}

/// Appends the answer to a question about a text.
pub fn ask(out: &mut String, alloc: Global, question: Question, text: &str) -> Result<(), Trouble> {
    match question {
        Question::Tokens(listing) => language::tokens(out, alloc, listing, text),
        Question::Tree => language::tree(out, alloc, text),
        Question::Fronts => language::fronts(out, alloc, text),
        Question::Printed => language::printed(out, alloc, text),
        Question::Layout => language::layout(out, alloc, text),
        Question::TreePart(part) => trees::told(out, alloc, part, text),
        Question::Refusal => plans::refusal(out, alloc, text),
        Question::FirstRefusal => plans::first_refusal(out, alloc, text),
        Question::PlanFact(fact) => plans::told(out, alloc, fact, text),
        Question::Work(report) => calls::work(out, alloc, report, text),
        Question::Steps(report) => calls::steps(out, alloc, report, text),
        Question::Answer(given) => answers::answered(out, alloc, given, text),
        Question::Soundness => answers::soundness(out, alloc, text),
        Question::AnswersToFronts(given, input) => {
            answers::to_fronts(out, alloc, given, input, text)
        }
        Question::Fetched(given) => answers::fetched(out, alloc, given, text),
        Question::Left => answers::left(out, alloc, text),
        Question::Error => errors::error(out, alloc, text),
    }
}
