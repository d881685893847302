//! What words ask for, or the first of them that is bad.

ghost use Rattle.std.specs.Prelude.{◌≡◌, ◌≤◌, length, map, string_bytes, IfOk};
ghost use Rattle.lucy_io.specs.Outcomes.{Answers};
ghost use Rattle.lucy_words.specs.Grammar as grammar;
ghost use Rattle.lucy_words.specs.Grammar.{places_of, rows_of};
ghost use Rattle.lucy_words.specs.Commands as spec;
ghost use Rattle.lucy_words.specs.declared.error.WordsError.TheVariants.{OutOfMemory};

use crate::asked::Command;
use crate::error::WordsError;
use crate::forms::{Bounds, CALLS, FORMS, Form, LENGTH, REPLICAS, ROUNDS, SEED, SIZE, Slot};
use crate::names::Name;
use lucy_io::read_decimal;
use std::alloc::{AllocError, Global};

// A name is a word that is not empty and does not begin with a dash.
fn is_name(word: &str) -> bool
    ensures { result ≡ grammar.is_name word.now }
{
    match word.as_bytes() {
        [] => false,
        [first, ..] => *first != b'-',
    }
}

// The number that a word writes in canonical decimal, if it is within bounds.
fn number_in(bounds: Bounds, word: &str) -> Option<u64>
    ensures { result ≡ grammar.number_in bounds.least bounds.most word.now }
{
    let number = u64::try_from(read_decimal(word.as_bytes())?).ok()?;
    if bounds.least <= number && number <= bounds.most {
        Some(number)
    } else {
        None
    }
}

// Whether a word may stand in a place.
fn takes(text: &str, slot: Slot, word: &str) -> bool
    ensures { result ≡ grammar.takes (text.now, slot) word.now }
{
    match slot {
        Slot::Word => word == text,
        Slot::Name => is_name(word),
        Slot::NameOrDash => is_name(word) || word == "-",
        Slot::Number(bounds) => number_in(bounds, word).is_some(),
    }
}

// How many of the words stand, from the front on, in the places of a form.
fn agreed(mut places: &[(&str, Slot)], mut words: &[String]) -> usize
    ensures value { result ≡ grammar.agreed (places_of places.entry.now) (map string_bytes words.entry.now) }
    ensures within { result ≤ length words.entry.now }
{
    let mut count = 0;
    while let [word, rest @ ..] = words {
        match places {
            [place, more @ ..] if takes(place.0, place.1, word.as_str()) => {
                count += 1;
                places = more;
                words = rest;
            }
            _ => return count,
        }
    }
    count
}

// Whether the words are of a form.
fn is_of(places: &[(&str, Slot)], words: &[String]) -> bool
    ensures { result ≡ grammar.is_of (places_of places.now) (map string_bytes words.now) }
{
    agreed(places, words) == words.len() && words.len() == places.len()
}

// The first form of a table that the words are of.
fn first_form(mut forms: &[(Form, &[(&str, Slot)])], words: &[String]) -> Option<Form>
    ensures { result ≡ grammar.first_form (rows_of forms.entry.now) (map string_bytes words.now) }
{
    while let [form, rest @ ..] = forms {
        if is_of(form.1, words) {
            return Some(form.0);
        }
        forms = rest;
    }
    None
}

// How many of the words stand, from the front on, in the places of some form of a table.
fn reached(mut forms: &[(Form, &[(&str, Slot)])], words: &[String]) -> usize
    ensures { result ≡ grammar.reached (rows_of forms.entry.now) (map string_bytes words.now) }
{
    let mut most = 0;
    while let [form, rest @ ..] = forms {
        most = most.max(agreed(form.1, words));
        forms = rest;
    }
    most
}

// The form of words.
#[tactic(auto, unfolding(crate::specs::Grammar::form_of))]
fn form_of(words: &[String]) -> Option<Form>
    ensures { result ≡ grammar.form_of (map string_bytes words.now) }
{
    first_form(&FORMS, words)
}

// How many of the words stand, from the front on, in the places of some form.
#[tactic(auto, unfolding(crate::specs::Grammar::bad_place))]
fn bad_place(words: &[String]) -> usize
    ensures { result ≡ grammar.bad_place (map string_bytes words.now) }
{
    reached(&FORMS, words)
}

// The word at a place, or the empty one.
fn word_at(words: &[String], at: usize) -> &str
    ensures { result.now ≡ spec.word_at (map string_bytes words.now) at }
{
    match words.get(at) {
        Some(word) => word.as_str(),
        None => "",
    }
}

fn name_at(alloc: Global, words: &[String], at: usize) -> Result<Name, AllocError>
    ensures { IfOk result (λ name. name ≡ spec.word_at (map string_bytes words.now) at) }
{
    Name::new(alloc, word_at(words, at))
}

// The name at a place, or none for a dash.
fn cert_at(alloc: Global, words: &[String], at: usize) -> Result<Option<Name>, AllocError>
    ensures { IfOk result (λ cert. cert ≡ spec.cert_at (map string_bytes words.now) at) }
{
    if word_at(words, at) == "-" {
        Ok(None)
    } else {
        let name = name_at(alloc, words, at)?;
        Ok(Some(name))
    }
}

// The number at a place, or 0 where none within the bounds stands there.
fn number_at(bounds: Bounds, words: &[String], at: usize) -> u64
    ensures value { result ≡ spec.number_at bounds (map string_bytes words.now) at }
    ensures within { result ≤ bounds.most }
{
    number_in(bounds, word_at(words, at)).unwrap_or(0)
}

// What words of a form ask for.
fn command_by(alloc: Global, form: Form, words: &[String]) -> Result<Command, AllocError>
    ensures { IfOk result (λ command. command ≡ spec.command_by form (map string_bytes words.now)) }
{
    match form {
        Form::Check => Ok(Command::Check {
            plan: name_at(alloc, words, 1)?,
        }),
        Form::Certify => Ok(Command::Certify {
            plan: name_at(alloc, words, 1)?,
        }),
        Form::Verify => Ok(Command::Verify {
            plan: name_at(alloc, words, 1)?,
            cert: name_at(alloc, words, 2)?,
        }),
        Form::Label => Ok(Command::Label {
            plan: name_at(alloc, words, 1)?,
            walk: None,
        }),
        Form::LabelWalk => Ok(Command::Label {
            plan: name_at(alloc, words, 1)?,
            walk: Some((
                number_at(SEED, words, 2),
                number_at(LENGTH, words, 3) as u32,
            )),
        }),
        Form::Replay => Ok(Command::Replay {
            plan: name_at(alloc, words, 1)?,
            cert: cert_at(alloc, words, 2)?,
            work: name_at(alloc, words, 3)?,
            steps: name_at(alloc, words, 4)?,
        }),
        Form::Run => Ok(Command::Run {
            plan: name_at(alloc, words, 1)?,
            cert: cert_at(alloc, words, 2)?,
            work: name_at(alloc, words, 3)?,
            seed: number_at(SEED, words, 4),
        }),
        Form::MakePlan => Ok(Command::MakePlan {
            seed: number_at(SEED, words, 1),
            size: number_at(SIZE, words, 2) as u32,
        }),
        Form::MakeWork => Ok(Command::MakeWork {
            plan: name_at(alloc, words, 1)?,
            seed: number_at(SEED, words, 2),
            replicas: number_at(REPLICAS, words, 3) as u32,
            calls: number_at(CALLS, words, 4) as u32,
        }),
        Form::MakeSteps => Ok(Command::MakeSteps {
            plan: name_at(alloc, words, 1)?,
            work: name_at(alloc, words, 2)?,
            seed: number_at(SEED, words, 3),
            rounds: number_at(ROUNDS, words, 4) as u32,
        }),
        Form::Drill => Ok(Command::Drill {
            seed: number_at(SEED, words, 1),
            size: number_at(SIZE, words, 2) as u32,
        }),
        Form::Help => Ok(Command::Help),
    }
}

/// What the words of a call ask for: what words of the first form that they are of ask for. `BadWords` exactly where they
/// are of no form, with the first place at which no word list of a form goes on with the word that stands there, or with the
/// number of words where one is missing.
#[tactic(auto, unfolding(crate::specs::Commands::command_of))]
pub fn command(alloc: Global, words: &[String]) -> Result<Command, WordsError>
    ensures asked { Answers OutOfMemory (λ command. command) (spec.command_of (map string_bytes words.now)) result }
    ensures within { IfOk result spec.IsWithin }
    ensures bad { spec.IfBad result (grammar.IsFirstBad (map string_bytes words.now)) }
{
    match form_of(words) {
        Some(form) => Ok(command_by(alloc, form, words)?),
        None => Err(WordsError::BadWords(bad_place(words))),
    }
}
