//! What the lines of a certificate come to, one after another.

ghost use Rattle.std.specs.Prelude.{◌≡◌, IfOk};
ghost use Rattle.lucy_cert.specs.Machines as spec;

use crate::entries::{Entry, Item};
use crate::names::PartName;
use crate::steps::ProofStep;
use lucy_clauses::{Clause, Line};
use sqlite_items::Items;
use std::alloc::{AllocError, Global};

/// Where a reading stands between two lines.
#[derive(Debug, Drop)]
pub enum Place {
    /// Before the first line.
    Start,
    /// Before the first part.
    Outside,
    /// In a part, between two steps.
    Inside,
    /// In a lemma.
    Lemma {
        /// Its clause.
        clause: Clause,
        /// The lines of its derivation so far.
        lines: Items<Line>,
    },
    /// Behind the last line.
    Ended,
}

/// A reading of a certificate, line by line.
#[derive(Debug, Drop)]
pub struct Machine {
    /// Where it stands.
    pub place: Place,
    /// The name of the last part that was begun.
    pub last: Option<PartName>,
    /// Whether steps may drop clauses: the text is of the second version.
    pub drops: bool,
}

/// What a line makes of a machine, and what it completes.
#[derive(Debug, Drop)]
pub struct Moved {
    /// The machine behind the line.
    pub machine: Machine,
    /// What the line completes.
    pub item: Option<Item>,
}

impl Machine {
    /// The machine before the first line.
    pub fn new() -> Machine
        ensures { result ≡ spec.opening }
    {
        Machine {
            place: Place::Start,
            last: None,
            drops: false,
        }
    }
}

/// Whether a part stands before another one.
pub fn is_before(name: PartName, other: PartName) -> bool
    ensures { result ≡ spec.is_before name other }
{
    match (name, other) {
        (PartName::Closure(segment), PartName::Closure(later)) => segment < later,
        (PartName::Closure(_), PartName::Cover) => true,
        (PartName::Cover, _) => false,
    }
}

fn is_behind(last: Option<PartName>, name: PartName) -> bool
    ensures { result ≡ spec.is_behind last name }
{
    match last {
        Some(last) => is_before(last, name),
        None => true,
    }
}

fn went(place: Place, last: Option<PartName>, drops: bool) -> Option<Moved>
    ensures { result ≡ spec.went place last drops }
{
    Some(Moved {
        machine: Machine { place, last, drops },
        item: None,
    })
}

fn gave(place: Place, last: Option<PartName>, drops: bool, item: Item) -> Option<Moved>
    ensures { result ≡ spec.gave place last drops item }
{
    Some(Moved {
        machine: Machine { place, last, drops },
        item: Some(item),
    })
}

fn at_start(last: Option<PartName>, entry: Entry) -> Option<Moved>
    ensures { result ≡ spec.at_start last entry }
{
    match entry {
        Entry::Header(live) => gave(Place::Outside, last, live.is_some(), Item::Live(live)),
        _ => None,
    }
}

fn part_begun(last: Option<PartName>, drops: bool, name: PartName) -> Option<Moved>
    ensures { result ≡ spec.part_begun last drops name }
{
    if is_behind(last, name) {
        gave(Place::Inside, Some(name), drops, Item::Part(name))
    } else {
        None
    }
}

fn between_parts(last: Option<PartName>, drops: bool, entry: Entry) -> Option<Moved>
    ensures { result ≡ spec.between_parts last drops entry }
{
    match entry {
        Entry::Part(name) => part_begun(last, drops, name),
        Entry::End => went(Place::Ended, last, drops),
        _ => None,
    }
}

fn step_taken(last: Option<PartName>, drops: bool, step: ProofStep) -> Option<Moved>
    ensures { result ≡ spec.step_taken last drops step }
{
    gave(Place::Inside, last, drops, Item::Step(step))
}

fn inside(alloc: Global, last: Option<PartName>, drops: bool, entry: Entry) -> Option<Moved>
    ensures { result ≡ spec.inside last drops entry }
{
    match entry {
        Entry::Lemma(clause) => went(
            Place::Lemma {
                clause,
                lines: Items::new(alloc),
            },
            last,
            drops,
        ),
        Entry::Rup { clause, hints } => step_taken(last, drops, ProofStep::Rup { clause, hints }),
        Entry::Drop(clauses) => {
            if drops {
                step_taken(last, drops, ProofStep::Drop { clauses })
            } else {
                None
            }
        }
        _ => between_parts(last, drops, entry),
    }
}

fn in_lemma(
    clause: Clause,
    lines: Items<Line>,
    last: Option<PartName>,
    drops: bool,
    entry: Entry,
) -> Result<Option<Moved>, AllocError>
    ensures { IfOk result (λ m. m ≡ spec.in_lemma clause lines last drops entry) }
{
    match entry {
        Entry::Derivation(line) => {
            let mut more = lines;
            more.push(line)?;
            Ok(went(
                Place::Lemma {
                    clause,
                    lines: more,
                },
                last,
                drops,
            ))
        }
        Entry::Qed => Ok(step_taken(last, drops, ProofStep::Lemma { clause, lines })),
        _ => Ok(None),
    }
}

/// What a line makes of a machine; `None` exactly where no certificate goes on so.
#[tactic(auto, unfolding(crate::specs::Machines::entry_after))]
pub fn entry_after(
    alloc: Global,
    machine: Machine,
    entry: Entry,
) -> Result<Option<Moved>, AllocError>
    ensures { IfOk result (λ m. m ≡ spec.entry_after machine entry) }
{
    let Machine { place, last, drops } = machine;
    match place {
        Place::Start => Ok(at_start(last, entry)),
        Place::Outside => Ok(between_parts(last, drops, entry)),
        Place::Inside => Ok(inside(alloc, last, drops, entry)),
        Place::Lemma { clause, lines } => in_lemma(clause, lines, last, drops, entry),
        Place::Ended => Ok(None),
    }
}
