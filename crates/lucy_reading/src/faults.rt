//! The line of each fault.

ghost use Rattle.std.specs.Prelude.{◌≡◌};
ghost use Rattle.lucy_reading.specs.Faults as spec;
ghost use Rattle.lucy_reading.specs.Outcomes.{Tells};

use crate::lines::{bad_byte, bad_count, bad_line};
use crate::refusal::Refusal;
use lucy_calls::CallsError;
use lucy_elaborate::ElabError;
use lucy_lexer::LexError;
use lucy_plan::What;
use lucy_syntax::SyntaxError;
use std::alloc::Global;

// The word for what a limit counts.
fn word_of(what: What) -> &'static str
    ensures { result.now ≡ spec.word_of what }
{
    match what {
        What::Bytes => "bytes",
        What::Leaves => "leaves",
        What::Coefficient => "coefficient",
        What::Constant => "constant",
        What::Conditions => "conditions",
        What::Transactions => "transactions",
        What::Arguments => "arguments",
        What::Segments => "segments",
        What::Points => "points",
        What::Depth => "depth",
        What::Replicas => "replicas",
        What::Calls => "calls",
    }
}

/// The refusal of an input with more bytes than its limit.
#[tactic(auto, unfolding(crate::specs::Faults::too_long))]
pub fn too_long(alloc: Global, name: &str, most: u32) -> Refusal
    ensures { Tells (spec.too_long name.now most) result }
{
    bad_count(alloc, name, u64::from(most) + 1, "bytes")
}

// The refusal of a plan text that cannot be read as tokens.
fn refuse_lexing(alloc: Global, name: &str, fault: LexError) -> Refusal
    ensures { Tells (spec.lexing_line name.now fault) result }
{
    match fault {
        LexError::BadByte(at) => bad_byte(alloc, name, at, "byte"),
        LexError::LongNumber(at) => bad_byte(alloc, name, at, "long number"),
        LexError::LongName(at) => bad_byte(alloc, name, at, "long name"),
        LexError::OutOfMemory => Refusal::OutOfMemory,
    }
}

/// The refusal of a plan text that has no tree.
pub fn refuse_syntax(alloc: Global, name: &str, fault: SyntaxError) -> Refusal
    ensures line { Tells (spec.syntax_line name.now fault) result }
    ensures memory { fault ≡ SyntaxError.OutOfMemory → result ≡ Refusal.OutOfMemory }
{
    match fault {
        SyntaxError::Lex(fault) => refuse_lexing(alloc, name, fault),
        SyntaxError::Syntax(at) => bad_byte(alloc, name, at, "syntax"),
        SyntaxError::TooDeep(at) => bad_byte(alloc, name, at, "too deep"),
        SyntaxError::OutOfMemory => Refusal::OutOfMemory,
    }
}

/// The refusal of a tree that gives no plan.
pub fn refuse_elaboration(alloc: Global, name: &str, fault: ElabError) -> Refusal
    ensures line { Tells (spec.elaboration_line name.now fault) result }
    ensures memory { fault ≡ ElabError.OutOfMemory → result ≡ Refusal.OutOfMemory }
{
    match fault {
        ElabError::Version(at) => bad_byte(alloc, name, at, "version"),
        ElabError::UnknownName(at) => bad_byte(alloc, name, at, "unknown name"),
        ElabError::Twice(at) => bad_byte(alloc, name, at, "twice"),
        ElabError::Kind(at) => bad_byte(alloc, name, at, "kind"),
        ElabError::NotLinear(at) => bad_byte(alloc, name, at, "not linear"),
        ElabError::Range(at) => bad_byte(alloc, name, at, "range"),
        ElabError::BadStart(at) => bad_byte(alloc, name, at, "start"),
        ElabError::Limit { what, count } => bad_count(alloc, name, count, word_of(what)),
        ElabError::OutOfMemory => Refusal::OutOfMemory,
    }
}

/// The refusal of a work text or of a step script. `form` is the word for a line
/// that has not the form that its place needs.
pub fn refuse_calls(alloc: Global, form: &str, name: &str, fault: CallsError) -> Refusal
    ensures line { Tells (spec.calls_line form.now name.now fault) result }
    ensures memory { fault ≡ CallsError.OutOfMemory → result ≡ Refusal.OutOfMemory }
{
    match fault {
        CallsError::BadLine(at) => bad_line(alloc, name, at, form),
        CallsError::BadReplica(at) => bad_line(alloc, name, at, "replica"),
        CallsError::UnknownTxn(at) => bad_line(alloc, name, at, "transaction"),
        CallsError::BadArgument(at) => bad_line(alloc, name, at, "argument"),
        CallsError::Limit { what, count } => bad_count(alloc, name, count, word_of(what)),
        CallsError::OutOfMemory => Refusal::OutOfMemory,
    }
}
