//! Questions about the texts of errors.

use crate::trouble::Trouble;
use lucy_calls::CallsError;
use lucy_elaborate::ElabError;
use lucy_lexer::LexError;
use lucy_plan::What;
use lucy_syntax::SyntaxError;
use std::alloc::{AllocError, Global};
use std::fmt::Display;

// Errors of places have place 7, errors of lines have line 7, and counts are 7.

fn of_words(name: &str) -> Option<LexError> {
    match name {
        "words, bad byte" => Some(LexError::BadByte(7)),
        "words, long number" => Some(LexError::LongNumber(7)),
        "words, long name" => Some(LexError::LongName(7)),
        "words, no memory" => Some(LexError::OutOfMemory),
        _ => None,
    }
}

fn of_grammar(name: &str) -> Option<SyntaxError> {
    match name {
        "grammar, bad byte" => Some(SyntaxError::Lex(LexError::BadByte(7))),
        "grammar, syntax" => Some(SyntaxError::Syntax(7)),
        "grammar, too deep" => Some(SyntaxError::TooDeep(7)),
        "grammar, no memory" => Some(SyntaxError::OutOfMemory),
        _ => None,
    }
}

fn of_meaning(name: &str) -> Option<ElabError> {
    match name {
        "meaning, version" => Some(ElabError::Version(7)),
        "meaning, unknown name" => Some(ElabError::UnknownName(7)),
        "meaning, twice" => Some(ElabError::Twice(7)),
        "meaning, kind" => Some(ElabError::Kind(7)),
        "meaning, not linear" => Some(ElabError::NotLinear(7)),
        "meaning, range" => Some(ElabError::Range(7)),
        "meaning, start" => Some(ElabError::BadStart(7)),
        "meaning, limit" => Some(ElabError::Limit {
            what: What::Leaves,
            count: 7,
        }),
        "meaning, no memory" => Some(ElabError::OutOfMemory),
        _ => None,
    }
}

fn of_calls(name: &str) -> Option<CallsError> {
    match name {
        "calls, line" => Some(CallsError::BadLine(7)),
        "calls, replica" => Some(CallsError::BadReplica(7)),
        "calls, transaction" => Some(CallsError::UnknownTxn(7)),
        "calls, argument" => Some(CallsError::BadArgument(7)),
        "calls, limit" => Some(CallsError::Limit {
            what: What::Replicas,
            count: 7,
        }),
        "calls, no memory" => Some(CallsError::OutOfMemory),
        _ => None,
    }
}

fn put<E: Display + Copy>(out: &mut String, alloc: Global, error: E) -> Result<(), AllocError> {
    let text = error.to_string(alloc)?;
    out.push_str(&text)
}

/// The text of an error, which is asked for by what is read and why it is refused.
pub fn error(out: &mut String, alloc: Global, name: &str) -> Result<(), Trouble> {
    if let Some(error) = of_words(name) {
        put(out, alloc, error)?;
    } else if let Some(error) = of_grammar(name) {
        put(out, alloc, error)?;
    } else if let Some(error) = of_meaning(name) {
        put(out, alloc, error)?;
    } else if let Some(error) = of_calls(name) {
        put(out, alloc, error)?;
    } else {
        return Err(Trouble::NotUnderstood);
    }
    Ok(())
}
