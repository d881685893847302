//! The words of a call.

ghost use Rattle.std.specs.Prelude.{◌≡◌, drop, IsErr, IfOk, MatchResult, MatchOption};
ghost use Rattle.std.specs.IoError.{error_kind};
ghost use Rattle.std.specs.Vec.Iter.{into_iter_items};
ghost use Rattle.lucy_io.specs.Arguments as Spec;

use std::alloc::{AllocError, Global};
use std::env::Args;
use std::io;

// The words of arguments that could not be had.
fn unread_words(alloc: Global, kind: io::ErrorKind) -> Result<Vec<String>, AllocError>
    ensures { MatchOption (Spec.unread_words kind) (IsErr result) (λ none. IfOk result (λ words. words.items ≡ none)) }
{
    match kind {
        io::ErrorKind::OutOfMemory => Err(AllocError),
        _ => Ok(Vec::new(alloc)),
    }
}

// The arguments but the first.
fn words_behind(alloc: Global, mut all: Args) -> Result<Vec<String>, AllocError>
    ensures { IfOk result (λ words. words.items ≡ drop 1 (into_iter_items all)) }
{
    all.next();
    let mut words = Vec::new(alloc);
    for word in all {
        words.push(word)?;
    }
    Ok(words)
}

/// The words of a call: the arguments but the first, which is the program's own name. Arguments that are no text are no words
/// at all; want of memory for them is want of memory here.
pub fn words_of(alloc: Global, arguments: io::Result<Args>) -> Result<Vec<String>, AllocError>
    ensures { MatchResult arguments
        (λ all. IfOk result (λ words. words.items ≡ drop 1 (into_iter_items all)))
        (λ e. MatchOption (Spec.unread_words (error_kind e)) (IsErr result) (λ none. IfOk result (λ words. words.items ≡ none))) }
{
    match arguments {
        Ok(all) => words_behind(alloc, all),
        Err(e) => unread_words(alloc, e.kind()),
    }
}
