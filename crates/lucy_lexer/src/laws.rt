//! Laws on kinds and on the tokens of a text.

ghost use Rattle.lucy_lexer.specs.Laws as spec;

/// Two kinds that `is_kind` calls the same are equal.
pub fn equal_kinds()
    ensures { spec.EqualKinds }
{}

/// Each token has a byte at least and begins where the one before it ends or later; the last ends within the text.
pub fn spans_ascend()
    ensures { spec.SpansAscend }
{}

/// The bytes that a token stands on spell a token of its kind.
pub fn slices_are_spelled()
    ensures { spec.SlicesAreSpelled }
{}

/// No longer token is spelled at the place of a token.
pub fn longest_is_taken()
    ensures { spec.LongestIsTaken }
{}

/// What stands before, between and after the tokens is blanks and comments.
pub fn gaps_are_skipped()
    ensures { spec.GapsAreSkipped }
{}

/// Tokens that are written with a space or an LF after each are read as they were written.
pub fn spaced_tokens_are_read()
    ensures { spec.SpacedTokensAreRead }
{}

/// All that stands before the place of the fault that is told can be read, and what stands there
/// cannot, for the reason that is told.
pub fn first_fault_is_told()
    ensures { spec.FirstFaultIsTold }
{}
