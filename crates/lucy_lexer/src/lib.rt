//! The tokens of a plan text.
#![tactic(auto)]

mod bytes;
mod error;
mod front;
mod laws;
mod reading;
mod token;

pub use error::LexError;
pub use laws::{
    equal_kinds, first_fault_is_told, gaps_are_skipped, longest_is_taken, slices_are_spelled,
    spaced_tokens_are_read, spans_ascend,
};
pub use reading::lex;
pub use token::{Token, TokenKind, is_kind, written};
