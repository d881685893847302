//! Certificates: proofs that refute formulas, when a proof does so, and the text of a certificate.
#![tactic(auto)]

mod bytes;
mod certificate;
mod cutting;
mod entries;
mod entry_lines;
mod error;
mod laws;
mod machine;
mod names;
mod numbers;
mod reader;
mod reading;
mod state;
mod steps;
mod tokens;
mod writing;

pub use bytes::Bytes;
pub use certificate::Certificate;
pub use entries::{Entry, Item};
pub use entry_lines::read_entry;
pub use error::CertError;
pub use laws::{
    bad_lines_stop, cuts_do_not_matter, lines_are_written, read_is_written_back, refutes_exactly,
    steps_go_on, texts_go_on, written_is_read_back,
};
pub use machine::{Machine, Moved, Place, entry_after};
pub use names::PartName;
pub use numbers::ClauseNumbers;
pub use reader::{MOST_BYTES, Phase, Reader};
pub use reading::read;
pub use state::{State, Taker, text_after};
pub use steps::{Proof, ProofStep, Why};
pub use writing::write;
