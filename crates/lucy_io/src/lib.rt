//! What the program reads and writes: inputs by name, a source of bytes and a sink of bytes, as traits that tell
//! their contents where these are known and count their faults; their forms in memory and over the real things;
//! and whole numbers as decimal text.
#![tactic(auto)]

mod arguments;
mod decimals;
mod files;
mod giving;
mod inputs;
mod laws;
mod memory_inputs;
mod memory_sink;
mod memory_source;
mod noting;
mod sink;
mod source;
mod streams;
mod writing;

pub use arguments::words_of;
pub use decimals::{read_decimal, write_decimal};
pub use files::FileInputs;
pub use giving::give_all;
pub use inputs::{Ending, FetchError, Inputs};
pub use laws::{fetch_counts_failures, read_is_written, written_is_read};
pub use memory_inputs::MemoryInputs;
pub use memory_sink::MemorySink;
pub use memory_source::MemorySource;
pub use sink::Sink;
pub use source::{Fault, Source};
pub use streams::{StreamSink, StreamSource};
pub use writing::{write_count, write_number, write_text};
