//! The top call: from the words of a command and its inputs to the status and the text.
#![tactic(auto)]

mod alone_runs;
mod answering;
mod calling;
mod checking;
mod conversing;
mod counting;
mod drilling;
mod fetching;
mod hearing;
mod judging;
mod labelling;
mod laws;
mod loading;
mod making;
mod replaying;
mod running;
mod said;
mod texts;
mod threaded_runs;
mod threads;
mod verifying;

pub use answering::{Ended, answer};
pub use calling::lucy;
pub use laws::{
    certified_is_verified, good_inputs_come_to_their_verdict, lines_join, status_tells_confluence,
    status_tells_soundness,
};
