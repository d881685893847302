//! The program: the real inputs, standard input and output, and the top call.
#![tactic(auto)]

use lucy_cluster::NoGate;
use lucy_io::{FileInputs, StreamSink, StreamSource, words_of};
use lucy_top::lucy;
use std::process::ExitCode;
use std::{env, io};

fn main(rt: HostRuntime) -> ExitCode {
    let alloc = rt.alloc();
    let Ok(words) = words_of(alloc, env::args(&rt)) else {
        return ExitCode::from(7);
    };
    let mut inputs = FileInputs::new(&rt, alloc);
    let mut source = StreamSource::new(rt.reader());
    let mut sink = StreamSink::new(io::writer(&rt));
    let ended = lucy(
        &rt,
        alloc,
        &words,
        &mut inputs,
        &mut source,
        &mut sink,
        &NoGate,
    );
    ExitCode::from(ended.status)
}
