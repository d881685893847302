//! Tables of rows are read from standard input; each row is asked of the public calls, and its answer compared.
#![tactic(auto)]

mod answers;
mod calls;
mod errors;
mod journal;
mod language;
mod plans;
mod question;
mod tables;
mod texts;
mod trees;
mod trouble;
mod turns;
mod words;

use std::io;
use tables::Tables;

fn main(rt: HostRuntime) -> io::Result<()> {
    let alloc = rt.alloc();
    let mut tables = Tables::new(alloc);
    for line in rt.lines(alloc) {
        tables.read(alloc, line?.as_str())?;
    }
    let report = tables.finish(alloc)?;
    print!(rt; "{report}")?;
    Ok(())
}
