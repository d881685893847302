//! The lines of a source, read one by one.
//!
//! One byte is taken at a time, so that nothing is taken past the line that is needed.

ghost use Rattle.std.specs.Prelude.{◌≤◌, ◌≡◌};
ghost use Rattle.lucy_top.specs.Hearing.{Hears};

use lucy_io::Source;
use std::alloc::Global;

// The most bytes of a line.
const MOST_LINE: usize = 65536;

/// What is heard where a line is needed.
#[derive(Drop)]
pub enum Heard {
    /// A line without its LF, and whether the input is over behind it: then it had none.
    Line { bytes: Vec<u8>, over: bool },
    /// The input is over.
    End,
    /// The line passes a limit: one more than the limit that is passed at the earlier byte.
    Long(u64),
    /// The source could not be read.
    Fault,
    /// Memory ran out.
    OutOfMemory,
}

/// The next line of a source. `room` is how many more bytes of the input are within its limit.
pub fn hear<S: Source>(alloc: Global, source: &mut S, room: &mut u32) -> Heard
    ensures hears { Hears (S.left source.old) (S.left source.new) (S.faults source.old) (S.faults source.new) room.old room.new result }
    ensures later { S.faults source.old ≤ S.faults source.new }
    ensures room { room.new ≤ room.old }
{
    let mut bytes = Vec::new(alloc);
    loop {
        let mut byte = [0u8];
        match source.take(&mut byte) {
            Err(_) => return Heard::Fault,
            Ok(0) => {
                if bytes.is_empty() {
                    return Heard::End;
                }
                return Heard::Line { bytes, over: true };
            }
            Ok(_) => {}
        }
        let byte = byte[0];
        if byte != b'\n' && bytes.len() >= MOST_LINE {
            return Heard::Long(65537);
        }
        if *room == 0 {
            return Heard::Long(1048577);
        }
        *room -= 1;
        if byte == b'\n' {
            return Heard::Line { bytes, over: false };
        }
        match bytes.push(byte) {
            Ok(()) => {}
            Err(_) => return Heard::OutOfMemory,
        }
    }
}
