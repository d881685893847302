ghost use Rattle.std.specs.Prelude.{◌≡◌, ℕ, List, OnOk, OnErr, length, min, take};
ghost use Rattle.std.specs.Io.KnownBytes.{Appends};
ghost use Rattle.lucy_io.specs.Faults.{HasCause};
ghost use Rattle.lucy_io.specs.Pieces.{IsProperFront};

use crate::{Fault, Sink};

// The most bytes that are given at once.
const PIECE: usize = 4096;

// The next piece of what is left of a text: its first 4,096 bytes, or all where it has no more.
fn piece(left: &[u8]) -> &[u8]
    ensures size { length result.now ≡ min 4096 (length left.now) }
    ensures front { result.now ≡ take (length result.now) left.now }
{
    let size = left.len().min(PIECE);
    &left[..size]
}

/// Gives the whole text, in pieces of at most 4,096 bytes, and takes no memory.
/// At a `Fault` the sink has taken a part at its front, not the whole, and its count of faults rose.
pub fn give_all<K: Sink>(sink: &mut K, text: &[u8]) -> Result<(), Fault>
    ensures ok { OnOk result (Appends (K.held sink.old) (K.held sink.new) text.now) }
    ensures fault { OnErr result ((front : List ℕ) × IsProperFront front text.now × Appends (K.held sink.old) (K.held sink.new) front) }
    ensures cause { HasCause (K.faults sink.old) (K.faults sink.new) result }
{
    let mut at = 0;
    while at < text.len() {
        at += sink.give(piece(&text[at..]))?;
    }
    Ok(())
}
