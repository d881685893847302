//! A whole text, judged in pieces.

ghost use Rattle.std.specs.Prelude.{◌≡◌, ◌<◌, ◌++◌, length};
ghost use Rattle.std.specs.Arc.{arc_value};
ghost use Rattle.lucy_stream.specs.Verifying.{verified, Tells};

use crate::error::StreamError;
use crate::stream::Stream;
use lucy_judge::Checked;
use lucy_plan::Plan;
use std::alloc::Global;
use std::sync::Arc;

/// The greatest length of a piece.
const PIECE: usize = 4096;

// The next piece, and what stands behind it.
fn next_piece(text: &[u8]) -> (&[u8], &[u8])
    requires { 0 < length text.now }
    ensures parts { result.0.now ++ result.1.now ≡ text.now }
    ensures shorter { length result.1.now < length text.now }
{
    text.split_at(text.len().min(PIECE))
}

/// The plan as a checked one, where the text says a certificate for it that is not refused. The text is fed in pieces of
/// 4,096 bytes.
pub fn verify(alloc: Global, plan: Arc<Plan>, text: &[u8]) -> Result<Checked, StreamError>
    ensures { Tells (arc_value plan) (verified (arc_value plan) text.now) result }
{
    let mut stream = Stream::new(alloc, plan)?;
    let mut rest = text;
    while rest.len() > 0 {
        let (piece, after) = next_piece(rest);
        stream.feed(alloc, piece)?;
        rest = after;
    }
    stream.finish()
}
