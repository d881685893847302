ghost use Rattle.std.specs.Prelude.{ℕ, ◌<◌, ◌≤◌, List, length, Option, IfOk};
ghost use Rattle.std.specs.Io.KnownBytes.{WriteAppends};
ghost use Rattle.lucy_io.specs.Faults.{HasCause};

use crate::Fault;

/// A sink of bytes.
pub trait Sink {
    /// The bytes that are held, where they are known.
    ghost held: { Self → Option (List ℕ) };

    /// How often a write has failed. It never falls, and stands still at 2^64 - 1.
    ghost faults: { Self → ℕ };

    /// Appends the first bytes of `piece`, and says how many: at least 1.
    /// A `Fault` appends nothing, and comes only where the count of faults rose.
    fn give(&mut self, piece: &[u8]) -> Result<usize, Fault>
        requires { 0 < length piece.now }
        ensures bound { IfOk result (λ n. (0 < n) × (n ≤ length piece.now)) }
        ensures bytes { WriteAppends (held self.old) (held self.new) result piece.now }
        ensures cause { HasCause (faults self.old) (faults self.new) result };
}
