//! What the project writes to: a taker of bytes that counts its writes and its faults.
//! It is no buffer, and it never tries a write again.

ghost use Rattle.std.specs.Prelude.{◌<◌, length, IfOk};
ghost use Rattle.std.specs.Io.{WritesAtMost};
ghost use Rattle.std.specs.Io.KnownBytes.{WriteAppends};
ghost use Rattle.tv_outside.specs.Seen.{Seen, IsCounted};

use crate::Failed;

/// Takes bytes in pieces, and counts its writes and those that failed.
pub trait Sink {
    // The bytes that were taken, where the sink tells them, and its counts.
    ghost seen: { Self → Seen };

    /// Takes the first bytes of `piece` and answers how many they are.
    fn write(&mut self, piece: &[u8]) -> Result<usize, Failed>
        ensures bound { WritesAtMost result piece.now }
        ensures progress { IfOk result (λ n. 0 < length piece.now → 0 < n) }
        ensures bytes { WriteAppends (seen self.old).bytes (seen self.new).bytes result piece.now }
        ensures counted { IsCounted (seen self.old) (seen self.new) result };
}
