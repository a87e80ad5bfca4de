//! What the project reads from: a giver of bytes that counts its reads and its faults.
//! It is no buffer, and it never tries a read again.

ghost use Rattle.std.specs.Prelude.{◌≡◌, OnErr};
ghost use Rattle.std.specs.Io.{ReadsAtMost};
ghost use Rattle.std.specs.Io.KnownBytes.{ReadConsumes};
ghost use Rattle.tv_outside.specs.Seen.{Seen, IsCounted};

use crate::Failed;

/// Gives bytes in pieces, and counts its reads and those that failed.
pub trait Source {
    // The bytes that are left, where the source tells them, and its counts.
    ghost seen: { Self → Seen };

    /// Puts the next bytes at the front of `buf` and answers how many they are.
    ///
    /// It answers 0 to a buffer that is not empty only at the end. A failed read leaves `buf` as it was.
    fn read(&mut self, buf: &mut [u8]) -> Result<usize, Failed>
        ensures bound { ReadsAtMost result buf.new }
        ensures bytes { ReadConsumes (seen self.old).bytes (seen self.new).bytes result buf.new }
        ensures counted { IsCounted (seen self.old) (seen self.new) result }
        ensures untouched { OnErr result (buf.new ≡ buf.old) };
}
