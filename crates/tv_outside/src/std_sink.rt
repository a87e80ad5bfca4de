//! A sink over std's `Write`: the edge where bytes go outside.
//! It tells nothing of the bytes that were taken, and it keeps none back, since it flushes after each write. That it asks
//! the writer once for each write, and flushes last, is tested and not proved, since std's contracts say of no write how it
//! fails.

ghost use Rattle.std.specs.Prelude.{◌≡◌, ◌<◌, None, length, IfOk};
ghost use Rattle.std.specs.Io.{WritesAtMost};
ghost use Rattle.std.specs.Io.KnownBytes.{WriteAppends};
ghost use Rattle.tv_outside.specs.Seen.{IsCounted};
ghost use Rattle.tv_outside.specs.Edge.{writer_of, seen_sink, Passes};

use crate::{Failed, Sink};
use std::io;
use std::io::Write;

/// A writer of std with a count of its writes and of its faults.
#[derive(Drop)]
pub struct StdSink<W> {
    writer: W,
    calls: u64,
    faults: u64,
}

impl<W: Write> StdSink<W> {
    /// A sink over this writer, with no write and no fault yet.
    pub fn new(writer: W) -> StdSink<W>
        ensures writer { writer_of result ≡ writer }
        ensures seen { seen_sink result ≡ record { bytes = None; calls = 0; faults = 0 } }
    {
        StdSink {
            writer,
            calls: 0,
            faults: 0,
        }
    }

    /// How many writes there were so far, failed ones too.
    pub fn calls(&self) -> u64
        ensures { result ≡ (seen_sink self.now).calls }
    {
        self.calls
    }

    /// How many writes failed so far.
    pub fn faults(&self) -> u64
        ensures { result ≡ (seen_sink self.now).faults }
    {
        self.faults
    }
}

impl<W: Write> Sink for StdSink<W> {
    ghost seen = { λ s. seen_sink s };

    /// A fault is an error of the writer, a flush that fails, or a write of a piece that is not
    /// empty which takes 0 bytes.
    fn write(&mut self, piece: &[u8]) -> Result<usize, Failed>
        ensures bound { WritesAtMost result piece.now }
        ensures progress { IfOk result (λ n. 0 < length piece.now → 0 < n) }
        ensures bytes { WriteAppends None None result piece.now }
        ensures counted { IsCounted (seen_sink self.old) (seen_sink self.new) result }

        ensures passed { Passes (W.contents (writer_of self.old))
            (W.contents (writer_of self.new)) result piece.now }
    {
        self.calls = self.calls.saturating_add(1);
        match write_through(&mut self.writer, piece) {
            Ok(count) if count > 0 || piece.is_empty() => Ok(count),
            _ => {
                self.faults = self.faults.saturating_add(1);
                Err(Failed)
            }
        }
    }
}

// One write, and the flush after it.
fn write_through<W: Write>(writer: &mut W, piece: &[u8]) -> io::Result<usize>
    ensures bound { WritesAtMost result piece.now }
    ensures passed { Passes (W.contents writer.old) (W.contents writer.new) result piece.now }
{
    let count = writer.write(piece)?;
    writer.flush()?;
    Ok(count)
}
