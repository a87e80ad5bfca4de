//! A source over std's `Read`: the edge where bytes come in from outside.
//! It tells nothing of the bytes that are left. That it asks the reader once for each read is tested and not proved, since
//! std's contracts say of no read how it fails.

ghost use Rattle.std.specs.Prelude.{◌≡◌, None, OnErr};
ghost use Rattle.std.specs.Io.{ReadsAtMost};
ghost use Rattle.std.specs.Io.KnownBytes.{ReadConsumes};
ghost use Rattle.tv_outside.specs.Seen.{IsCounted};
ghost use Rattle.tv_outside.specs.Edge.{reader_of, seen_source};

use crate::reading::CHUNK;
use crate::{Failed, Source};
use std::io::Read;

/// A reader of std with a count of its reads and of its faults.
#[derive(Drop)]
pub struct StdSource<R> {
    reader: R,
    calls: u64,
    faults: u64,
}

impl<R: Read> StdSource<R> {
    /// A source over this reader, with no read and no fault yet.
    pub fn new(reader: R) -> StdSource<R>
        ensures reader { reader_of result ≡ reader }
        ensures seen { seen_source result ≡ record { bytes = None; calls = 0; faults = 0 } }
    {
        StdSource {
            reader,
            calls: 0,
            faults: 0,
        }
    }

    /// How many reads there were so far, failed ones too.
    pub fn calls(&self) -> u64
        ensures { result ≡ (seen_source self.now).calls }
    {
        self.calls
    }

    /// How many reads failed so far.
    pub fn faults(&self) -> u64
        ensures { result ≡ (seen_source self.now).faults }
    {
        self.faults
    }
}

impl<R: Read> Source for StdSource<R> {
    ghost seen = { λ s. seen_source s };

    /// Each error of the reader is a fault, an interrupted read too. The reader writes to a buffer of its own, of which the
    /// bytes that it gave are copied.
    fn read(&mut self, buf: &mut [u8]) -> Result<usize, Failed>
        ensures bound { ReadsAtMost result buf.new }
        ensures bytes { ReadConsumes None None result buf.new }
        ensures counted { IsCounted (seen_source self.old) (seen_source self.new) result }
        ensures untouched { OnErr result (buf.new ≡ buf.old) }

        ensures passed { ReadConsumes (R.remaining (reader_of self.old))
            (R.remaining (reader_of self.new)) result buf.new }
    {
        self.calls = self.calls.saturating_add(1);
        let mut given = [0; CHUNK];
        let room = buf.len().min(CHUNK);
        let Ok(count) = self.reader.read(&mut given[..room]) else {
            self.faults = self.faults.saturating_add(1);
            return Err(Failed);
        };
        buf[..count].copy_from_slice(&given[..count]);
        Ok(count)
    }
}
