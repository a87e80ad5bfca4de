//! A source over bytes in memory, which fails where it is told to.
//! It stands in for a file wherever the reads must be known; it reads nothing from outside.

ghost use Rattle.std.specs.Prelude.{◌≡◌, ◌≤◌, ◌↔◌, ◌++◌, length, take, drop, Some, IsErr, IfOk, OnErr};
ghost use Rattle.std.specs.Io.{ReadsAtMost};
ghost use Rattle.std.specs.Io.KnownBytes.{ReadConsumes};
ghost use Rattle.tv_outside.specs.Schedule.{IsDue};
ghost use Rattle.tv_outside.specs.Seen.{IsCounted};
ghost use Rattle.tv_outside.specs.Supply.{seen_supply, first_supply, given_count, after_read, after_failed_read};

use crate::schedule::Schedule;
use crate::{Failed, Source};
use std::marker::Model;

/// Bytes in memory, given in pieces.
#[derive(Drop)]
pub struct MemSource {
    bytes: Vec<u8>,
    position: usize,
    piece: usize,
    schedule: Schedule,
}

impl Model for MemSource {
    ghost use Rattle.std.specs.Prelude.{◌≤◌, drop, vec_len};
    ghost use Rattle.tv_outside.specs.Supply.{Supply};

    ghost Value = { Supply };

    ghost view = { λ s. record {
      left = drop s.position s.bytes.items;
      piece = s.piece;
      schedule = s.schedule;
    } };

    ghost invariant = { λ s. (s.position ≤ vec_len s.bytes) × (1 ≤ s.piece) };
}

impl MemSource {
    /// A source of `bytes` that gives at most `piece` of them in a read.
    ///
    /// The read with the number k, counted from 0, fails where k is in `fails`. Numbers stop at
    /// `u64::MAX`, and a read with that number never fails.
    pub fn new(bytes: Vec<u8>, piece: usize, fails: Vec<u64>) -> MemSource
        requires { 1 ≤ piece }
        ensures { result ≡ first_supply bytes.items piece fails.items }
    {
        MemSource {
            bytes,
            position: 0,
            piece,
            schedule: Schedule::new(fails),
        }
    }

    /// How many reads failed so far.
    pub fn faults(&self) -> u64
        ensures { result ≡ self.now.schedule.faults }
    {
        self.schedule.faults()
    }
}

impl Source for MemSource {
    ghost seen = { λ s. seen_supply s };

    fn read(&mut self, buf: &mut [u8]) -> Result<usize, Failed>
        ensures bound { ReadsAtMost result buf.new }
        ensures bytes { ReadConsumes (Some self.old.left) (Some self.new.left) result buf.new }
        ensures counted { IsCounted (seen_supply self.old) (seen_supply self.new) result }
        ensures untouched { OnErr result (buf.new ≡ buf.old) }

        ensures failed { IsErr result ↔ IsDue self.old.schedule }
        ensures count { IfOk result (λ n. n ≡ given_count self.old (length buf.old)) }
        ensures filled { IfOk result (λ n. buf.new ≡ take n self.old.left ++ drop n buf.old) }
        ensures ok { IfOk result (λ n. self.new ≡ after_read self.old n) }
        ensures err { OnErr result (self.new ≡ after_failed_read self.old) }
    {
        self.schedule.count_call()?;
        let left = &self.bytes[self.position..];
        let count = self.piece.min(buf.len()).min(left.len());
        buf[..count].copy_from_slice(&left[..count]);
        self.position += count;
        Ok(count)
    }
}
