//! A sink into memory of a fixed room, which fails where it is told to or where its room is used up.
//! It stands in for a file wherever the writes must be known; it writes nothing outside.

ghost use Rattle.std.specs.Prelude.{◌≡◌, ◌<◌, ◌≤◌, ◌↔◌, length, Some, IsErr, IfOk, OnErr};
ghost use Rattle.std.specs.Io.{WritesAtMost};
ghost use Rattle.std.specs.Io.KnownBytes.{WriteAppends};
ghost use Rattle.tv_outside.specs.Seen.{IsCounted};
ghost use Rattle.tv_outside.specs.Store.{seen_store, first_store, taken_count, after_write, after_failed_write, IsRefused};

use crate::schedule::Schedule;
use crate::{Failed, Sink};
use std::alloc::{AllocError, Global};
use std::marker::Model;

/// Bytes taken into memory, in pieces.
#[derive(Drop)]
pub struct MemSink {
    bytes: Vec<u8>,
    room: usize,
    piece: usize,
    schedule: Schedule,
}

impl Model for MemSink {
    ghost use Rattle.std.specs.Prelude.{◌≤◌, vec_len, vec_capacity};
    ghost use Rattle.tv_outside.specs.Store.{Store};

    ghost Value = { Store };

    ghost view = { λ s. record {
      taken = s.bytes.items;
      room = s.room;
      piece = s.piece;
      schedule = s.schedule;
    } };

    ghost invariant = { λ s. (vec_len s.bytes ≤ s.room) × (s.room ≤ vec_capacity s.bytes)
        × (1 ≤ s.piece) };
}

impl MemSink {
    /// A sink with memory for `room` bytes, all taken here, that takes at most `piece` of them in a write.
    ///
    /// The write with the number k, counted from 0, fails where k is in `fails`. Numbers stop at
    /// `u64::MAX`, and a write with that number fails only for want of room. An empty piece needs none.
    pub fn new(
        alloc: Global,
        room: usize,
        piece: usize,
        fails: Vec<u64>,
    ) -> Result<MemSink, AllocError>
        requires { 1 ≤ piece }
        ensures { IfOk result (λ sink. sink ≡ first_store room piece fails.items) }
    {
        Ok(MemSink {
            bytes: Vec::with_capacity(alloc, room)?,
            room,
            piece,
            schedule: Schedule::new(fails),
        })
    }

    /// What was taken so far.
    pub fn bytes(&self) -> &[u8]
        ensures { result.now ≡ self.now.taken }
    {
        &self.bytes
    }

    /// How many writes failed so far.
    pub fn faults(&self) -> u64
        ensures { result ≡ self.now.schedule.faults }
    {
        self.schedule.faults()
    }
}

impl Sink for MemSink {
    ghost seen = { λ s. seen_store s };

    fn write(&mut self, piece: &[u8]) -> Result<usize, Failed>
        ensures bound { WritesAtMost result piece.now }
        ensures progress { IfOk result (λ n. 0 < length piece.now → 0 < n) }
        ensures bytes { WriteAppends (Some self.old.taken) (Some self.new.taken) result piece.now }
        ensures counted { IsCounted (seen_store self.old) (seen_store self.new) result }

        ensures failed { IsErr result ↔ IsRefused self.old piece.now }
        ensures count { IfOk result (λ n. n ≡ taken_count self.old (length piece.now)) }
        ensures ok { IfOk result (λ n. self.new ≡ after_write self.old n piece.now) }
        ensures err { OnErr result (self.new ≡ after_failed_write self.old) }
    {
        self.schedule.count_call()?;
        let room = self.room - self.bytes.len();
        if room == 0 && !piece.is_empty() {
            self.schedule.count_fault();
            return Err(Failed);
        }
        let count = self.piece.min(room).min(piece.len());
        self.bytes.extend_from_slice(&piece[..count]).unwrap();
        Ok(count)
    }
}
