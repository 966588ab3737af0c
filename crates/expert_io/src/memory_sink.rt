//! A sink in memory.
ghost use Rattle.std.specs.Prelude.{◌≡◌, ◌≤◌, ◌<◌, ◌^◌, ◌-◌, ◌⊎◌, ◌↔◌, [], Some, IfOk, OnErr};
ghost use Rattle.std.specs.Prelude.{IsErr, length, min, vec_len, vec_capacity};
ghost use Rattle.std.specs.Io.KnownBytes.{WriteAppends};
ghost use Rattle.expert_io.specs.Faults.{HasCause};
ghost use Rattle.expert_io.specs.Objects.{Sunk, raised, IsListed};

use crate::lists::Calls;
use crate::sink::{Failed, Sink};
use sql_value::Memory;
use std::alloc::Global;
use std::marker::Model;

/// Holds what was written, up to a room that it took when it was made. The calls of the given
/// numbers fail, counted from 1. One write takes at most `most` bytes.
#[derive(Drop)]
pub struct MemorySink {
    held: Vec<u8>,
    room: usize,
    failing: Calls,
    most: u64,
    calls: u64,
    faults: u64,
}

impl Model for MemorySink {
    ghost Value = { Sunk };

    ghost view = { λ s. record {
      written = s.held.items;
      room = s.room;
      failing = s.failing;
      most = s.most;
      calls = s.calls;
      faults = s.faults;
    } };

    ghost invariant = { λ s. (s.room ≤ vec_capacity s.held) × (vec_len s.held ≤ s.room)
        × (1 ≤ s.most) };
}

impl MemorySink {
    /// An empty sink with room for so many bytes, which it takes here and now.
    pub fn new(alloc: Global, room: u64, failing: Calls, most: u64) -> Result<MemorySink, Memory>
        requires { 1 ≤ most }
        ensures { IfOk result
            (λ sink. sink ≡ record {
              written = [];
              room = room;
              failing = failing;
              most = most;
              calls = 0;
              faults = 0;
            }) }
    {
        let held = Vec::with_capacity(alloc, room as usize)?;
        Ok(MemorySink {
            held,
            room: room as usize,
            failing,
            most,
            calls: 0,
            faults: 0,
        })
    }

    /// What was written.
    pub fn written(&self) -> &[u8]
        ensures { result.now ≡ self.now.written }
    {
        self.held.as_slice()
    }
}

impl Sink for MemorySink {
    ghost written = { λ s. Some s.written };

    ghost faults = { λ s. s.faults };

    fn write(&mut self, piece: &[u8]) -> Result<usize, Failed>
        ensures bound { IfOk result (λ n. n ≤ length piece.now) }
        ensures some { IfOk result (λ n. 0 < length piece.now → 0 < n) }
        ensures bytes { WriteAppends (Some self.old.written)
            (Some self.new.written) result piece.now }
        ensures cause { HasCause self.old.faults self.new.faults result }
        ensures bounded { self.new.faults < 2 ^ 64 }

        // It fails exactly at a listed call, and where a piece that is not empty finds no room.
        ensures exactly { IsErr result ↔ (IsListed self.old.calls self.old.failing
            ⊎ ((length self.old.written ≡ self.old.room) × (0 < length piece.now))) }
        ensures takes { IfOk result
            (λ n. n ≡ min (min (length piece.now) (self.old.room - length self.old.written))
            self.old.most) }
        ensures fault { OnErr result (self.new.faults ≡ raised self.old.faults) }
        ensures call { self.new.calls ≡ raised self.old.calls }
    {
        self.calls = self.calls.saturating_add(1);
        let room = self.room - self.held.len();
        if self.failing.as_slice().contains(&self.calls) {
            self.faults = self.faults.saturating_add(1);
            return Err(Failed);
        }
        if room == 0 && !piece.is_empty() {
            self.faults = self.faults.saturating_add(1);
            return Err(Failed);
        }
        let n = piece.len().min(room).min(self.most as usize);
        self.held.extend_from_slice(&piece[..n]).unwrap();
        Ok(n)
    }
}
