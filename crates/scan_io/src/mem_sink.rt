ghost use Rattle.std.specs.Prelude.{◌≡◌, ◌<◌, ◌≤◌, ◌↔◌, ◌⊎◌, ◌-◌, ◌^◌, [], min, length, Some, IfOk, IsErr, IsTrue, Contains};
ghost use Rattle.std.specs.Io.{WritesAtMost};
ghost use Rattle.std.specs.Io.KnownBytes.{WriteAppends};
ghost use Rattle.scan_io.specs.Causes.{HasCause, faults_after};
ghost use Rattle.scan_io.specs.Memory.{call_after};

use crate::{Failed, NoMemory, Sink};
use std::alloc::Global;
use std::marker::Model;

/// A sink over memory. It takes at most `piece` bytes a call and `room` bytes in all. It fails the calls whose numbers,
/// from 0, are in `fails`, and those with a piece that is not empty once `room` bytes are taken; no others.
#[derive(Drop)]
pub struct MemSink {
    taken: Vec<u8>,
    room: usize,
    piece: usize,
    fails: Vec<u64>,
    calls: u128,
    faults: u64,
}

impl Model for MemSink {
    ghost use Rattle.std.specs.Prelude.{◌≤◌, vec_len, vec_capacity};
    ghost use Rattle.scan_io.specs.Memory.{Store};

    ghost Value = { Store };

    ghost view = { λ s. record { taken = s.taken.items; room = s.room; piece = s.piece; fails = s.fails.items; calls = s.calls; faults = s.faults } };

    ghost invariant = { λ s. (vec_len s.taken ≤ s.room) × (s.room ≤ vec_capacity s.taken) × (1 ≤ s.piece) };
}

impl MemSink {
    /// A sink that has taken nothing, with room for `room` bytes.
    pub fn make(
        alloc: Global,
        room: usize,
        piece: usize,
        fails: Vec<u64>,
    ) -> Result<MemSink, NoMemory>
        requires { 1 ≤ piece }
        ensures { IfOk result (λ s. s ≡ record { taken = []; room = room; piece = piece; fails = fails.items; calls = 0; faults = 0 }) }
    {
        let taken = Vec::with_capacity(alloc, room).map_err(|_| NoMemory)?;
        Ok(MemSink {
            taken,
            room,
            piece,
            fails,
            calls: 0,
            faults: 0,
        })
    }

    /// The bytes taken so far.
    pub fn bytes(&self) -> &[u8]
        ensures { result.now ≡ self.now.taken }
    {
        &self.taken
    }

    // Counts this call, and returns whether it is one of those that fail.
    fn is_failing(&mut self) -> bool
        ensures fails { IsTrue result ↔ Contains self.old.fails self.old.calls }
        ensures same { self.new ≡ record self.old { calls = call_after self.old.calls } }
    {
        let call = self.calls;
        self.calls = call.saturating_add(1);
        self.fails.iter().any(|&number| u128::from(number) == call)
    }
}

impl Sink for MemSink {
    ghost written = { λ s. Some s.taken };

    ghost faults = { λ s. s.faults };

    fn write(&mut self, piece: &[u8]) -> Result<usize, Failed>
        ensures bound { WritesAtMost result piece.now }
        ensures progress { 0 < length piece.now → IfOk result (λ n. 0 < n) }
        ensures bytes { WriteAppends (Some self.old.taken) (Some self.new.taken) result piece.now }
        ensures count { IfOk result (λ n. n ≡ min (length piece.now)
            (min self.old.piece (self.old.room - length self.old.taken))) }
        ensures fails { IsErr result ↔ (Contains self.old.fails self.old.calls
            ⊎ ((0 < length piece.now) × (self.old.room ≤ length self.old.taken))) }
        ensures same { self.new ≡ record self.old {
          taken = self.new.taken;
          calls = call_after self.old.calls;
          faults = faults_after self.old.faults result;
        } }
        ensures cause { HasCause self.old.faults self.new.faults result }
        ensures most { self.new.faults ≤ 2 ^ 64 - 1 }
    {
        let fails = self.is_failing();
        let spare = self.room - self.taken.len();
        if fails || (spare == 0 && !piece.is_empty()) {
            self.faults = self.faults.saturating_add(1);
            return Err(Failed);
        }
        let count = piece.len().min(self.piece).min(spare);
        self.taken.extend_from_slice(&piece[..count]).unwrap();
        Ok(count)
    }
}
