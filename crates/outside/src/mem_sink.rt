//! A sink in memory, which fails at given calls.
ghost use Rattle.std.specs.Prelude.{◌≡◌, ◌≤◌, ◌<◌, ◌^◌, IfOk};
ghost use Rattle.outside.specs.Sinks.{WriteGives};
ghost use Rattle.outside.specs.InMemory.{WritesStored, sink_state, unused_sink};

use crate::failing::fails;
use crate::{Failed, Sink};
use std::alloc::{AllocError, Global};
use std::marker::Model;

/// A sink in memory with a fixed room, and with the numbers of the calls that fail.
///
/// Contracts see the bytes written, the room in all, how many bytes a write takes at most, the
/// numbers of the calls that fail, how many calls were made and how many failed.
#[derive(Drop)]
pub struct MemSink {
    bytes: Vec<u8>,
    room: usize,
    piece: usize,
    failing: Vec<u64>,
    calls: u64,
    faults: u64,
}

impl Model for MemSink {
    ghost use Rattle.std.specs.Prelude.{◌≤◌, vec_len, vec_capacity};
    ghost use Rattle.outside.specs.InMemory.{StoredSink};

    ghost Value = { StoredSink };

    ghost view = { λ m. record {
      bytes = m.bytes.items;
      room = m.room;
      piece = m.piece;
      failing = m.failing.items;
      calls = m.calls;
      faults = m.faults;
    } };

    ghost invariant = { λ m.
        (1 ≤ m.piece) × (vec_len m.bytes ≤ m.room) × (m.room ≤ vec_capacity m.bytes) };
}

impl MemSink {
    /// An empty sink with room for `room` bytes. The memory for them is taken here. The only error
    /// is that memory runs out.
    ///
    /// A write takes at most `piece` bytes, which is at least 1. Writes are counted from 1, and the
    /// number stays at `u64::MAX` once it is reached. A write fails exactly if its number is in
    /// `failing`, or if no room is left and its piece is not empty.
    pub fn make(
        alloc: Global,
        room: usize,
        piece: usize,
        failing: Vec<u64>,
    ) -> Result<MemSink, AllocError>
        requires { 1 ≤ piece }
        ensures { IfOk result (λ sink. sink ≡ unused_sink room piece failing.items) }
    {
        Ok(MemSink {
            bytes: Vec::with_capacity(alloc, room)?,
            room,
            piece,
            failing,
            calls: 0,
            faults: 0,
        })
    }

    /// The bytes written so far.
    pub fn bytes(&self) -> &[u8]
        ensures { result.now ≡ self.now.bytes }
    {
        &self.bytes
    }
}

impl Sink for MemSink {
    ghost state = { sink_state };

    fn write(&mut self, piece: &[u8]) -> Result<usize, Failed>
        ensures stays { (sink_state self.old).faults ≤ (sink_state self.new).faults }
        ensures bounded { (sink_state self.new).faults < 2 ^ 64 }
        ensures gives { WriteGives (sink_state self.old) piece.now result (sink_state self.new) }

        // The result and the whole state afterwards, by the number of the call, the piece and the
        // room.
        ensures exact { WritesStored self.old piece.now result self.new }
    {
        if fails(&mut self.calls, &mut self.faults, &self.failing) {
            return Err(Failed);
        }
        let left = self.room - self.bytes.len();
        if left == 0 && !piece.is_empty() {
            self.faults = self.faults.saturating_add(1);
            return Err(Failed);
        }
        let count = piece.len().min(self.piece.min(left));
        match self.bytes.extend_from_slice(&piece[..count]) {
            Ok(()) => Ok(count),
            Err(_) => unreachable!(),
        }
    }
}
