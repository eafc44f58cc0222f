ghost use Rattle.std.specs.Prelude.{◌≡◌, ◌<◌, [], IfOk};
ghost use Rattle.outside.specs.Sink.{AnswersPut};
ghost use Rattle.outside.specs.Memory.{PutsInMemory, sink_state};

use crate::sink::{PutFailed, Sink};
use qs_values::Memory;
use std::alloc::Global;
use std::marker::Model;

/// A sink in memory. It has all its memory from the start, so a put needs no more.
#[derive(Debug, Drop)]
pub struct MemorySink {
    held: Vec<u8>,
    room: usize,
    piece: usize,
    faults: u64,
}

impl Model for MemorySink {
    ghost use Rattle.std.specs.Prelude.{◌+◌, ◌<◌, ◌≤◌, vec_len};
    ghost use Rattle.std.specs.Vec.{vec_capacity};
    ghost use Rattle.outside.specs.Memory.{SinkInMemory};

    ghost Value = { SinkInMemory };

    ghost view = { λ s. record {
      bytes = s.held.items;
      room = s.room;
      piece = s.piece;
      faults = s.faults;
    } };

    ghost invariant = { λ s. (vec_len s.held + s.room ≤ vec_capacity s.held) × (0 < s.piece) };
}

impl MemorySink {
    /// An empty sink with room for `room` bytes, of which one put takes at most `piece` bytes. A put
    /// of some bytes fails where no room is left. `Memory` is out of memory.
    pub fn new(alloc: Global, room: u32, piece: u32) -> Result<MemorySink, Memory>
        requires { 0 < piece }
        ensures { IfOk result
            (λ s. s ≡ record { bytes = []; room = room; piece = piece; faults = 0 }) }
    {
        Ok(MemorySink {
            held: Vec::with_capacity(alloc, room as usize)?,
            room: room as usize,
            piece: piece as usize,
            faults: 0,
        })
    }

    /// What was put.
    pub fn bytes(&self) -> &[u8]
        ensures { result.now ≡ self.now.bytes }
    {
        self.held.as_slice()
    }

    /// How many faults it had.
    pub fn faults(&self) -> u64
        ensures { result ≡ self.now.faults }
    {
        self.faults
    }
}

impl Sink for MemorySink {
    ghost use Rattle.outside.specs.Memory.{sink_state};

    ghost state = { sink_state };

    fn put(&mut self, piece: &[u8]) -> Result<usize, PutFailed>
        ensures meaning { AnswersPut (sink_state self.old) (sink_state self.new) piece.now result }
        ensures exact { PutsInMemory self.old self.new piece.now result }
    {
        if self.room == 0 && !piece.is_empty() {
            self.faults = self.faults.saturating_add(1);
            return Err(PutFailed);
        }
        let count = piece.len().min(self.piece.min(self.room));
        self.held
            .extend_from_slice(piece.split_at(count).0)
            .unwrap();
        self.room -= count;
        Ok(count)
    }
}
