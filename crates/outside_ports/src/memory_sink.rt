ghost use Rattle.std.specs.Prelude.{◌≡◌, ℕ, ◌-◌, ◌<◌, ◌↔◌, [], min, length, IsTrue, IfOk, IsErr, ◌==◌, ◌||◌};
ghost use Rattle.std.specs.List.{list_any};
ghost use Rattle.outside_ports.specs.Calls.{Writes};
ghost use Rattle.outside_ports.specs.MemorySink.{as_sink, faults_next, CountsWrite};

use crate::sink::{Sink, SinkFault};
use std::alloc::{AllocError, Global};
use std::marker::Model;

/// A sink in memory, whose faults you choose. It tells its bytes, and takes all its memory in `new`.
#[derive(Drop)]
pub struct MemSink {
    bytes: Vec<u8>,
    room: usize,
    piece: usize,
    failing: Vec<u64>,
    calls: u64,
    faults: u64,
}

impl Model for MemSink {
    ghost use Rattle.outside_ports.specs.MemorySink.{MemorySink};

    ghost Value = { MemorySink };

    ghost use Rattle.outside_ports.specs.MemorySinkView.{memory_sink, IsReserved};

    ghost view = { memory_sink };

    ghost invariant = { IsReserved };
}

impl MemSink {
    /// A sink with room for this many bytes. A write takes at most `piece` bytes. The writes are counted from 1. The writes whose numbers
    /// are in `failing` fail, and so does each write to a full sink.
    pub fn new(
        alloc: Global,
        room: usize,
        piece: usize,
        failing: Vec<u64>,
    ) -> Result<MemSink, AllocError>
        requires { 0 < piece }
        ensures { IfOk result (λ sink.
            sink ≡ record { bytes = []; room = room; piece = piece; failing = failing.items; calls = 0; faults = 0 }) }
    {
        let bytes = Vec::with_capacity(alloc, room)?;
        Ok(MemSink {
            bytes,
            room,
            piece,
            failing,
            calls: 0,
            faults: 0,
        })
    }

    /// All bytes that were written.
    pub fn written(&self) -> &[u8]
        ensures { result.now ≡ self.now.bytes }
    {
        &self.bytes
    }
}

impl Sink for MemSink {
    ghost seen = { as_sink };

    /// A fault comes exactly if the number of this write is in `failing`, or the room is full. Any other write takes as many bytes as the
    /// least of `piece`, the length of the given bytes and the room that is left.
    fn write(&mut self, piece: &[u8]) -> Result<usize, SinkFault>
        requires { 0 < length piece.now }
        ensures counts { CountsWrite self.old self.new }
        ensures fault { (IsErr result) ↔ (IsTrue (faults_next self.old)) }
        ensures exact { IfOk result (λ n. n ≡ min (min self.old.piece (length piece.now)) (self.old.room - length self.old.bytes)) }
        ensures writes { Writes (as_sink self.old) (as_sink self.new) result piece.now }
    {
        self.calls = self.calls.saturating_add(1);
        let left = self.room - self.bytes.len();
        if is_fault(&self.failing, self.calls, left) {
            self.faults = self.faults.saturating_add(1);
            return Err(SinkFault);
        }
        let count = self.piece.min(piece.len()).min(left);
        match self.bytes.extend_from_slice(&piece[..count]) {
            Ok(()) => Ok(count),
            Err(AllocError) => unreachable!(),
        }
    }
}

/// Is the write of this number a fault, with this much room left?
fn is_fault(failing: &[u64], write: u64, left: usize) -> bool
    ensures { result ≡ (list_any (λ number. number == write) failing.now || left == 0) }
{
    failing.contains(&write) || left == 0
}
