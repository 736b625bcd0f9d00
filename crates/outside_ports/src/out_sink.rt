ghost use Rattle.std.specs.Prelude.{◌≡◌, ◌<◌, [], length, Some};
ghost use Rattle.std.specs.Io.KnownBytes.{WriteAppends};
ghost use Rattle.outside_ports.specs.Calls.{Writes};
ghost use Rattle.outside_ports.specs.Openings.{FollowsWrite, faults_called};
ghost use Rattle.outside_ports.specs.Ports.{uncounted};

use crate::history::{History, Note};
use crate::sink::{Sink, SinkFault};
use std::io::{self, Write};

/// A writer, such as standard output. It tells the bytes that the writer took, and counts no writes.
///
/// A call makes at most one write of the writer. An error of that write raises the count of faults, and so does a write that took no byte.
#[derive(Drop)]
pub struct OutSink<W: Write + Drop> {
    out: W,
    faults: u64,
    history: History,
}

impl<W: Write + Drop> OutSink<W> {
    /// A sink over this writer, to which nothing was written yet.
    pub fn new(out: W) -> OutSink<W>
        ensures calm { (⟦<OutSink<W> as Sink>⟧.seen result).faults ≡ 0 }
        ensures empty { (⟦<OutSink<W> as Sink>⟧.seen result).written ≡ Some [] }
    {
        OutSink {
            out,
            faults: 0,
            history: History::new(),
        }
    }
}

impl<W: Write + Drop> Sink for OutSink<W> {
    ghost seen = { λ s. uncounted s.history.past.written s.faults };

    /// Each write passes exactly this piece to the writer (`passes`). A write that took no byte is a fault. Each fault is counted.
    fn write(&mut self, piece: &[u8]) -> Result<usize, SinkFault>
        requires { 0 < length piece.now }
        ensures counts { self.new.faults ≡ faults_called self.old.faults result }
        ensures passes { WriteAppends (W.contents self.old.out) (W.contents self.new.out) result piece.now }
        ensures writes { Writes (uncounted self.old.history.past.written self.old.faults)
            (uncounted self.new.history.past.written self.new.faults) result piece.now }
    {
        let answer = self.out.write(piece);
        let result = bytes_taken(answer);
        match result {
            Ok(count) => self.history = self.history.with(&Note::Took(&piece[..count])),
            Err(SinkFault) => self.faults = self.faults.saturating_add(1),
        }
        result
    }
}

/// The answer for a write of the writer. One that took no byte is a fault.
fn bytes_taken(answer: io::Result<usize>) -> Result<usize, SinkFault>
    ensures { FollowsWrite answer result }
{
    match answer {
        Ok(count) if count > 0 => Ok(count),
        _ => Err(SinkFault),
    }
}
