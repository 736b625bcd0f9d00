ghost use Rattle.std.specs.Prelude.{◌<◌, length};
ghost use Rattle.outside_ports.specs.Calls.{Writes};
ghost use Rattle.outside_ports.specs.Ports.{SinkDef};

use thiserror::Error;

/// A write took no byte, and the sink's count of faults says so.
#[derive(Clone, Copy, Debug, PartialEq, Eq, Error)]
#[error("the text could not be written")]
pub struct SinkFault;

/// A place to which text is written, one piece after another.
///
/// A contract sees of it (`seen`) the bytes written, if it tells them (`written`), and a count of faults that never falls, and stays at
/// 2^64 - 1 once it is there (`faults`). Whether it tells the bytes never changes.
///
/// A sink may also count its writes (`calls`), and promise to take this many more bytes with no fault (`room`). If it counts none, `calls`
/// stays 0, and a bound on writes says nothing of it.
pub trait Sink {
    ghost seen: { Self → SinkDef };

    /// Appends 1 byte or more from the front of the piece, and says how many. An error comes only if the count of faults rose, and then
    /// nothing was appended. The record `Writes` (`specs/Calls.antt`) has a field for each of these.
    fn write(&mut self, piece: &[u8]) -> Result<usize, SinkFault>
        requires { 0 < length piece.now }
        ensures writes { Writes (seen self.old) (seen self.new) result piece.now };
}
