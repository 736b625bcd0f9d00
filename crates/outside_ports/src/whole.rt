ghost use Rattle.std.specs.Prelude.{◌≡◌, ℕ, ◌+◌, ◌-◌, ◌≤◌, length, Result, is_some, IfOk, IsOk, OnOk, OnErr, IsErrOf};
ghost use Rattle.std.specs.Io.KnownBytes.{Appends};
ghost use Rattle.outside_ports.specs.Counts.{Rose};
ghost use Rattle.outside_ports.specs.Names.{IsNamed, IsLonger, IsAbsent};
ghost use Rattle.outside_ports.specs.Prefix.{AppendsPart};
ghost use Rattle.outside_ports.specs.Answers.{FollowsStart};
ghost use Rattle.outside_ports.specs.Loads.{Leaves, LeavesBegun, LoadsFrom, ReadsAll};
ghost use Rattle.outside_ports.specs.declared.shelf.ShelfFault.{ShelfFault};

use crate::shelf::{Shelf, ShelfFault};
use crate::sink::{Sink, SinkFault};
use std::alloc::{AllocError, Global};
use thiserror::Error;

/// The most bytes that an input may have: 64 MiB.
pub const GREATEST_INPUT_BYTES: usize = 67_108_864;

/// Why an input was not loaded.
#[derive(Clone, Copy, Debug, PartialEq, Eq, Error)]
pub enum LoadFault {
    /// The shelf has no input of this name.
    #[error("there is no such input")]
    Absent,
    /// The shelf failed, and its count of faults rose.
    #[error("the input could not be read")]
    Read,
    /// The input has more than 67,108,864 bytes.
    #[error("the input is longer than 67,108,864 bytes")]
    TooLong,
    /// Memory ran out.
    #[error("no memory is left")]
    Memory,
}

impl From<AllocError> for LoadFault {
    ghost use Rattle.outside_ports.specs.declared.whole.LoadFault.TheVariants.{Memory};

    ghost from_gives = { λ _ fault. fault ≡ Memory };

    fn from(_error: AllocError) -> LoadFault {
        LoadFault::Memory
    }
}

/// Loads the named input: all of its bytes, read to the end.
///
/// `Absent` comes exactly if the shelf's `start` answered so. `Read` comes only if the shelf's count of faults rose in this call. `TooLong`
/// comes exactly if more than [`GREATEST_INPUT_BYTES`] bytes were given. Want of memory leaves the count as it was, and so does success: a
/// counted fault is always answered as one. After an error the shelf is as its last call left it. If a shelf counts its calls, there are at
/// most two more of them than an input may have bytes.
///
/// The shelf's readings get one more, of this name. The result is what that reading gave, from its start to its end (`leaves`).
pub fn load<S: Shelf>(alloc: Global, shelf: &mut S, name: &str) -> Result<Vec<u8>, LoadFault>
    ensures whole { IfOk result (λ bytes. IsNamed (S.seen shelf.old).names name.now bytes.items) }
    ensures loads { LoadsFrom (S.seen shelf.old) (S.seen shelf.new) result }
    ensures absent { IsErrOf result LoadFault.Absent → IsAbsent (S.seen shelf.old).names name.now (S.seen shelf.old).faults (S.seen shelf.new).faults }
    ensures started { (answer : Result (Unit {0}) ShelfFault) × (mid : S) × S.start_gives shelf.old name.now answer mid
        × FollowsStart answer result }
    ensures leaves { Leaves result name.now (S.seen shelf.old).readings (S.seen shelf.new).readings }
    ensures longer { IsErrOf result LoadFault.TooLong → IsLonger (S.seen shelf.old).names name.now GREATEST_INPUT_BYTES }
    ensures few_calls { (S.seen shelf.new).calls ≤ (S.seen shelf.old).calls + (GREATEST_INPUT_BYTES + 2) }
{
    match shelf.start(name) {
        Ok(()) => read_all(alloc, shelf),
        Err(ShelfFault::Absent) => Err(LoadFault::Absent),
        Err(ShelfFault::Failed) => Err(LoadFault::Read),
        Err(ShelfFault::Memory) => Err(LoadFault::Memory),
    }
}

/// The rest of the started input, from a shelf that has given none of it yet.
fn read_all<S: Shelf>(alloc: Global, shelf: &mut S) -> Result<Vec<u8>, LoadFault>
    requires { (S.seen shelf.old).given ≡ 0 }
    ensures reads { ReadsAll (S.seen shelf.old) (S.seen shelf.new) result }
    ensures leaves { LeavesBegun result (S.seen shelf.old).readings (S.seen shelf.new).readings }
{
    let mut bytes = Vec::new(alloc);
    let mut buffer = [0u8; 4096];
    loop {
        let count = match shelf.read(&mut buffer) {
            Ok(count) => count,
            Err(_) => return Err(LoadFault::Read),
        };
        if count == 0 {
            return Ok(bytes);
        }
        if count > GREATEST_INPUT_BYTES - bytes.len() {
            return Err(LoadFault::TooLong);
        }
        bytes.extend_from_slice(&buffer[..count])?;
    }
}

/// Writes the whole text.
///
/// An error comes only if the sink's count of faults rose in this call. The sink has then taken a proper prefix of the text. If a sink
/// counts its writes, there is at most one for each byte.
pub fn put_all<K: Sink>(sink: &mut K, text: &[u8]) -> Result<(), SinkFault>
    ensures whole { OnOk result (Appends (K.seen sink.old).written (K.seen sink.new).written text.now) }
    ensures part { OnErr result (AppendsPart (K.seen sink.old).written (K.seen sink.new).written text.now) }
    ensures failed { OnErr result (Rose (K.seen sink.old).faults (K.seen sink.new).faults) }
    ensures tells { is_some (K.seen sink.new).written ≡ is_some (K.seen sink.old).written }
    ensures later { (K.seen sink.old).faults ≤ (K.seen sink.new).faults }
    ensures few_calls { (K.seen sink.new).calls ≤ (K.seen sink.old).calls + length text.now }
    ensures takes { length text.now ≤ (K.seen sink.old).room
        → IsOk result × ((K.seen sink.old).room ≤ (K.seen sink.new).room + length text.now)
        × ((K.seen sink.new).faults ≡ (K.seen sink.old).faults) }
{
    let mut sent = 0;
    while sent < text.len() {
        match sink.write(&text[sent..]) {
            Ok(count) => sent += count,
            Err(SinkFault) => return Err(SinkFault),
        }
    }
    Ok(())
}
