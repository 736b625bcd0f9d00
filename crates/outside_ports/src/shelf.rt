ghost use Rattle.std.specs.Prelude.{ℕ, ◌<◌, List, length, IsSome, Result};
ghost use Rattle.outside_ports.specs.Calls.{Starts, Reads};
ghost use Rattle.outside_ports.specs.Ports.{ShelfDef};
ghost use Rattle.outside_ports.specs.declared.shelf.ShelfFault.{ShelfFault};

use thiserror::Error;

/// Why a shelf didn't start an input, or a read failed.
#[derive(Clone, Copy, Debug, PartialEq, Eq, Error)]
pub enum ShelfFault {
    /// There is no input of this name.
    #[error("there is no such input")]
    Absent,
    /// The shelf failed, and its count of faults says so.
    #[error("the input could not be read")]
    Failed,
    /// Memory ran out.
    #[error("no memory is left")]
    Memory,
}

/// Named inputs. One at a time is read, from its front on.
///
/// A contract sees of it (`seen`):
///
/// - its inputs with their bytes, if it tells them (`names`);
/// - the rest of the started input, if it tells it (`rest`);
/// - the number of bytes given since the last `start` (`given`), and a count of faults that never falls (`faults`). Both stay at 2^64 - 1
///   once they are there;
/// - each start of an input, with its name, why it failed, and the bytes that reads gave since (`readings`, the last one first). Only
///   proofs read these;
/// - its number of calls (`calls`), and a promise that no later call fails (`steady`). A shelf need count no calls. Then `calls` stays 0,
///   and a bound on calls says nothing of it.
///
/// Which of these it tells never changes, and the inputs stay as they are.
pub trait Shelf {
    ghost seen: { Self → ShelfDef };

    // what this shelf's `start` may answer, and the shelf after it
    ghost start_gives: { Self → List ℕ → Result (Unit {0}) ShelfFault → Self → Type 0 };

    /// Starts the named input: its bytes become the rest. After an error no input is started.
    ///
    /// `Absent` comes only if the told names lack this one. If names are not told, it comes only if the count of faults rose. `Failed`
    /// comes only if the count rose. `Memory` comes only for want of memory. It leaves the count as it was, and so does a start that
    /// succeeds. The readings get this name, and why it wasn't started (`asks`). The record `Starts` (`specs/Calls.antt`) has a field
    /// for each of these.
    fn start(&mut self, name: &str) -> Result<(), ShelfFault>
        ensures starts { Starts (seen self.old) (seen self.new) name.now result }
        ensures gives { start_gives self.old name.now result self.new };

    /// Moves bytes from the front of the rest to the front of the buffer, and says how many. It says 0 if the rest is empty or no input is
    /// started.
    ///
    /// The only error is `Failed`. It comes only if the count of faults rose, and no byte was moved. A read that succeeds leaves the count
    /// as it was. The readings get the bytes at the front of the buffer (`reads`). The record `Reads` (`specs/Calls.antt`) has a
    /// field for each of these.
    fn read(&mut self, buffer: &mut [u8]) -> Result<usize, ShelfFault>
        requires { 0 < length buffer.old }
        ensures reads { Reads (seen self.old) (seen self.new) result buffer.new };

    // a shelf that tells its names with their bytes tells the rest too
    ghost tells_rest: { (s : Self) → IsSome (seen s).names → IsSome (seen s).rest };
}
