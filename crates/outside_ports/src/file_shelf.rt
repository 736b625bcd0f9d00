ghost use Rattle.std.specs.Prelude.{◌≡◌, ◌<◌, [], length};
ghost use Rattle.std.specs.IoError.{error_kind};
ghost use Rattle.outside_ports.specs.Calls.{Reads};
ghost use Rattle.outside_ports.specs.Openings.{fault_by, IsTaken, FollowsOpening};
ghost use Rattle.outside_ports.specs.Openings.{FollowsRead, faults_called};
ghost use Rattle.outside_ports.specs.Ports.{untold};
ghost use Rattle.outside_ports.specs.Readings.{AsksFor};

use crate::history::{History, Note};
use crate::opener::Opener;
use crate::shelf::{Shelf, ShelfFault};
use std::io::{self, ErrorKind, Read};

/// The files that an opener opens, named by their paths. It doesn't tell their content, and counts no calls.
///
/// A call makes at most one opening, of the path that you asked for, or one read of the open file. Each error raises the count of faults,
/// except for want of memory at an opening.
#[derive(Drop)]
pub struct FileShelf<O: Opener + Drop> {
    opener: O,
    file: Option<O::File>,
    given: u64,
    faults: u64,
    history: History,
}

impl<O: Opener + Drop> FileShelf<O> {
    /// A shelf on which no file is started.
    pub fn new(opener: O) -> FileShelf<O>
        ensures calm { (⟦<FileShelf<O> as Shelf>⟧.seen result).faults ≡ 0 }
        ensures unread { (⟦<FileShelf<O> as Shelf>⟧.seen result).readings ≡ [] }
    {
        FileShelf {
            opener,
            file: None,
            given: 0,
            faults: 0,
            history: History::new(),
        }
    }
}

impl<O: Opener + Drop> Shelf for FileShelf<O> {
    ghost seen = { λ s. untold s.given s.faults s.history.past.readings };

    ghost start_gives = { λ s name answer t. FollowsOpening (O.opens s.opener name) s.faults answer t.file t.faults };

    ghost tells_rest = { λ s told. told };

    fn start(&mut self, name: &str) -> Result<(), ShelfFault> {
        self.file = None;
        let opening = self.opener.open(name);
        self.take(name, opening)
    }

    /// Each read is one read of the started file. Each error of it is counted.
    fn read(&mut self, buffer: &mut [u8]) -> Result<usize, ShelfFault>
        requires { 0 < length buffer.old }
        ensures gives { FollowsRead O.File.remaining self.old.file self.new.file result buffer.new }
        ensures counts { self.new.faults ≡ faults_called self.old.faults result }
        ensures reads { Reads (untold self.old.given self.old.faults self.old.history.past.readings)
            (untold self.new.given self.new.faults self.new.history.past.readings) result buffer.new }
    {
        let count = match &mut self.file {
            None => 0,
            Some(file) => match file.read(buffer) {
                Ok(count) => count,
                Err(_) => {
                    self.faults = self.faults.saturating_add(1);
                    return Err(ShelfFault::Failed);
                }
            },
        };
        self.given = self.given.saturating_add(count as u64);
        self.history = self.history.with(&Note::Gave(&buffer[..count]));
        Ok(count)
    }
}

impl<O: Opener + Drop> FileShelf<O> {
    /// Takes the answer of an opening. Its file is started, and none of it has been given yet. After an error no file is started. The error
    /// is counted, except for want of memory.
    fn take(&mut self, name: &str, opening: io::Result<O::File>) -> Result<(), ShelfFault>
        ensures taken { IsTaken opening result self.new.file self.old.faults self.new.faults }
        ensures given { self.new.given ≡ 0 }
        ensures asks { AsksFor self.old.history.past.readings self.new.history.past.readings name.now result }
    {
        self.given = 0;
        self.file = None;
        let answer = match opening {
            Ok(file) => {
                self.file = Some(file);
                Ok(())
            }
            Err(error) => {
                let fault = fault_of(&error);
                if fault != ShelfFault::Memory {
                    self.faults = self.faults.saturating_add(1);
                }
                Err(fault)
            }
        };
        self.history = self.history.with_start(name, &answer);
        answer
    }
}

/// The fault for an opening that the system refused.
fn fault_of(error: &io::Error) -> ShelfFault
    ensures { result ≡ fault_by (error_kind error.now) }
{
    match error.kind() {
        ErrorKind::NotFound => ShelfFault::Absent,
        ErrorKind::OutOfMemory => ShelfFault::Memory,
        _ => ShelfFault::Failed,
    }
}
