ghost use Rattle.std.specs.Prelude.{◌≡◌, ℕ, ◌+◌, ◌^◌, ◌<◌, ◌↔◌, [], min, length, IsTrue, IfOk, IsErr};
ghost use Rattle.outside_ports.specs.Calls.{Starts, Reads};
ghost use Rattle.outside_ports.specs.MemoryShelf.{as_shelf, fails_next, start_answer, CountsCall, MovesFront};
ghost use Rattle.outside_ports.specs.MemoryShelfView.{inputs_of, rest_at, IsPlaceOf};

use crate::history::{History, Note};
use crate::shelf::{Shelf, ShelfFault};
use std::marker::Model;

/// A shelf in memory, whose faults you choose. It tells all that a shelf can tell, and its calls take no memory.
#[derive(Drop)]
pub struct MemShelf {
    files: Vec<(String, Vec<u8>)>,
    piece: usize,
    failing: Vec<u64>,
    calls: u64,
    faults: u64,
    given: u64,
    // the started input, or the number of files if none is started
    place: usize,
    at: usize,
    history: History,
}

impl Model for MemShelf {
    ghost use Rattle.std.specs.Prelude.{ℕ, ◌<◌};
    ghost use Rattle.outside_ports.specs.MemoryShelf.{MemoryShelf};

    ghost Value = { MemoryShelf };

    ghost use Rattle.outside_ports.specs.MemoryShelfView.{memory_shelf};

    ghost view = { memory_shelf };

    ghost invariant = { λ shelf. 0 < shelf.piece };
}

impl MemShelf {
    /// A shelf with these files. If two have the same name, the first counts. A read gives at most `piece` bytes. The calls of `start` and
    /// `read` are counted together, from 1. The calls whose numbers are in `failing` fail.
    pub fn new(files: Vec<(String, Vec<u8>)>, piece: usize, failing: Vec<u64>) -> MemShelf
        requires { 0 < piece }
        ensures { result ≡ record {
          inputs = inputs_of files.items;
          piece = piece;
          failing = failing.items;
          calls = 0;
          faults = 0;
          given = 0;
          rest = [];
          readings = [];
        } }
    {
        let place = files.len();
        MemShelf {
            files,
            piece,
            failing,
            calls: 0,
            faults: 0,
            given: 0,
            place,
            at: 0,
            history: History::new(),
        }
    }
}

impl Shelf for MemShelf {
    ghost seen = { as_shelf };

    ghost start_gives = { λ s name answer t. answer ≡ start_answer s name };

    ghost tells_rest = { λ s told. told };

    /// `Failed` comes exactly if the number of this call is in `failing`. Else `Absent` comes exactly if no file has the name. `Memory`
    /// never comes.
    fn start(&mut self, name: &str) -> Result<(), ShelfFault>
        ensures counts { CountsCall self.old self.new }
        ensures answer { result ≡ start_answer self.old name.now }
        ensures starts { Starts (as_shelf self.old) (as_shelf self.new) name.now result }
    {
        self.calls = self.calls.saturating_add(1);
        self.given = 0;
        self.place = self.files.len();
        self.at = 0;
        let answer = if self.failing.contains(&self.calls) {
            self.faults = self.faults.saturating_add(1);
            Err(ShelfFault::Failed)
        } else {
            match place_of(&self.files, name) {
                Some(place) => {
                    self.place = place;
                    Ok(())
                }
                None => Err(ShelfFault::Absent),
            }
        };
        self.history = self.history.with_start(name, &answer);
        answer
    }

    /// `Failed` comes exactly if the number of this call is in `failing`. Any other call gives as many bytes as the least of `piece`, the
    /// buffer's length and the length of the rest.
    fn read(&mut self, buffer: &mut [u8]) -> Result<usize, ShelfFault>
        requires { 0 < length buffer.old }
        ensures counts { CountsCall self.old self.new }
        ensures listed { (IsErr result) ↔ (IsTrue (fails_next self.old)) }
        ensures exact { IfOk result (λ n. n ≡ min (min self.old.piece (length buffer.old)) (length self.old.rest)) }
        ensures reads { Reads (as_shelf self.old) (as_shelf self.new) result buffer.new }
    {
        self.calls = self.calls.saturating_add(1);
        if self.failing.contains(&self.calls) {
            self.faults = self.faults.saturating_add(1);
            return Err(ShelfFault::Failed);
        }
        let rest = rest_from(&self.files, self.place, self.at);
        let count = give(rest, self.piece, buffer);
        self.at += count;
        self.given = self.given.saturating_add(count as u64);
        self.history = self.history.with(&Note::Gave(&buffer[..count]));
        Ok(count)
    }
}

/// The place of the first file of this name.
fn place_of(files: &[(String, Vec<u8>)], name: &str) -> Option<usize>
    ensures { IsPlaceOf (inputs_of files.now) name.now result }
{
    for (place, file) in files.iter().enumerate() {
        if file.0.as_str() == name {
            return Some(place);
        }
    }
    None
}

/// The bytes of the file at a place, from `at` on, and none past the last file.
fn rest_from(files: &[(String, Vec<u8>)], place: usize, at: usize) -> &[u8]
    ensures bytes { result.now ≡ rest_at (inputs_of files.now) place at }
    ensures fits { at + length result.now < 2 ^ 64 }
{
    if place < files.len() {
        let bytes = files[place].1.as_slice();
        &bytes[at.min(bytes.len())..]
    } else {
        &[]
    }
}

/// Copies the front of the rest to the front of the buffer: the least of `piece` and the two lengths.
fn give(rest: &[u8], piece: usize, buffer: &mut [u8]) -> usize
    ensures { MovesFront rest.now piece buffer.old buffer.new result }
{
    let count = piece.min(buffer.len()).min(rest.len());
    buffer[..count].copy_from_slice(&rest[..count]);
    count
}
