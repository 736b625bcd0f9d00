ghost use Rattle.std.specs.Prelude.{◌≡◌, ℕ, List, Result};
ghost use Rattle.std.specs.declared.io.Error.{Error};

use std::io::Read;
use std::rt::Files;
use std::{fs, io};

/// A trait of what opens files by their paths.
///
/// `opens` relates a path to what this opener may answer to it. So a contract that cites it says which path was opened.
pub trait Opener {
    type File: Read + Drop;

    ghost opens: { Self → List ℕ → Result Self.File Error → Type 0 };

    /// Opens the file at this path for reading.
    fn open(&self, path: &str) -> io::Result<Self::File>
        ensures { opens self.now path.now result };
}

/// The files of the system. No clause can say that the system opened the path that it was asked for. You see it in the one line of `open`.
#[derive(Drop)]
pub struct SystemFiles<'a, R: Files> {
    runtime: &'a R,
}

impl<'a, R: Files> SystemFiles<'a, R> {
    /// The files that this runtime opens.
    pub fn new(runtime: &'a R) -> SystemFiles<'a, R> {
        SystemFiles { runtime }
    }
}

impl<'a, R: Files> Opener for SystemFiles<'a, R> {
    type File = R::File;

    ghost opens = { λ _ path answer. Unit {0} };

    fn open(&self, path: &str) -> io::Result<R::File> {
        fs::open(self.runtime, path)
    }
}
