//! What a port was asked for, gave and took. It exists only in proofs: it takes no memory, and its calls do nothing at
//! run time.
ghost use Rattle.std.specs.Prelude.{◌≡◌};
ghost use Rattle.std.specs.Borrow.{ftrue};
ghost use Rattle.outside_ports.specs.Past.{Past, nothing_yet};
ghost use Rattle.outside_ports.specs.Readings.{AsksFor, ReadsOn};

use crate::shelf::ShelfFault;
use std::marker::Model;

/// One call of a port, as its history keeps it.
#[derive(Clone, Copy, Drop)]
pub(crate) enum Note<'a> {
    /// The input of this name was started.
    Started(&'a str),
    /// The input of this name was not started, for this reason.
    Refused(&'a str, ShelfFault),
    /// A read gave these bytes.
    Gave(&'a [u8]),
    /// A write took these bytes.
    Took(&'a [u8]),
}

/// All calls of a port so far. Nothing ties it to memory. So it says something only of code that is generic over the traits of the ports.
/// Only the ports write it.
#[derive(Drop)]
pub(crate) struct History {
    ghost past: { Past },
}

impl Model for History {
    ghost also_owns = { λ _. ftrue };
}

impl History {
    ghost use Rattle.outside_ports.specs.Noted.{noted};

    pub(crate) fn new() -> History
        ensures { result.past ≡ nothing_yet }
    {
        History {}
    }

    /// This history and one more call.
    pub(crate) fn with(&self, _note: &Note<'_>) -> History
        ensures { result.past ≡ noted self.now.past _note.now }
    {
        History {}
    }

    /// This history and one more start, which had this answer.
    pub(crate) fn with_start(&self, name: &str, answer: &Result<(), ShelfFault>) -> History
        ensures asks { AsksFor self.now.past.readings result.past.readings name.now answer.now }
    {
        match answer {
            Ok(()) => self.with(&Note::Started(name)),
            Err(fault) => self.with(&Note::Refused(name, *fault)),
        }
    }
}
