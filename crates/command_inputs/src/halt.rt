ghost use Rattle.std.specs.Prelude.{◌≡◌};
ghost use Rattle.command_inputs.specs.Known.{refused, read_fault};
ghost use Rattle.command_inputs.specs.Halts.{HaltsWith, IsSettled};

use crate::status::Status;
use reply_texts::{fault_line, refused_line};
use std::alloc::{AllocError, Global};

/// What goes out: a status and a text.
#[derive(Debug, Drop)]
pub struct Reply {
    pub status: Status,
    pub text: Vec<u8>,
}

/// Why a command ends before its work.
#[derive(Debug, Drop)]
pub enum Halt {
    /// An input gives no value, or a value that is no use for the work. This reply says why.
    Reply(Reply),
    /// No memory is left.
    Memory,
}

impl From<AllocError> for Halt {
    ghost use Rattle.command_inputs.specs.declared.halt.Halt.TheVariants.{Memory};

    ghost from_gives = { λ _ halt. halt ≡ Memory };

    fn from(_error: AllocError) -> Halt {
        Halt::Memory
    }
}

/// The reply that the input of this word is refused.
pub fn refusal(alloc: Global, word: &str, reason: &str) -> Halt
    ensures { HaltsWith result (λ answer. answer ≡ refused word.now reason.now) }
{
    match refused_line(alloc, word, reason) {
        Ok(text) => Halt::Reply(Reply {
            status: Status::RefusedInput,
            text,
        }),
        Err(AllocError) => Halt::Memory,
    }
}

/// The reply that the input of this word could not be read.
pub fn fault(alloc: Global, word: &str) -> Halt
    ensures { HaltsWith result (λ answer. answer ≡ read_fault word.now) }
{
    match fault_line(alloc, word) {
        Ok(text) => Halt::Reply(Reply {
            status: Status::Fault,
            text,
        }),
        Err(AllocError) => Halt::Memory,
    }
}

/// The reply of the work or of a halt. An error means that memory ran out.
pub fn reply_of(reply: Result<Reply, Halt>) -> Result<Reply, AllocError>
    ensures { IsSettled reply result }
{
    match reply {
        Ok(reply) => Ok(reply),
        Err(Halt::Reply(reply)) => Ok(reply),
        Err(Halt::Memory) => Err(AllocError),
    }
}
