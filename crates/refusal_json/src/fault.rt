ghost use Rattle.std.specs.Prelude.{◌≡◌};

use std::alloc::AllocError;
use thiserror::Error;

/// Why bytes are not read as a refusal for a protocol.
#[derive(Clone, Copy, Debug, PartialEq, Eq, Error)]
pub enum ReadFault {
    /// The bytes are no JSON text that `serde_json` reads: they are not UTF-8, break JSON's grammar, are nested deeper than 127 levels, or
    /// have a number beyond the range of a float.
    #[error("the refusal is no JSON text")]
    NotJson,
    /// The value does not have the form of a refusal.
    #[error("the refusal does not have its form")]
    Shape,
    /// The refusal is for another protocol than the one that you asked for.
    #[error("the refusal is for another protocol")]
    OtherProtocol,
    /// Memory was refused.
    #[error("out of memory")]
    Memory,
}

impl From<AllocError> for ReadFault {
    ghost use Rattle.refusal_json.specs.declared.fault.ReadFault.TheVariants.{Memory};

    ghost from_gives = { λ _ fault. fault ≡ Memory };

    fn from(_error: AllocError) -> ReadFault {
        ReadFault::Memory
    }
}
