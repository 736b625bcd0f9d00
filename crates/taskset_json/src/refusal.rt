ghost use Rattle.std.specs.Prelude.{◌≡◌};

use sporadic_model::{ModelRefusal, Place, ResourceId};
use std::alloc::AllocError;
use thiserror::Error;

/// Why bytes are not read as a task set, or a set does not suit a protocol.
#[derive(Clone, Copy, Debug, PartialEq, Eq, Error)]
pub enum SetRefusal {
    /// The bytes are no JSON text that `serde_json` reads: they are not UTF-8, break JSON's grammar, are nested deeper than 127 levels, or
    /// have a number beyond the range of a float.
    #[error("the set is no JSON text")]
    NotJson,
    /// The value at the place is not an object, lacks a member, or has one that is not of the form. The set is tried first, then each
    /// resource, then each task with its requests.
    #[error("an object of the set does not have the members that it must have")]
    Shape(Place),
    /// The value has the form, but its task set is not accepted.
    #[error("the task set is not accepted")]
    Model(ModelRefusal),
    /// The protocol asks for the home of each resource, and this one has none.
    #[error("a resource has no home")]
    NoHome(ResourceId),
    /// Memory was refused.
    #[error("out of memory")]
    Memory,
}

impl From<AllocError> for SetRefusal {
    ghost use Rattle.taskset_json.specs.declared.refusal.SetRefusal.TheVariants.{Memory};

    ghost from_gives = { λ _ refusal. refusal ≡ Memory };

    fn from(_error: AllocError) -> SetRefusal {
        SetRefusal::Memory
    }
}
