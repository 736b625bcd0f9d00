ghost use Rattle.std.specs.Prelude.{◌≡◌};

use crate::ids::{ResourceId, TaskId};
use std::alloc::AllocError;
use thiserror::Error;

/// Where in a task set a refusal points. Positions count from 0.
#[derive(Clone, Copy, Debug, PartialEq, Eq)]
pub enum Place {
    /// The set as a whole.
    Root,
    /// A resource, by its position in the set.
    Resource(u32),
    /// A task, by its position in the set.
    Task(u32),
    /// A request entry, by its task's position and its own among the task's entries.
    Request(u32, u32),
}

/// A size of a task set that has a limit.
#[derive(Clone, Copy, Debug, PartialEq, Eq)]
pub enum SizeOf {
    /// The processors, of which there is at least one.
    Processors,
    /// The tasks.
    Tasks,
    /// The resources.
    Resources,
    /// The request entries over all tasks.
    Requests,
}

/// Why a task set is not accepted. The refusals are tried in the order in which they are listed here, each over the whole set. A refusal
/// names the first place at which it is due.
#[derive(Clone, Copy, Debug, PartialEq, Eq, Error)]
pub enum ModelRefusal {
    /// There is no task.
    #[error("the set has no task")]
    NoTask,
    /// A size is out of its range: 1 to 64 processors, at most 64 tasks, 32 resources and 256 request
    /// entries.
    #[error("a size of the set is out of its range")]
    Size(SizeOf),
    /// A resource's or a task's name is not 1 to 32 bytes of `[A-Za-z0-9_.-]`.
    #[error("a name is not 1 to 32 bytes of A-Z, a-z, 0-9, _, . and -")]
    Name(Place),
    /// An earlier resource has the resource's name, or an earlier task has the task's.
    #[error("a name is given twice")]
    TwiceName(Place),
    /// The task's processor is 0 or above the number of processors.
    #[error("a processor is not of the set")]
    Processor(TaskId),
    /// The period is not from 1 to 10^9 ticks.
    #[error("a period is not from 1 to 1000000000")]
    Period(TaskId),
    /// The deadline is 0 or above the period.
    #[error("a deadline is not from 1 to the period")]
    Deadline(TaskId),
    /// The cost is 0 or above the deadline.
    #[error("a cost is not from 1 to the deadline")]
    Cost(TaskId),
    /// The local limit is 0 or above the cost.
    #[error("a local limit is not from 1 to the cost")]
    Local(TaskId),
    /// The request names no resource of the set.
    #[error("a request names no resource of the set")]
    Resource(Place),
    /// An earlier entry of the task names the same resource.
    #[error("a task has two entries for one resource")]
    TwiceRequest(Place),
    /// The count is not from 1 to 1000.
    #[error("a count is not from 1 to 1000")]
    Count(Place),
    /// The length is 0 or not below the task's cost.
    #[error("a length is not from 1 to below the cost")]
    Length(Place),
    /// The home is given, and is 0 or above the number of processors.
    #[error("a home is not of the set")]
    Home(ResourceId),
    /// The jitter is above the deadline less the cost.
    #[error("a jitter is not at most the deadline less the cost")]
    Jitter(TaskId),
    /// Memory was refused.
    #[error("out of memory")]
    Memory,
}

impl From<AllocError> for ModelRefusal {
    ghost use Rattle.sporadic_model.specs.declared.refusal.ModelRefusal.TheVariants.{Memory};

    ghost from_gives = { λ _ refusal. refusal ≡ Memory };

    fn from(_error: AllocError) -> ModelRefusal {
        ModelRefusal::Memory
    }
}
