ghost use Rattle.std.specs.Prelude.{◌≡◌};

use sporadic_model::TaskId;
use std::alloc::{AllocError, AllocFailed};

/// What is proved by a valid certificate.
#[derive(Debug, Drop)]
pub struct Valid {
    /// The value of each task's dual: the most ticks at which a job of the task is blocked.
    pub values: Vec<u64>,
}

/// Why a certificate is not valid: the first test that fails. Each test is tried over all tasks, before the next test.
#[derive(Clone, Copy, Debug, PartialEq, Eq)]
pub enum Invalid {
    /// The certificate hasn't one bound and one dual for each task.
    Size,
    /// This task's bound and its jitter together are above its deadline.
    Bound(TaskId),
    /// This task's dual hasn't one numerator for each row of its program.
    DualSize(TaskId),
    /// This task's dual doesn't cover this column of its program.
    Cover(TaskId, u32),
    /// This task's bound is too small. Its cost, its dual's value and the interference of higher tasks together are above it.
    Small(TaskId),
    /// No memory is left.
    Memory,
}

impl From<AllocError> for Invalid {
    ghost use Rattle.schedule_answers.specs.declared.checked.Invalid.TheVariants.{Memory};

    ghost from_gives = { λ _ failure. failure ≡ Memory };

    fn from(_error: AllocError) -> Invalid {
        Invalid::Memory
    }
}

impl<T: Drop> From<AllocFailed<T>> for Invalid {
    ghost use Rattle.schedule_answers.specs.declared.checked.Invalid.TheVariants.{Memory};

    ghost from_gives = { λ _ failure. failure ≡ Memory };

    fn from(_error: AllocFailed<T>) -> Invalid {
        Invalid::Memory
    }
}
