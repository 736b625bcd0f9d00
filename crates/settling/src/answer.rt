ghost use Rattle.std.specs.Prelude.{◌≡◌};

use program_form::Certificate;
use refusal_laws::Refusal;
use sporadic_model::TaskId;
use std::alloc::{AllocError, AllocFailed};

/// What settling answers.
#[derive(Drop)]
pub enum Settled {
    /// Every deadline is met: the least bounds that fit, with a dual for each task.
    Schedulable(Certificate),
    /// No bounds fit. These steps show it.
    Refused(Refusal),
}

/// Why settling stops without an answer.
#[derive(Debug, Drop)]
pub enum SettleStop {
    /// The rounds are wide. This task's program needs numbers of more than 63 bits. Or nothing fits, and the walk whose points are rounded
    /// down to 63 bits passes no latest bound: then it is the task at which the rounds, or that walk, are wide.
    Wide(TaskId),
    /// The analysis or a walk of the search wants more units than the allowance.
    Allowance,
    /// No memory is left.
    Memory,
}

impl From<AllocError> for SettleStop {
    ghost use Rattle.settling.specs.declared.answer.SettleStop.TheVariants.{Memory};

    ghost from_gives = { λ _ stop. stop ≡ Memory };

    fn from(_error: AllocError) -> SettleStop {
        SettleStop::Memory
    }
}

impl<T: Drop> From<AllocFailed<T>> for SettleStop {
    ghost use Rattle.settling.specs.declared.answer.SettleStop.TheVariants.{Memory};

    ghost from_gives = { λ _ stop. stop ≡ Memory };

    fn from(_failed: AllocFailed<T>) -> SettleStop {
        SettleStop::Memory
    }
}
