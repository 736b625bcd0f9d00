ghost use Rattle.std.specs.Prelude.{◌≡◌};

use program_form::Certificate;
use sporadic_model::TaskId;
use std::alloc::AllocError;

/// What an analysis answers.
#[derive(Debug, Drop)]
pub enum Verdict {
    /// The set is schedulable: here are the least fitting bounds, in ticks, and a dual for each task.
    Schedulable(Certificate),
    /// No bounds fit. The rounds end at this task with this value in ticks. It passes the task's latest bound, which is the deadline
    /// less the jitter.
    NotShown { task: TaskId, bound: u64 },
}

/// Why an analysis stops without an answer.
#[derive(Debug, Drop)]
pub enum Stop {
    /// The program of this task forms a fraction that is too wide.
    Wide(TaskId),
    /// The rounds need more units than the allowance.
    Allowance,
    /// No memory is left.
    Memory,
}

impl From<AllocError> for Stop {
    ghost use Rattle.response_fixpoint.specs.declared.verdict.Stop.TheVariants.{Memory};

    ghost from_gives = { λ _ stop. stop ≡ Memory };

    fn from(_error: AllocError) -> Stop {
        Stop::Memory
    }
}
