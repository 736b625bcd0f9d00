ghost use Rattle.std.specs.Prelude.{◌≡◌};

use schedule_model::Rule;
use std::alloc::AllocError;
use thiserror::Error;

/// The first tick at which a row breaks a rule, and the first rule that it breaks.
#[derive(Clone, Copy, Debug, PartialEq, Eq)]
pub struct Breach {
    /// The tick, counted from 0.
    pub tick: u64,
    /// The rule.
    pub rule: Rule,
}

/// Why a schedule is not measured.
#[derive(Clone, Copy, Debug, PartialEq, Eq, Error)]
pub enum Unlawful {
    /// A row breaks a rule.
    #[error("a row breaks a rule")]
    Broken(Breach),
    /// Memory was refused.
    #[error("out of memory")]
    Memory,
}

impl From<AllocError> for Unlawful {
    ghost use Rattle.schedule_answers.specs.declared.judged.Unlawful.TheVariants.{Memory};

    ghost from_gives = { λ _ stop. stop ≡ Memory };

    fn from(_error: AllocError) -> Unlawful {
        Unlawful::Memory
    }
}

/// What a schedule does to each task, in the order of the set.
#[derive(Debug, Drop, PartialEq, Eq)]
pub struct Measured {
    /// One measure per task.
    pub tasks: Vec<TaskMeasure>,
}

/// What a schedule does to the jobs of one task.
#[derive(Clone, Copy, Debug, PartialEq, Eq)]
pub struct TaskMeasure {
    /// How many of its jobs finished.
    pub finished: u64,
    /// The greatest number of ticks that a finished job took from its release; none if none finished.
    pub response: Option<u64>,
    /// The greatest number of ticks at which a job was blocked, finished or not; 0 if there is no job.
    pub blocking: u64,
}
