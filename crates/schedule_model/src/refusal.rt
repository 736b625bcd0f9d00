ghost use Rattle.std.specs.Prelude.{◌≡◌};

use std::alloc::AllocFailed;
use thiserror::Error;

/// Why a job is not taken into a list. The refusals are tried in the order in which they are listed here.
#[derive(Clone, Copy, Debug, PartialEq, Eq, Error)]
pub enum JobRefusal {
    /// The script has no segment. Or a local number or a request's length is not from 1 to 10^9. Or a segment before the last one has no
    /// request.
    #[error("a script is not local ticks and requests in turn, each from 1 to 1000000000 ticks")]
    Script,
    /// The job takes more ticks than its task's cost, or more local ticks than the local limit. Or its requests of a resource are more or
    /// longer than the task's entry for it allows.
    #[error("a job exceeds what its task may execute or request")]
    OverBudget,
    /// The job arrives less than a period after the last job of its task, or is released after tick 10^9.
    #[error("a job arrives less than a period after its task's last one, or is released after tick 1000000000")]
    TooClose,
    /// There are 100,000 jobs already, or more than 1,000,000 segments with this job's.
    #[error("there are more than 100000 jobs or 1000000 script segments")]
    TooMany,
    /// The job is released before its arrival, or later than its arrival plus its task's jitter.
    #[error("a job is released before its arrival, or later than its task's jitter allows")]
    Late,
    /// Memory was refused.
    #[error("out of memory")]
    Memory,
}

impl<T: Drop> From<AllocFailed<T>> for JobRefusal {
    ghost use Rattle.schedule_model.specs.declared.refusal.JobRefusal.TheVariants.{Memory};

    ghost from_gives = { λ _ refusal. refusal ≡ Memory };

    fn from(_error: AllocFailed<T>) -> JobRefusal {
        JobRefusal::Memory
    }
}

/// Why a run of equal rows is not taken into a list. The refusals are tried in the order in which they are listed here.
#[derive(Clone, Copy, Debug, PartialEq, Eq, Error)]
pub enum RowRefusal {
    /// The run's ticks are not from 1 to 10^9.
    #[error("a number of ticks is not from 1 to 1000000000")]
    Number,
    /// The row names a job that is not in the list of jobs.
    #[error("a row names a job that is not listed")]
    UnknownJob,
    /// The list would have more than 10^9 ticks.
    #[error("a schedule has more than 1000000000 ticks")]
    TooLong,
    /// Memory was refused.
    #[error("out of memory")]
    Memory,
}

impl<T: Drop> From<AllocFailed<T>> for RowRefusal {
    ghost use Rattle.schedule_model.specs.declared.refusal.RowRefusal.TheVariants.{Memory};

    ghost from_gives = { λ _ refusal. refusal ≡ Memory };

    fn from(_error: AllocFailed<T>) -> RowRefusal {
        RowRefusal::Memory
    }
}
