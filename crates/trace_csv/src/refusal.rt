ghost use Rattle.std.specs.Prelude.{◌≡◌};

use std::alloc::AllocError;
use thiserror::Error;

/// Why a text is not read as jobs, with the number of the first line that is refused. Data lines are counted from 1, and the header is line
/// 0. On a line the refusals are tried in the order in which they are listed here, with one exception: an unknown resource is named only
/// after [`JobsRefusal::Script`].
#[derive(Clone, Copy, Debug, PartialEq, Eq, Error)]
pub enum JobsRefusal {
    /// The line hasn't as many fields as the header, three or four. Or the header is missing, or is neither `task,release,script` nor
    /// `task,arrival,release,script`.
    #[error("a line of jobs has not the fields task, release and script, or task, arrival, release and script")]
    Fields(u64),
    /// The arrival or the release is not a number from 0 to 10^9.
    #[error("an arrival or a release is not a number from 0 to 1000000000")]
    Number(u64),
    /// The first field is no task's name, or the script requests a resource that the set doesn't have.
    #[error("a line of jobs names a task or a resource that the set has not")]
    UnknownName(u64),
    /// The last field is not a script: local numbers and requests in turn, with one space between them.
    #[error("a script is not local numbers and requests in turn")]
    Script(u64),
    /// The job exceeds its task's budget, as the list of jobs judges it.
    #[error("a job exceeds what its task may execute or request")]
    OverBudget(u64),
    /// The job arrives less than a period after the last one of its task.
    #[error("a job arrives less than a period after its task's last one")]
    TooClose(u64),
    /// There are too many jobs, or too many segments in all scripts.
    #[error("there are more than 100000 jobs or 1000000 script segments")]
    TooMany(u64),
    /// The job is released before its arrival, or later than its arrival plus its task's jitter.
    #[error("a job is released before its arrival, or later than its task's jitter allows")]
    Late(u64),
    /// Memory was refused.
    #[error("out of memory")]
    Memory,
}

impl From<AllocError> for JobsRefusal {
    ghost use Rattle.trace_csv.specs.declared.refusal.JobsRefusal.TheVariants.{Memory};

    ghost from_gives = { λ _ refusal. refusal ≡ Memory };

    fn from(_error: AllocError) -> JobsRefusal {
        JobsRefusal::Memory
    }
}

/// Why a text is not read as rows, with the number of the first line that is refused. Data lines are counted from 1, and the header is line
/// 0. On a line the refusals are tried in the order in which they are listed here.
#[derive(Clone, Copy, Debug, PartialEq, Eq, Error)]
pub enum RowsRefusal {
    /// The line hasn't one field for the ticks, one for each processor and one for each resource. Or the header is missing, or another one.
    #[error("a line of rows has not the fields of the header")]
    Fields(u64),
    /// The ticks are not a number from 1 to 10^9, or a cell is neither empty nor a number.
    #[error("a line of rows has a field that is no number in its range")]
    Number(u64),
    /// A cell is 0 or above the number of jobs.
    #[error("a row names a job that is not listed")]
    UnknownJob(u64),
    /// The rows up to this line would last more than 10^9 ticks.
    #[error("a schedule has more than 1000000000 ticks")]
    TooLong(u64),
    /// Memory was refused.
    #[error("out of memory")]
    Memory,
}

impl From<AllocError> for RowsRefusal {
    ghost use Rattle.trace_csv.specs.declared.refusal.RowsRefusal.TheVariants.{Memory};

    ghost from_gives = { λ _ refusal. refusal ≡ Memory };

    fn from(_error: AllocError) -> RowsRefusal {
        RowsRefusal::Memory
    }
}
