ghost use Rattle.std.specs.Prelude.{◌≡◌};

use blocking_columns::Class;
use schedule_answers::Breach;
use schedule_model::JobId;
use sporadic_model::ResourceId;
use std::alloc::AllocError;
use thiserror::Error;

/// A number of ticks at which a job was blocked, all charged to one request of another job, in one way.
#[derive(Clone, Copy, Debug, PartialEq, Eq)]
pub struct ChargeItem {
    /// The blocked job.
    pub blocked: JobId,
    /// The job whose request executed.
    pub blocker: JobId,
    /// The number of its request: the position of the request's segment in the job's script, counted from 0.
    pub request: u32,
    /// The resource that was requested.
    pub resource: ResourceId,
    /// The way in which it blocked.
    pub class: Class,
    /// The number of ticks, at least 1.
    pub ticks: u64,
}

/// The charges of a schedule, in order of the blocked job, the blocker, the request and the class.
#[derive(Debug, Drop, PartialEq, Eq)]
pub struct ChargeTable {
    /// One item for each request and each way in which it blocked a job within the job's bound.
    pub charges: Vec<ChargeItem>,
}

/// Why a schedule is not charged. The causes are tried in the order in which they are listed here.
#[derive(Clone, Copy, Debug, PartialEq, Eq, Error)]
pub enum ChargeStop {
    /// A row breaks a rule.
    #[error("a row breaks a rule")]
    Unlawful(Breach),
    /// All rows keep the rules, but a job was not finished at its release plus its bound. It is the first such job.
    #[error("a job has passed its bound")]
    BoundPassed(JobId),
    /// Memory was refused.
    #[error("out of memory")]
    Memory,
}

impl From<AllocError> for ChargeStop {
    ghost use Rattle.charge.specs.declared.item.ChargeStop.TheVariants.{Memory};

    ghost from_gives = { λ _ stop. stop ≡ Memory };

    fn from(_error: AllocError) -> ChargeStop {
        ChargeStop::Memory
    }
}
