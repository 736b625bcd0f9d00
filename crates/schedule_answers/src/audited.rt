ghost use Rattle.std.specs.Prelude.{◌≡◌};

use crate::checked::Invalid;
use crate::judged::Breach;
use std::alloc::AllocError;
use thiserror::Error;

/// Why a schedule is not audited. The causes are tried in the order in which they are listed here.
#[derive(Clone, Copy, Debug, PartialEq, Eq, Error)]
pub enum AuditStop {
    /// The certificate is not valid: the first test that fails.
    #[error("the certificate is not valid")]
    Invalid(Invalid),
    /// A row breaks a rule.
    #[error("a row breaks a rule")]
    Broken(Breach),
    /// Memory was refused.
    #[error("out of memory")]
    Memory,
}

impl From<AllocError> for AuditStop {
    ghost use Rattle.schedule_answers.specs.declared.audited.AuditStop.TheVariants.{Memory};

    ghost from_gives = { λ _ stop. stop ≡ Memory };

    fn from(_error: AllocError) -> AuditStop {
        AuditStop::Memory
    }
}

/// What a schedule did to a task, and what was proved of the task. All numbers are ticks.
#[derive(Clone, Copy, Debug, PartialEq, Eq)]
pub struct TaskFigures {
    /// The greatest response of a finished job of the task; none if none finished.
    pub response: Option<u64>,
    /// The bound on the task's response.
    pub bound: u64,
    /// The most ticks at which one of its jobs was blocked.
    pub blocking: u64,
    /// The bound on the blocking: the value of the task's dual.
    pub value: u64,
    /// The ticks, within the bound, at which its jobs, all together, waited for a running holder of the resource that they requested.
    pub direct: u64,
    /// The ticks, within the bound, at which they waited while other requests ran in the holder's place.
    pub indirect: u64,
    /// The ticks, within the bound, at which a request ran in the place of a job that was ready.
    pub preemption: u64,
}
