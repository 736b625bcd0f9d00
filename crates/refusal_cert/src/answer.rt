ghost use Rattle.std.specs.Prelude.{◌≡◌};

use refusal_laws::Refusal;
use sporadic_model::TaskId;
use std::alloc::AllocError;

/// What a refutation answers.
#[derive(Drop)]
pub enum Answer {
    /// No bounds fit, and these steps show it.
    Refused(Refusal),
    /// Some bounds fit.
    Schedulable,
}

/// Why a refutation stops without an answer.
#[derive(Debug, Drop)]
pub enum RefuteStop {
    /// The program of this task forms a fraction that is too wide, or the point of its step can't be written.
    Wide(TaskId),
    /// The rounds need more units than the allowance.
    Allowance,
    /// No memory is left.
    Memory,
}

impl From<AllocError> for RefuteStop {
    ghost use Rattle.refusal_cert.specs.declared.answer.RefuteStop.TheVariants.{Memory};

    ghost from_gives = { λ _ stop. stop ≡ Memory };

    fn from(_error: AllocError) -> RefuteStop {
        RefuteStop::Memory
    }
}
