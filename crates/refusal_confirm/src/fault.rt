ghost use Rattle.std.specs.Prelude.{◌≡◌};
ghost use Rattle.refusal_confirm.specs.Parts.{fault_of};

use std::alloc::AllocError;

/// Why a refusal doesn't hold: the first test that fails, at the first step that fails one. Steps and rows are counted from 1.
#[derive(Clone, Copy, Debug, PartialEq, Eq)]
pub enum Fault {
    /// The value of a step before this one is above its task's latest bound: with the task's jitter it is above the deadline.
    After(u64),
    /// This step names no task of the set.
    Task(u64),
    /// This step's value isn't above its task's bound.
    Rising(u64),
    /// This step's point hasn't one number for each column of its task's program.
    Size(u64),
    /// This step's point breaks this row of the program.
    Row { step: u64, row: u64 },
    /// The cost, the point's worth and the interference together are less than this step's value.
    Low(u64),
    /// No step's value is above its task's latest bound.
    Open,
    /// No memory is left.
    Memory,
}

impl From<AllocError> for Fault {
    ghost use Rattle.refusal_confirm.specs.declared.fault.Fault.TheVariants.{Memory};

    ghost from_gives = { λ _ fault. fault ≡ Memory };

    fn from(_error: AllocError) -> Fault {
        Fault::Memory
    }
}

/// The test that a step fails: see [`Fault`]. Rows are counted from 0.
#[derive(Clone, Copy, Debug)]
pub enum Part {
    After,
    Task,
    Rising,
    Size,
    Row(u32),
    Low,
}

/// The fault of this step, counted from 1, if it fails the test.
pub(crate) fn fault_of(part: Part, step: u64) -> Fault
    ensures { result ≡ fault_of part step }
{
    match part {
        Part::After => Fault::After(step),
        Part::Task => Fault::Task(step),
        Part::Rising => Fault::Rising(step),
        Part::Size => Fault::Size(step),
        Part::Row(row) => Fault::Row {
            step,
            row: u64::from(row) + 1,
        },
        Part::Low => Fault::Low(step),
    }
}
