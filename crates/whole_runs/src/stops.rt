//! Why a run was not made.

ghost use Rattle.std.specs.Prelude.{◌≡◌};

use std::alloc::{AllocError, AllocFailed};
use thiserror::Error;
use whole_rows::RowStop;

/// Why a run was not made to its end.
#[derive(Clone, Copy, Debug, PartialEq, Eq, Error)]
pub enum Halt {
    /// There is no memory for the table.
    #[error("there is no memory for the table")]
    Memory,
    /// Whole numbers over one denominator for each row aren't enough. At some exchange a row is too large for what is subtracted from it.
    /// Or at the end the dual is wide: its least common denominator, or a number over it, is above 2^63 - 1.
    #[error("a number over its row's denominator, or one of the dual, passes 2^63 - 1")]
    Large,
    /// The run needs more units than it was given.
    #[error("the exchange run takes more units than it was given")]
    Units,
}

impl From<AllocError> for Halt {
    ghost use Rattle.whole_runs.specs.declared.stops.Halt.TheVariants.{Memory};

    ghost from_gives = { λ _ halt. halt ≡ Memory };

    fn from(_error: AllocError) -> Halt {
        Halt::Memory
    }
}

impl<T: Drop> From<AllocFailed<T>> for Halt {
    ghost use Rattle.whole_runs.specs.declared.stops.Halt.TheVariants.{Memory};

    ghost from_gives = { λ _ halt. halt ≡ Memory };

    fn from(_refused: AllocFailed<T>) -> Halt {
        Halt::Memory
    }
}

impl From<RowStop> for Halt {
    ghost use Rattle.whole_runs.specs.Stops.{halt_of};

    ghost from_gives = { λ stop halt. halt ≡ halt_of stop };

    fn from(stop: RowStop) -> Halt {
        match stop {
            RowStop::Memory => Halt::Memory,
            RowStop::Large => Halt::Large,
        }
    }
}
