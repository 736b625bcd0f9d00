//! Why a row isn't what is left of it.

ghost use Rattle.std.specs.Prelude.{◌≡◌};

use std::alloc::{AllocError, AllocFailed};
use thiserror::Error;

/// A bound on the numbers over the row's denominator is above 2^63 - 1.
#[derive(Clone, Copy, Debug, PartialEq, Eq)]
pub(crate) struct Large;

/// Why nothing was subtracted from a row.
#[derive(Clone, Copy, Debug, PartialEq, Eq, Error)]
pub enum RowStop {
    /// There is no memory for what is left.
    #[error("there is no memory for what is left of the row")]
    Memory,
    /// A bound on the numbers over the row's denominator is above 2^63 - 1.
    #[error("a number over the row's denominator passes 2^63 - 1")]
    Large,
}

impl From<AllocError> for RowStop {
    ghost use Rattle.whole_rows.specs.declared.stops.RowStop.TheVariants.{Memory};

    ghost from_gives = { λ _ stop. stop ≡ Memory };

    fn from(_error: AllocError) -> RowStop {
        RowStop::Memory
    }
}

impl From<Large> for RowStop {
    ghost use Rattle.whole_rows.specs.declared.stops.RowStop.TheVariants as row_stop;

    ghost from_gives = { λ _ stop. stop ≡ row_stop.Large };

    fn from(_large: Large) -> RowStop {
        RowStop::Large
    }
}
