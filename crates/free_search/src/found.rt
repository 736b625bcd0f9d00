//! What a search answers.

ghost use Rattle.std.specs.Prelude.{◌≡◌};

use program_form::Dual;
use std::alloc::{AllocError, AllocFailed};
use thiserror::Error;
use whole_numbers::Whole;

/// What is read off the end of a run: a point of the program, what it is worth, and a dual.
///
/// The fields are open, so a value by itself shows nothing. One that `search` answers is proved to be read off the last table of the
/// program's exchange run.
#[derive(Debug, Drop)]
pub struct Found {
    /// The denominator of the point, at least 1.
    pub den: Whole,
    /// The number of each column over that denominator.
    pub num: Vec<Whole>,
    /// The whole part of what the point is worth, in ticks.
    pub ticks: u64,
    /// The dual: in lowest terms if these have 63 bits. If no exact dual has, each number is rounded up, over the greatest power of two at
    /// which all of them have 63 bits.
    pub dual: Dual,
    /// How many units the search took.
    pub used: u64,
}

/// Why a search found nothing.
#[derive(Clone, Copy, Debug, PartialEq, Eq, Error)]
pub enum SearchStop {
    /// There is no memory for the numbers.
    #[error("there is no memory for the numbers of the search")]
    Memory,
    /// The search takes more units than it was given.
    #[error("the search takes more units than it was given")]
    Units,
    /// The worth of the point has more than 64 bits, or a number of the dual is above 2^63 - 1.
    #[error("what the search found doesn't fit into 63 bits")]
    Lost,
}

impl From<AllocError> for SearchStop {
    ghost use Rattle.free_search.specs.declared.found.SearchStop.TheVariants.{Memory};

    ghost from_gives = { λ _ stop. stop ≡ Memory };

    fn from(_error: AllocError) -> SearchStop {
        SearchStop::Memory
    }
}

impl<T: Drop> From<AllocFailed<T>> for SearchStop {
    ghost use Rattle.free_search.specs.declared.found.SearchStop.TheVariants.{Memory};

    ghost from_gives = { λ _ stop. stop ≡ Memory };

    fn from(_refused: AllocFailed<T>) -> SearchStop {
        SearchStop::Memory
    }
}
