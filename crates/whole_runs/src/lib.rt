//! The exchange run of a blocking program over whole numbers. Each row has one denominator, and only variables outside the basis have a
//! place in it.
//!
//! Most runs never need a number above 2^63 - 1 in this way. If one does, [`Halt::Large`] says that this way of keeping the rows isn't
//! enough. It doesn't say whether an exchange of the run itself is wide.
#![tactic(auto)]

ghost use Rattle.whole_runs.specs.Ends.{Runs};

use fraction128::Frac;
use program_form::{Dual, SparseProgram};
use std::alloc::Global;
use whole_rows::Pivot;

mod choice;
mod end;
mod exchange;
mod reading;
mod stands;
mod start;
mod stops;
mod tableau;

use choice::entering;
use end::finish;
use exchange::step;
use start::first_tableau;
// definitions of other crates name it
pub use stands::Stand;
pub use stops::Halt;
use tableau::Lines;

/// The end of an exchange run.
#[derive(Debug, Drop)]
pub struct Ended {
    /// The optimum.
    pub value: Frac,
    /// The value of each column at a best point.
    pub primal: Vec<Frac>,
    /// A best dual, over its least common denominator.
    pub dual: Dual,
    /// How many exchanges the run made.
    pub exchanges: u64,
}

/// Makes the exchange run of a program. It takes 1 unit, and 1 more for each exchange begun.
///
/// `Units` comes only if the run needs more units. `Large` comes only if whole numbers aren't enough for the run: at some exchange a row is
/// too large for what is subtracted from it, or at the end the dual is wide.
// if it were inlined into its caller, the loops would lack registers
#[inline(never)]
pub fn run_whole(alloc: Global, program: &SparseProgram, units: u64) -> Result<Ended, Halt>
    ensures { Runs result program.now units }
{
    let mut tableau = first_tableau(alloc, program)?;
    let mut lines = Lines {
        column: Vec::with_capacity(alloc, program.rows() as usize + 1)?,
        pivot: Pivot::none(alloc),
    };
    // no variable below it has a number above zero in the objective row
    let mut from = 0;
    for exchanges in 0..units {
        let (e, k) = match entering(program, &tableau.rows, &tableau.stands, from) {
            Some(found) => found,
            None => return finish(alloc, program, &tableau.rows, &tableau.stands, exchanges),
        };
        if exchanges + 1 == units {
            return Err(Halt::Units);
        }
        from = step(alloc, program, &mut tableau, &mut lines, e, k)?;
    }
    Err(Halt::Units)
}
