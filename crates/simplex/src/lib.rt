//! The exact optimum of a blocking program, by exchanges of tables of fractions.
//!
//! A [`SparseProgram`] keeps a program by its nonzero coefficients. So its limits can be renewed, and it can be solved again.
//!
//! The run is tried over whole numbers (`whole_runs`). If those don't fit, it is made over fractions here. `start` makes the first table.
//! `choice` says which variable enters and which row leaves. `exchange` makes the next table. `end` reads the answer from the last one. A
//! row of a table is read only by its places and cells.
#![tactic(auto)]

ghost use Rattle.std.specs.Prelude.{◌≡◌, slice_index, IfOk};
ghost use Rattle.fraction128.specs.Scaling.{IsScaled};
ghost use Rattle.program_form.specs.Certificate.{dual_seen};
ghost use Rattle.program_form.specs.Points.{IsGreatestReached};
ghost use Rattle.program_form.specs.Duals.{IsOptimalDual, dual_total, dual_value};
ghost use Rattle.program_form.specs.Program.{IsProgram};
ghost use Rattle.exchange_runs.specs.Feasible.{IsOptimumValue, IsPointWorth};
ghost use Rattle.simplex.specs.Solves.{Solves, IsOnlyAnswer};

use fraction128::{Frac, Wide};
use program_form::{Dual, Program};
use std::alloc::{AllocError, AllocFailed, Global};
use thiserror::Error;
use whole_runs::{Ended, Halt, run_whole};

mod choice;
mod end;
mod entries;
mod exchange;
mod row;
mod start;

use choice::entering;
use end::finish;
use exchange::step;
pub use program_form::SparseProgram;
use start::{first_basis, first_rows};

/// The end of an exchange run: the optimum, a point that attains it, and a dual that shows that no point is worth more.
#[derive(Debug, Drop)]
pub struct Solved {
    /// The optimum.
    pub value: Frac,
    /// The value of each column at a best point.
    pub primal: Vec<Frac>,
    /// A best dual, over its least common denominator.
    pub dual: Dual,
    /// How many exchanges the run made.
    pub exchanges: u64,
}

/// Why a program was not solved.
#[derive(Clone, Copy, Debug, PartialEq, Eq, Error)]
pub enum SolveStop {
    /// There is no memory for the table.
    #[error("there is no memory for the table")]
    Memory,
    /// The run is wide: a value of an exchange, or of the dual at the end, is above 2^63 - 1 in size.
    #[error("a value of the exchange run passes 2^63 - 1")]
    Wide,
    /// The run needs more units than it was given.
    #[error("the exchange run takes more units than it was given")]
    Units,
}

impl From<AllocError> for SolveStop {
    ghost use Rattle.simplex.specs.declared.SolveStop.TheVariants.{Memory};

    ghost from_gives = { λ _ stop. stop ≡ Memory };

    fn from(_error: AllocError) -> SolveStop {
        SolveStop::Memory
    }
}

impl<T: Drop> From<AllocFailed<T>> for SolveStop {
    ghost use Rattle.simplex.specs.declared.SolveStop.TheVariants.{Memory};

    ghost from_gives = { λ _ stop. stop ≡ Memory };

    fn from(_refused: AllocFailed<T>) -> SolveStop {
        SolveStop::Memory
    }
}

impl From<Wide> for SolveStop {
    ghost use Rattle.simplex.specs.declared.SolveStop.TheVariants.{Wide as WideRun};

    ghost from_gives = { λ _ stop. stop ≡ WideRun };

    fn from(_wide: Wide) -> SolveStop {
        SolveStop::Wide
    }
}

/// Solves a program by its exchange run. The run takes 1 unit, and 1 more for each exchange begun.
///
/// `Wide` comes exactly if the run is wide within the units, and `Units` exactly if it needs more units. No program is unbounded, so there
/// is no such answer.
pub fn solve(alloc: Global, program: &Program, units: u64) -> Result<Solved, SolveStop>
    ensures run { Solves result program.now units }
    ensures only { IsOnlyAnswer result program.now units }
    ensures optimum { IfOk result (λ s. IsOptimumValue program.now s.value) }
    ensures primal { IfOk result (λ s. IsPointWorth program.now s.primal.items s.value) }
    ensures dual { IfOk result (λ s. IsOptimalDual program.now (dual_seen s.dual)) }
    ensures equal { IfOk result (λ s. IsScaled s.dual.den s.value (dual_total program.now (λ r. slice_index s.dual.num.items r))) }
    ensures greatest { IfOk result
        (λ s. IsGreatestReached program.now (dual_value program.now s.dual.den (λ r. slice_index s.dual.num.items r))) }
{
    let sparse = SparseProgram::new(alloc, program)?;
    solve_sparse(alloc, &sparse, units)
}

/// Solves a program that is kept by its nonzero coefficients, with the answer of [`solve`]. It only reads the program, so threads may share
/// one.
pub fn solve_sparse(alloc: Global, program: &SparseProgram, units: u64) -> Result<Solved, SolveStop>
    ensures run { Solves result program.now units }
    ensures only { IsOnlyAnswer result program.now units }
    ensures optimum { IfOk result (λ s. IsOptimumValue program.now s.value) }
    ensures primal { IfOk result (λ s. IsPointWorth program.now s.primal.items s.value) }
    ensures dual { IfOk result (λ s. IsOptimalDual program.now (dual_seen s.dual)) }
    ensures equal { IfOk result (λ s. IsScaled s.dual.den s.value (dual_total program.now (λ r. slice_index s.dual.num.items r))) }
    ensures greatest { IfOk result
        (λ s. IsGreatestReached program.now (dual_value program.now s.dual.den (λ r. slice_index s.dual.num.items r))) }
{
    run_either(alloc, program, units)
}

// The exchange run over whole numbers, or over fractions if a number of that run is too large.
fn run_either(alloc: Global, program: &SparseProgram, units: u64) -> Result<Solved, SolveStop>
    ensures outcome { Solves result program.now units }
    ensures program { IsProgram program.now }
{
    // a proof knows that it is a program once it is read
    let _rows = program.rows();
    match run_whole(alloc, program, units) {
        Ok(
            Ended {
                value,
                primal,
                dual,
                exchanges,
            },
        ) => Ok(Solved {
            value,
            primal,
            dual,
            exchanges,
        }),
        Err(Halt::Memory) => Err(SolveStop::Memory),
        Err(Halt::Units) => Err(SolveStop::Units),
        Err(Halt::Large) => run(alloc, program, units),
    }
}

// The exchange run over fractions, up to its end or its first stop.
fn run(alloc: Global, program: &SparseProgram, units: u64) -> Result<Solved, SolveStop>
    ensures outcome { Solves result program.now units }
    ensures program { IsProgram program.now }
{
    let mut rows = first_rows(alloc, program)?;
    let mut basis = first_basis(alloc, program)?;
    for exchanges in 0..units {
        let e = match entering(program, &rows) {
            Some(e) => e,
            None => return finish(alloc, program, &rows, &basis, exchanges),
        };
        if exchanges + 1 == units {
            return Err(SolveStop::Units);
        }
        step(alloc, program, &mut rows, &mut basis, e)?;
    }
    Err(SolveStop::Units)
}
