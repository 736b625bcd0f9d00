//! What is read from the last table.

ghost use Rattle.std.specs.Prelude.{◌≡◌, ◌<◌, length, IfOk};
ghost use Rattle.fraction128.specs.Fraction.{over};
ghost use Rattle.program_form.specs.Program.{columns, height};
ghost use Rattle.exchange_runs.specs.Readings.{minus};
ghost use Rattle.exchange_runs.specs.SmallRuns.{IsSmall, IsLowestOf};
ghost use Rattle.whole_runs.specs.Ends.{objective_cell, IsStandOf, AreLowestDuals, IsLowestValue, AreLowestValues};
ghost use Rattle.whole_runs.specs.Ends.{CanReadDuals, CanGiveDual, GivesDual, CanReadValues, HasLastTable, FinishesAt};

use crate::Ended;
use crate::reading::objective;
use crate::stands::Stand;
use crate::stops::Halt;
use fraction128::{Frac, Scaled, ScalingError, Wide, scale};
use program_form::{Dual, SparseProgram};
use std::alloc::{AllocError, Global};
use whole_rows::WholeRow;

// A cell in lowest terms. If its parts are small, those are small too.
fn lowest(num: i64, den: i64) -> Frac
    requires { IsSmall (over num den) }
    ensures { IsLowestOf (over num den) result }
{
    match Frac::ratio(num as i128, den as i128) {
        Ok(value) => value,
        Err(Wide) => unreachable!(),
    }
}

// Minus the cell of the objective row for a variable with this stand.
fn minus_cell(program: &SparseProgram, objective: &WholeRow, stand: Stand) -> Frac
    requires places { length objective.now.nums ≡ columns program.now }
    requires stand { IsStandOf program.now stand }
    ensures { IsLowestOf (minus (objective_cell program.now objective.now stand)) result }
{
    match stand {
        Stand::Outside(k) => lowest(objective.num(k), objective.den()).neg(),
        Stand::Basic(_) => Frac::whole(0),
    }
}

// The duals of the rows.
fn duals_of(
    alloc: Global,
    program: &SparseProgram,
    objective: &WholeRow,
    stands: &[Stand],
) -> Result<Vec<Frac>, AllocError>
    requires { CanReadDuals program.now objective.now stands.now }
    ensures { IfOk result (λ v. AreLowestDuals program.now objective.now stands.now v.items) }
{
    let columns = program.columns() as usize;
    let rows = program.rows() as usize;
    let mut duals = Vec::with_capacity(alloc, rows)?;
    for r in 0..rows {
        duals.push(minus_cell(program, objective, stands[columns + r]))?;
    }
    Ok(duals)
}

// The dual of the objective row of a last table. `Large` comes if it is wide.
fn dual_of(
    alloc: Global,
    program: &SparseProgram,
    objective: &WholeRow,
    stands: &[Stand],
) -> Result<Dual, Halt>
    requires { CanGiveDual program.now objective.now stands.now }
    ensures { GivesDual result program.now objective.now stands.now }
{
    let duals = duals_of(alloc, program, objective, stands)?;
    match scale(alloc, &duals) {
        Ok(Scaled { den, num }) => Ok(Dual { den, num }),
        Err(ScalingError::Memory) => Err(Halt::Memory),
        Err(ScalingError::Wide) => Err(Halt::Large),
    }
}

// The value of a variable with this stand.
fn value_at(program: &SparseProgram, rows: &[Option<WholeRow>], stand: Stand) -> Frac
    requires rows { height program.now < length rows.now }
    requires stand { IsStandOf program.now stand }
    ensures { IsLowestValue program.now rows.now stand result }
{
    match stand {
        Stand::Outside(_) => Frac::whole(0),
        Stand::Basic(j) => match &rows[j] {
            Some(row) => lowest(row.limit(), row.den()),
            None => Frac::whole(program.limits()[j]),
        },
    }
}

// The value of each column.
fn primal_of(
    alloc: Global,
    program: &SparseProgram,
    rows: &[Option<WholeRow>],
    stands: &[Stand],
) -> Result<Vec<Frac>, AllocError>
    requires { CanReadValues program.now rows.now stands.now }
    ensures { IfOk result (λ v. AreLowestValues program.now rows.now stands.now v.items) }
{
    let columns = program.columns() as usize;
    let mut values = Vec::with_capacity(alloc, columns)?;
    for c in 0..columns {
        values.push(value_at(program, rows, stands[c]))?;
    }
    Ok(values)
}

// The answer at the last table of a run.
pub(crate) fn finish(
    alloc: Global,
    program: &SparseProgram,
    rows: &[Option<WholeRow>],
    stands: &[Stand],
    exchanges: u64,
) -> Result<Ended, Halt>
    requires { HasLastTable program.now rows.now stands.now }
    ensures { FinishesAt result program.now rows.now stands.now exchanges }
{
    let objective = objective(program, rows);
    let value = lowest(objective.limit(), objective.den()).neg();
    let dual = dual_of(alloc, program, objective, stands)?;
    let primal = primal_of(alloc, program, rows, stands)?;
    Ok(Ended {
        value,
        primal,
        dual,
        exchanges,
    })
}
