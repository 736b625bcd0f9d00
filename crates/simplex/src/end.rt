//! What is read from the last table.

ghost use Rattle.std.specs.Prelude.{◌≡◌, ℕ, IfOk};
ghost use Rattle.program_form.specs.Program.{height};
ghost use Rattle.exchange_runs.specs.Table.{Table};
ghost use Rattle.exchange_runs.specs.Readings.{IsPrimal};
ghost use Rattle.simplex.specs.Rows.{cell_at};
ghost use Rattle.simplex.specs.Tables.{table_of, HasSize};
ghost use Rattle.simplex.specs.Ends.{IsLastRow, WritesDual, AreZeros, CanWriteLimits, AreLimitsOf, HasLastTable, Finishes};

use crate::row::SparseRow;
use crate::{SolveStop, Solved};
use fraction128::{Frac, Scaled, ScalingError, scale};
use program_form::{Dual, SparseProgram};
use std::alloc::{AllocError, Global};

// The dual of the objective row of a last table.
fn dual_of(alloc: Global, program: &SparseProgram, row: &SparseRow) -> Result<Dual, SolveStop>
    requires { IsLastRow program.now row.now }
    ensures { (t : Table) → ((v : ℕ) → t.cell (height program.now) v ≡ cell_at row.now v) → WritesDual result program.now t }
{
    let columns = program.columns() as usize;
    let variables = columns + program.rows() as usize;
    let duals = row.minus_cells(alloc, columns, variables)?;
    match scale(alloc, &duals) {
        Ok(Scaled { den, num }) => Ok(Dual { den, num }),
        Err(ScalingError::Memory) => Err(SolveStop::Memory),
        Err(ScalingError::Wide) => Err(SolveStop::Wide),
    }
}

// This many zeros.
fn zeros(alloc: Global, count: usize) -> Result<Vec<Frac>, AllocError>
    ensures { IfOk result (λ v. AreZeros count v.items) }
{
    let mut list = Vec::with_capacity(alloc, count)?;
    for _ in 0..count {
        list.push(Frac::whole(0))?;
    }
    Ok(list)
}

// Writes the limit of each row whose basic variable is a column at that column.
fn write_limits(values: &mut [Frac], rows: &[SparseRow], basis: &[usize], place: usize)
    requires { CanWriteLimits values.old rows.now basis.now place }
    ensures { AreLimitsOf rows.now basis.now place values.new }
{
    for i in 0..basis.len() {
        let column = basis[i];
        if column < values.len() {
            values[column] = rows[i].cell(place);
        }
    }
}

// The value of each column.
fn primal_of(
    alloc: Global,
    program: &SparseProgram,
    rows: &[SparseRow],
    basis: &[usize],
) -> Result<Vec<Frac>, AllocError>
    requires size { HasSize program.now rows.now basis.now }
    ensures { IfOk result (λ v. IsPrimal program.now (table_of rows.now basis.now) v.items) }
{
    let columns = program.columns() as usize;
    let variables = columns + program.rows() as usize;
    let mut values = zeros(alloc, columns)?;
    write_limits(&mut values, rows, basis, variables);
    Ok(values)
}

// The answer at the last table of a run.
pub(crate) fn finish(
    alloc: Global,
    program: &SparseProgram,
    rows: &[SparseRow],
    basis: &[usize],
    exchanges: u64,
) -> Result<Solved, SolveStop>
    requires { HasLastTable program.now rows.now basis.now }
    ensures { Finishes result program.now (table_of rows.now basis.now) exchanges }
{
    let objective = program.rows() as usize;
    let variables = program.columns() as usize + objective;
    let value = rows[objective].cell(variables).neg();
    let dual = dual_of(alloc, program, &rows[objective])?;
    let primal = primal_of(alloc, program, rows, basis)?;
    Ok(Solved {
        value,
        primal,
        dual,
        exchanges,
    })
}
