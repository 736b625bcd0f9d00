//! One exchange of a table.

ghost use Rattle.std.specs.Prelude.{◌≡◌, ◌≢◌, ℕ, ◌<◌, length};
ghost use Rattle.simplex.specs.Rows.{places};
ghost use Rattle.simplex.specs.Tables.{row_of};
ghost use Rattle.simplex.specs.Exchanges.{TakesAll, CanExchange, ExchangesIn, CanStep, Steps};

use crate::SolveStop;
use crate::choice::leaving;
use crate::row::SparseRow;
use fraction128::Wide;
use program_form::SparseProgram;
use std::alloc::Global;

// Subtracts from each row but r its cell at e times the pivot row. If that cell is zero, the row stays.
fn take_all(
    alloc: Global,
    rows: &mut [SparseRow],
    e: usize,
    r: usize,
    pivot: &SparseRow,
) -> Result<(), SolveStop>
    requires { (i : ℕ) → i < length rows.old → i ≢ r → places (row_of rows.old i) ≡ places pivot.now }
    ensures { TakesAll result rows.old rows.new e r pivot.now }
{
    for i in 0..rows.len() {
        let cell = rows[i].cell(e);
        if i != r && !cell.is_zero() {
            let left = rows[i].difference(alloc, cell, pivot)?;
            rows[i] = left;
        }
    }
    Ok(())
}

// Divides row r by its cell at e. Then subtracts it from each other row, times that row's cell at e.
fn exchange(alloc: Global, rows: &mut [SparseRow], e: usize, r: usize) -> Result<(), SolveStop>
    requires { CanExchange rows.old e r }
    ensures { ExchangesIn result rows.old rows.new e r }
{
    let cell = rows[r].cell(e);
    let pivot = rows[r].quotient(alloc, cell)?;
    take_all(alloc, rows, e, r, &pivot)?;
    rows[r] = pivot;
    Ok(())
}

// The exchange of the run if the variable e enters.
pub(crate) fn step(
    alloc: Global,
    program: &SparseProgram,
    rows: &mut [SparseRow],
    basis: &mut [usize],
    e: usize,
) -> Result<(), SolveStop>
    requires { CanStep program.now rows.old basis.old e }
    ensures { Steps result program.now e rows.old basis.old rows.new basis.new }
{
    let variables = program.columns() as usize + program.rows() as usize;
    let r = match leaving(rows, basis, e, variables) {
        Ok(Some((r, _))) => r,
        Ok(None) => unreachable!(),
        Err(Wide) => return Err(SolveStop::Wide),
    };
    exchange(alloc, rows, e, r)?;
    basis[r] = e;
    Ok(())
}
