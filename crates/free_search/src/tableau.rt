//! The table of a run, and its exchanges.

ghost use Rattle.std.specs.Prelude.{ℕ, ◌<◌, length, IfOk, OnOk};
ghost use Rattle.whole_rows.specs.Rows.{AreBelow};
ghost use Rattle.free_search.specs.Tables.{HavePlaces};
ghost use Rattle.free_search.specs.RowSteps.{ChangesRow, CanTake, IsTaken};
ghost use Rattle.free_search.specs.Given.{CanDivideRow, CanTakeFrom, CanExchangeRows, CanExchange};
ghost use Rattle.free_search.specs.Exchanges.{DividesOnly, TakesFrom, IsExchanged, AreTakenTo, ExchangesRows};

use crate::row::{FreeRow, Pivot};
use std::alloc::{AllocError, Global};

/// The table of a run. A variable of the basis has no place in its rows.
#[derive(Drop)]
pub(crate) struct Tableau {
    /// The rows of the program.
    pub(crate) rows: Vec<FreeRow>,
    /// The objective row.
    pub(crate) objective: FreeRow,
    /// The basic variable of each row.
    pub(crate) basis: Vec<usize>,
    /// The variable at each place.
    pub(crate) outside: Vec<usize>,
}

// Takes the pivot row away from a row, its cell at place k times. If that cell is 0, the row stays.
fn take_from(alloc: Global, row: &mut FreeRow, k: usize, pivot: &Pivot) -> Result<(), AllocError>
    requires { CanTake row.old k pivot.now }
    ensures { ChangesRow result row.old row.new (IsTaken row.old k pivot.now) }
{
    // its denominator is above 0, so where nothing is taken away each cell keeps its value
    let _positive = row.den();
    if row.num(k).is_zero() {
        return Ok(());
    }
    row.take(alloc, k, pivot)
}

// Divides row r by its number at place k, and reads it as the pivot.
fn divide(alloc: Global, rows: &mut [FreeRow], k: usize, r: usize) -> Result<Pivot, AllocError>
    requires { CanDivideRow rows.old k r }
    ensures { DividesOnly result rows.old k r rows.new }
{
    rows[r].enter(alloc, k)?;
    Pivot::of(alloc, &rows[r])
}

// Takes the pivot row away from row i, its cell at place k times, unless it is row r itself.
fn take_row(
    alloc: Global,
    rows: &mut [FreeRow],
    i: usize,
    k: usize,
    r: usize,
    pivot: &Pivot,
) -> Result<(), AllocError>
    requires { CanTakeFrom rows.old i k pivot.now }
    ensures { TakesFrom result rows.old i k r pivot.now rows.new }
{
    if i == r {
        return Ok(());
    }
    take_from(alloc, &mut rows[i], k, pivot)
}

// Takes the pivot row away from each row but r, its cell at place k times.
fn take_all(
    alloc: Global,
    rows: &mut [FreeRow],
    k: usize,
    r: usize,
    pivot: &Pivot,
) -> Result<(), AllocError>
    requires places { (n : ℕ) × (k < n) × (HavePlaces n rows.old) × AreBelow n pivot.now.entries }
    ensures { OnOk result (AreTakenTo (length rows.old) rows.old rows.new k r pivot.now) }
{
    for i in 0..rows.len() {
        take_row(alloc, rows, i, k, r, pivot)?;
    }
    Ok(())
}

// Divides row r by its number at place k, and takes it away from the others. Gives it as the pivot.
fn exchange_rows(
    alloc: Global,
    rows: &mut [FreeRow],
    k: usize,
    r: usize,
) -> Result<Pivot, AllocError>
    requires { CanExchangeRows rows.old k r }
    ensures { IfOk result (λ pivot. ExchangesRows rows.old rows.new k r pivot) }
{
    let pivot = divide(alloc, rows, k, r)?;
    take_all(alloc, rows, k, r, &pivot)?;
    Ok(pivot)
}

/// The exchange where the variable at place k enters and row r leaves.
pub(crate) fn exchange(
    alloc: Global,
    tableau: &mut Tableau,
    k: usize,
    r: usize,
) -> Result<(), AllocError>
    requires { CanExchange tableau.old k r }
    ensures { OnOk result (IsExchanged tableau.old k r tableau.new) }
{
    let pivot = exchange_rows(alloc, &mut tableau.rows, k, r)?;
    take_from(alloc, &mut tableau.objective, k, &pivot)?;
    let entered = tableau.outside[k];
    tableau.outside[k] = tableau.basis[r];
    tableau.basis[r] = entered;
    Ok(())
}
