//! The first table.

ghost use Rattle.std.specs.Prelude.{◌+◌, ◌<◌, ◌^◌, IfOk};
ghost use Rattle.program_form.specs.Program.{height};
ghost use Rattle.whole_runs.specs.Starts.{IsFirstRow, IsCostRow};
ghost use Rattle.free_search.specs.Begun.{AreZeros, AreCoefficientsWritten, AreCounted, AreRowsOf, IsFirstTable};
ghost use Rattle.free_search.specs.Given.{CanWriteAll};

use crate::row::FreeRow;
use crate::tableau::Tableau;
use program_form::{Coefficient, SparseProgram};
use std::alloc::{AllocError, Global};
use whole_numbers::{Signed, Whole};

// So many zeros.
fn zeros(alloc: Global, count: usize) -> Result<Vec<Signed>, AllocError>
    ensures { IfOk result (λ v. AreZeros count v.items) }
{
    let mut nums = Vec::with_capacity(alloc, count)?;
    for _ in 0..count {
        nums.push(Signed::of(Whole::zero(alloc)))?;
    }
    Ok(nums)
}

// Writes the coefficients at their columns.
fn write_all(alloc: Global, nums: &mut [Signed], coefficients: &[Coefficient])
    requires { CanWriteAll nums.old coefficients.now }
    ensures { AreCoefficientsWritten nums.old coefficients.now nums.new }
{
    for coefficient in coefficients {
        nums[coefficient.column as usize] = Signed::of(Whole::of(alloc, coefficient.number));
    }
}

// Row i of the program.
fn first_row(alloc: Global, program: &SparseProgram, i: u32) -> Result<FreeRow, AllocError>
    requires { i < height program.now }
    ensures { IfOk result (IsFirstRow program.now i) }
{
    let mut nums = zeros(alloc, program.columns() as usize)?;
    write_all(alloc, &mut nums, program.coefficients(i as usize));
    let limit = Signed::of(Whole::of(alloc, program.limit(i)));
    Ok(FreeRow::over_one(alloc, nums, limit))
}

// The objective row.
fn cost_row(alloc: Global, program: &SparseProgram) -> Result<FreeRow, AllocError>
    ensures { IfOk result (IsCostRow program.now) }
{
    let mut nums = Vec::with_capacity(alloc, program.columns() as usize)?;
    for c in 0..program.columns() {
        nums.push(Signed::of(Whole::of(alloc, program.cost(c))))?;
    }
    Ok(FreeRow::over_one(alloc, nums, Signed::of(Whole::zero(alloc))))
}

// The rows.
fn first_rows(alloc: Global, program: &SparseProgram) -> Result<Vec<FreeRow>, AllocError>
    ensures { IfOk result (λ rows. AreRowsOf program.now rows.items) }
{
    let mut rows = Vec::with_capacity(alloc, program.rows() as usize)?;
    for i in 0..program.rows() {
        rows.push(first_row(alloc, program, i)?)?;
    }
    Ok(rows)
}

// The whole numbers from `first` on.
fn count_from(alloc: Global, first: usize, count: usize) -> Result<Vec<usize>, AllocError>
    requires { first + count < 2 ^ 64 }
    ensures { IfOk result (λ v. AreCounted first count v.items) }
{
    let mut list = Vec::with_capacity(alloc, count)?;
    for k in 0..count {
        list.push(first + k)?;
    }
    Ok(list)
}

/// The first table: the slacks are the basis, and each column stands at its own place.
pub(crate) fn first_tableau(alloc: Global, program: &SparseProgram) -> Result<Tableau, AllocError>
    ensures { IfOk result (IsFirstTable program.now) }
{
    let columns = program.columns() as usize;
    let rows = program.rows() as usize;
    Ok(Tableau {
        rows: first_rows(alloc, program)?,
        objective: cost_row(alloc, program)?,
        basis: count_from(alloc, columns, rows)?,
        outside: count_from(alloc, 0, columns)?,
    })
}
