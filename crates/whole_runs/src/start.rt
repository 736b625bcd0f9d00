//! The first tableau: its rows, its basis, its stands and its marks.

ghost use Rattle.std.specs.Prelude.{◌≡◌, ℕ, ◌<◌, [], length, IfOk, OnOk};
ghost use Rattle.program_form.specs.Program.{columns, height};
ghost use Rattle.program_form.specs.SparseRows.{coefficient_at};
ghost use Rattle.whole_rows.specs.Marks.{HasWord};
ghost use Rattle.whole_runs.specs.Writing.{AreCosts, IsCostBound};
ghost use Rattle.whole_runs.specs.Writing.{AreColumnStands, AreMarkedIn, AreCostsMarked};
ghost use Rattle.whole_runs.specs.Starts.{IsFirstRow, IsCostRow, AreFirstRows, IsFirstBasis, AreFirstStands};
ghost use Rattle.whole_runs.specs.Starts.{AreFirstOutside, AreFirstMarks, IsFirstTableau};

use crate::stands::Stand;
use crate::tableau::Tableau;
use program_form::{Coefficient, SparseProgram};
use std::alloc::{AllocError, Global};
use whole_rows::{RowMarks, WholeRow};

// Row i of the program.
#[inline(never)]
pub(crate) fn first_row(
    alloc: Global,
    program: &SparseProgram,
    i: usize,
) -> Result<WholeRow, AllocError>
    requires { i < height program.now }
    ensures { IfOk result (IsFirstRow program.now i) }
{
    WholeRow::of_coefficients(
        alloc,
        program.columns() as usize,
        program.coefficients(i),
        program.limit(i as u32),
    )
}

// The costs, one for each column.
fn cost_nums(alloc: Global, program: &SparseProgram) -> Result<Vec<i64>, AllocError>
    ensures { IfOk result (λ v. AreCosts program.now v.items) }
{
    let mut nums = Vec::with_capacity(alloc, program.columns() as usize)?;
    for c in 0..program.columns() {
        nums.push(program.cost(c) as i64)?;
    }
    Ok(nums)
}

// The greatest of the costs and 1.
fn greatest_cost(program: &SparseProgram) -> u64
    ensures { IsCostBound program.now result }
{
    let mut most = 1;
    for c in 0..program.columns() {
        most = most.max(program.cost(c));
    }
    most
}

// The objective row.
fn cost_row(alloc: Global, program: &SparseProgram) -> Result<WholeRow, AllocError>
    ensures { IfOk result (IsCostRow program.now) }
{
    let nums = cost_nums(alloc, program)?;
    Ok(WholeRow::over_one(nums, 0, greatest_cost(program)))
}

// The rows of the first table. None of the program's rows is changed yet, and the objective row is the last.
fn first_rows(alloc: Global, program: &SparseProgram) -> Result<Vec<Option<WholeRow>>, AllocError>
    ensures { IfOk result (λ rows. AreFirstRows program.now rows.items) }
{
    let mut rows = Vec::with_capacity(alloc, program.rows() as usize + 1)?;
    for _ in 0..program.rows() {
        rows.push(None)?;
    }
    rows.push(Some(cost_row(alloc, program)?))?;
    Ok(rows)
}

// The slacks, which are the first basis.
fn first_basis(alloc: Global, program: &SparseProgram) -> Result<Vec<usize>, AllocError>
    ensures { IfOk result (λ basis. IsFirstBasis program.now basis.items) }
{
    let mut basis = Vec::with_capacity(alloc, program.rows() as usize)?;
    for r in 0..program.rows() {
        basis.push(program.columns() as usize + r as usize)?;
    }
    Ok(basis)
}

// The columns, each at its own place.
fn first_outside(alloc: Global, program: &SparseProgram) -> Result<Vec<usize>, AllocError>
    ensures { IfOk result (λ outside. AreFirstOutside program.now outside.items) }
{
    let mut outside = Vec::with_capacity(alloc, program.columns() as usize)?;
    for c in 0..program.columns() {
        outside.push(c as usize)?;
    }
    Ok(outside)
}

// Adds the columns, each at its own place.
fn push_columns(stands: &mut Vec<Stand>, count: usize) -> Result<(), AllocError>
    requires { stands.old.items ≡ [] }
    ensures { OnOk result (AreColumnStands count stands.new.items) }
{
    for c in 0..count {
        stands.push(Stand::Outside(c))?;
    }
    Ok(())
}

// The stands of the first table.
fn first_stands(alloc: Global, program: &SparseProgram) -> Result<Vec<Stand>, AllocError>
    ensures { IfOk result (λ stands. AreFirstStands program.now stands.items) }
{
    let columns = program.columns() as usize;
    let rows = program.rows() as usize;
    let mut stands = Vec::with_capacity(alloc, columns + rows)?;
    push_columns(&mut stands, columns)?;
    for r in 0..rows {
        stands.push(Stand::Basic(r))?;
    }
    Ok(stands)
}

// Marks row i at each column of its coefficients.
fn mark_all(marks: &mut RowMarks, coefficients: &[Coefficient], i: usize)
    requires { (k : ℕ) → k < length coefficients.now → HasWord marks.old (coefficient_at coefficients.now k).column i }
    ensures { AreMarkedIn marks.old marks.new coefficients.now i }
{
    for coefficient in coefficients {
        marks.mark(coefficient.column as usize, i);
    }
}

// Marks the objective row at each column with a nonzero cost.
fn mark_costs(marks: &mut RowMarks, program: &SparseProgram)
    requires { (c : ℕ) → c < columns program.now → HasWord marks.old c (height program.now) }
    ensures { AreCostsMarked program.now marks.old marks.new }
{
    let objective = program.rows() as usize;
    for c in 0..program.columns() {
        if program.cost(c) != 0 {
            marks.mark(c as usize, objective);
        }
    }
}

// The marks of the first rows, with the objective row.
fn first_marks(alloc: Global, program: &SparseProgram) -> Result<RowMarks, AllocError>
    ensures { IfOk result (AreFirstMarks program.now) }
{
    let rows = program.rows() as usize;
    let mut marks = RowMarks::none(alloc, program.columns() as usize, rows + 1)?;
    mark_costs(&mut marks, program);
    for i in 0..rows {
        mark_all(&mut marks, program.coefficients(i), i);
    }
    Ok(marks)
}

// The first tableau.
pub(crate) fn first_tableau(alloc: Global, program: &SparseProgram) -> Result<Tableau, AllocError>
    ensures { IfOk result (IsFirstTableau program.now) }
{
    Ok(Tableau {
        rows: first_rows(alloc, program)?,
        marks: first_marks(alloc, program)?,
        basis: first_basis(alloc, program)?,
        stands: first_stands(alloc, program)?,
        outside: first_outside(alloc, program)?,
    })
}
