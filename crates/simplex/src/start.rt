//! The first table of a program.

ghost use Rattle.std.specs.Prelude.{◌<◌, ◌≤◌, IfOk};
ghost use Rattle.program_form.specs.Program.{IsProgram, columns, height};
ghost use Rattle.exchange_runs.specs.Table.{variables};
ghost use Rattle.simplex.specs.Starts.{IsFirstLimit, AreFirstEntries, IsFirstRow, AreFirstRows, IsFirstBasis};

use crate::entries::Entry;
use crate::row::SparseRow;
use fraction128::Frac;
use program_form::SparseProgram;
use std::alloc::{AllocError, Global};

// The limit of row i, or zero for the objective row.
fn bound_of(program: &SparseProgram, i: usize) -> u64
    requires { i ≤ height program.now }
    ensures { IsFirstLimit program.now i result }
{
    if i < program.rows() as usize {
        program.limit(i as u32)
    } else {
        0
    }
}

// The coefficients of row i, as cells.
fn row_entries(alloc: Global, program: &SparseProgram, i: usize) -> Result<Vec<Entry>, AllocError>
    requires { i < height program.now }
    ensures { IfOk result (λ v. AreFirstEntries program.now i (columns program.now) v.items) }
{
    let mut entries = Vec::new(alloc);
    for coefficient in program.coefficients(i) {
        entries.push(Entry {
            variable: coefficient.column as usize,
            value: Frac::whole(coefficient.number),
        })?;
    }
    Ok(entries)
}

// The nonzero costs, as cells of the objective row. It has no slack.
fn cost_entries(alloc: Global, program: &SparseProgram) -> Result<Vec<Entry>, AllocError>
    ensures { IfOk result (λ v. AreFirstEntries program.now (height program.now) (variables program.now) v.items) }
{
    let mut entries = Vec::new(alloc);
    for c in 0..program.columns() {
        let cost = program.cost(c);
        if cost != 0 {
            entries.push(Entry {
                variable: c as usize,
                value: Frac::whole(cost),
            })?;
        }
    }
    Ok(entries)
}

// The nonzero numbers of row i of the first table. After the columns each row but the objective has its own slack.
fn first_entries(alloc: Global, program: &SparseProgram, i: usize) -> Result<Vec<Entry>, AllocError>
    requires { i ≤ height program.now }
    ensures { IfOk result (λ v. AreFirstEntries program.now i (variables program.now) v.items) }
{
    if i == program.rows() as usize {
        return cost_entries(alloc, program);
    }
    let mut entries = row_entries(alloc, program, i)?;
    entries.push(Entry {
        variable: program.columns() as usize + i,
        value: Frac::whole(1),
    })?;
    Ok(entries)
}

// Row i of the first table.
pub(crate) fn first_row(
    alloc: Global,
    program: &SparseProgram,
    i: usize,
) -> Result<SparseRow, AllocError>
    requires { i ≤ height program.now }
    ensures { IfOk result (IsFirstRow program.now i) }
{
    let entries = first_entries(alloc, program, i)?;
    let variables = program.columns() as usize + program.rows() as usize;
    Ok(SparseRow::new(entries, variables, Frac::whole(bound_of(program, i))))
}

// The rows of the first table, the objective row last.
pub(crate) fn first_rows(
    alloc: Global,
    program: &SparseProgram,
) -> Result<Vec<SparseRow>, AllocError>
    ensures rows { IfOk result (λ rows. AreFirstRows program.now rows.items) }
    ensures program { IsProgram program.now }
{
    let mut rows = Vec::with_capacity(alloc, program.rows() as usize + 1)?;
    for i in 0..program.rows() as usize + 1 {
        rows.push(first_row(alloc, program, i)?)?;
    }
    Ok(rows)
}

// The slacks, which are the first basis.
pub(crate) fn first_basis(alloc: Global, program: &SparseProgram) -> Result<Vec<usize>, AllocError>
    ensures { IfOk result (λ basis. IsFirstBasis program.now basis.items) }
{
    let mut basis = Vec::with_capacity(alloc, program.rows() as usize)?;
    for i in 0..program.rows() {
        basis.push(program.columns() as usize + i as usize)?;
    }
    Ok(basis)
}
