//! Blocking programs, and which lists are refused as one.

ghost use Rattle.std.specs.Prelude.{◌≡◌, ℕ, ◌^◌, ◌<◌, ◌≤◌, Bool, true, ◌==◌, ◌&&◌, not, List, [], length, vec_len};
ghost use Rattle.std.specs.Prelude.{slice_index, slice_index_or, IfOk, IfSome, Option, Some, None};
ghost use Rattle.std.specs.List.{list_all};
ghost use Rattle.number_laws.specs.Tests.{any_below, first_below};
ghost use Rattle.program_form.specs.Program.{ProgramDef, IsProgram, columns, height, cost, entry, limit};
ghost use Rattle.program_form.specs.Refusals.{has_lengths, is_covered, first_uncovered, are_small, is_small, first_refusal, Judged};
ghost use Rattle.program_form.specs.RowBlock.{rows_seen};

use crate::MOST_NUMBER;
use std::marker::Model;
use thiserror::Error;

/// Why lists are no program. The refusals are tried in this order.
#[derive(Clone, Copy, Debug, PartialEq, Eq, Error)]
pub enum ProgramRefusal {
    /// Rows and limits differ in number, or a row and the costs differ in length.
    #[error("rows and limits differ in number, or a row and the costs in length")]
    Length,
    /// This column is the first without a coefficient above zero.
    #[error("column {0} has no coefficient above zero")]
    Uncovered(u32),
    /// A number is above [`MOST_NUMBER`].
    #[error("a number is above 2^63 - 1")]
    Large,
}

/// A linear program. Its columns are at least zero, its rows bound them, and the sum of its costs is maximised.
///
/// To a contract it is three lists. Each row has a coefficient for each column, and a limit. Each column has a coefficient above zero in
/// some row. No number is above [`MOST_NUMBER`].
#[derive(Debug, Drop)]
pub struct Program {
    costs: Vec<u64>,
    rows: Vec<Vec<u64>>,
    limits: Vec<u64>,
}

impl Model for Program {
    ghost use Rattle.program_form.specs.Program.{ProgramDef};

    ghost Value = { ProgramDef };

    ghost use Rattle.program_form.specs.ProgramView.{program_view, IsKept};

    ghost view = { program_view };

    ghost invariant = { IsKept };
}

impl Program {
    /// The program of these lists: the cost of each column, the coefficients of each row, and the limit of each row. It keeps them as they
    /// are, and takes no memory.
    ///
    /// It refuses, in this order: with `Length` if rows and limits differ in number, or a row and the costs in length; with `Uncovered` and
    /// the first column that has no coefficient above zero; with `Large` if a number is above [`MOST_NUMBER`].
    pub fn new(
        costs: Vec<u64>,
        rows: Vec<Vec<u64>>,
        limits: Vec<u64>,
    ) -> Result<Program, ProgramRefusal>
        requires few_columns { vec_len costs < 2 ^ 32 }
        requires few_rows { vec_len rows < 2 ^ 32 }
        ensures judged { Judged result (record { costs = costs.items; rows = rows_seen rows.items; limits = limits.items }) }
        ensures program { IfOk result (λ p. IsProgram p) }
    {
        match refusal_of(&costs, &rows, &limits) {
            Some(refusal) => Err(refusal),
            None => Ok(Program {
                costs,
                rows,
                limits,
            }),
        }
    }

    /// How many columns there are.
    pub fn columns(&self) -> u32
        ensures value { result ≡ columns self.now }
        ensures program { IsProgram self.now }
    {
        self.costs.len() as u32
    }

    /// How many rows there are.
    pub fn rows(&self) -> u32
        ensures value { result ≡ height self.now }
        ensures program { IsProgram self.now }
    {
        self.rows.len() as u32
    }

    /// What a unit of column `c` is worth, in ticks.
    pub fn cost(&self, c: u32) -> u64
        requires { c < columns self.now }
        ensures value { result ≡ cost self.now c }
        ensures most { result ≤ MOST_NUMBER }
    {
        self.costs[c as usize]
    }

    /// The coefficient of column `c` in row `r`.
    pub fn entry(&self, r: u32, c: u32) -> u64
        requires row { r < height self.now }
        requires column { c < columns self.now }
        ensures value { result ≡ entry self.now r c }
        ensures most { result ≤ MOST_NUMBER }
    {
        entry_at(&self.rows, r as usize, c as usize)
    }

    /// The greatest value that the sum of row `r` may have.
    pub fn limit(&self, r: u32) -> u64
        requires { r < height self.now }
        ensures value { result ≡ limit self.now r }
        ensures most { result ≤ MOST_NUMBER }
    {
        self.limits[r as usize]
    }

    /// The limit of each row.
    pub fn limits(&self) -> &[u64]
        ensures value { result.now ≡ self.now.limits }
        ensures program { IsProgram self.now }
    {
        &self.limits
    }
}

// The coefficient at a row and a column.
fn entry_at(rows: &[Vec<u64>], r: usize, c: usize) -> u64
    requires row { r < length rows.now }
    requires column { c < length (slice_index_or (rows_seen rows.now) r []) }
    ensures { result ≡ slice_index (slice_index_or (rows_seen rows.now) r []) c }
{
    rows[r][c]
}

// The first refusal of these lists, if there is one.
fn refusal_of(costs: &[u64], rows: &[Vec<u64>], limits: &[u64]) -> Option<ProgramRefusal>
    requires few_columns { length costs.now < 2 ^ 32 }
    ensures { result ≡ first_refusal (record { costs = costs.now; rows = rows_seen rows.now; limits = limits.now }) }
{
    if !have_lengths(costs, rows, limits) {
        return Some(ProgramRefusal::Length);
    }
    let column = uncovered_column(costs.len(), rows);
    if column < costs.len() {
        return Some(ProgramRefusal::Uncovered(column as u32));
    }
    if !are_all_small(costs, rows, limits) {
        return Some(ProgramRefusal::Large);
    }
    None
}

// Whether each row has a limit and one coefficient per cost.
fn have_lengths(costs: &[u64], rows: &[Vec<u64>], limits: &[u64]) -> bool
    ensures { result ≡ has_lengths (record { costs = costs.now; rows = rows_seen rows.now; limits = limits.now }) }
{
    limits.len() == rows.len() && have_width(rows, costs.len())
}

// Whether each row has this many coefficients.
fn have_width(rows: &[Vec<u64>], width: usize) -> bool
    ensures { result ≡ list_all (λ row. length row.items == width) rows.now }
{
    rows.iter().all(|row| row.len() == width)
}

// The first of the columns without a coefficient above zero, or their number.
fn uncovered_column(columns: usize, rows: &[Vec<u64>]) -> usize
    requires { (r : ℕ) → r < length rows.now → length (slice_index_or (rows_seen rows.now) r []) ≡ columns }
    ensures { result ≡ first_uncovered columns (rows_seen rows.now) }
{
    for column in 0..columns {
        if !is_held(rows, column) {
            return column;
        }
    }
    columns
}

// Whether some row has a coefficient above zero in this column.
fn is_held(rows: &[Vec<u64>], column: usize) -> bool
    requires { (r : ℕ) → r < length rows.now → column < length (slice_index_or (rows_seen rows.now) r []) }
    ensures { result ≡ is_covered (rows_seen rows.now) column }
{
    for row in 0..rows.len() {
        if entry_at(rows, row, column) > 0 {
            return true;
        }
    }
    false
}

// Whether no number is above the greatest that is allowed.
fn are_all_small(costs: &[u64], rows: &[Vec<u64>], limits: &[u64]) -> bool
    ensures { result ≡ is_small (record { costs = costs.now; rows = rows_seen rows.now; limits = limits.now }) }
{
    are_numbers_small(costs) && are_rows_small(rows) && are_numbers_small(limits)
}

fn are_rows_small(rows: &[Vec<u64>]) -> bool
    ensures { result ≡ list_all (λ row. are_small row.items) rows.now }
{
    rows.iter().all(|row| are_numbers_small(row))
}

fn are_numbers_small(numbers: &[u64]) -> bool
    ensures { result ≡ are_small numbers.now }
{
    numbers.iter().all(|n| *n <= MOST_NUMBER)
}
