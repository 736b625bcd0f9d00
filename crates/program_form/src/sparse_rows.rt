//! Rows of a program, kept by their nonzero coefficients.

ghost use Rattle.std.specs.Prelude.{◌≡◌, ℕ, ◌+◌, ◌-◌, ◌<◌, ◌≤◌, List, [], ◌∷◌, ◌++◌, length, take, drop, slice_index_or, IfOk, OnOk};
ghost use Rattle.program_form.specs.SparseRows.{SparseRowsDef, list_at};

use std::alloc::{AllocError, Global};
use std::marker::Model;

/// A coefficient that isn't zero, at its column.
#[derive(Clone, Copy, Debug, PartialEq, Eq)]
pub struct Coefficient {
    /// The column, counted from 0.
    pub column: u32,
    /// The coefficient, at least 1.
    pub number: u64,
}

/// Rows of a program: the nonzero coefficients of each, in rising order of their columns, and the limit of each.
///
/// One list holds the coefficients of all rows, so a row takes no memory of its own. To a contract there is a list for each row.
#[derive(Debug, Drop)]
pub struct SparseRows {
    // the coefficients of all rows, one row behind another
    coefficients: Vec<Coefficient>,
    // where each row begins
    starts: Vec<usize>,
    limits: Vec<u64>,
}

impl Model for SparseRows {
    ghost use Rattle.program_form.specs.SparseRows.{SparseRowsDef};

    ghost Value = { SparseRowsDef };

    ghost use Rattle.program_form.specs.SparseRowsView.{sparse_rows_view, IsKept};

    ghost view = { sparse_rows_view };

    ghost invariant = { IsKept };
}

impl SparseRows {
    /// No rows. It takes no memory.
    pub fn new(alloc: Global) -> SparseRows
        ensures { result ≡ record { rows = []; limits = [] } }
    {
        SparseRows {
            coefficients: Vec::new(alloc),
            starts: Vec::new(alloc),
            limits: Vec::new(alloc),
        }
    }

    /// No rows, but room for so many rows and coefficients, so that none is moved when more are added. It fails only for want of memory.
    pub fn with_room(
        alloc: Global,
        rows: usize,
        coefficients: usize,
    ) -> Result<SparseRows, AllocError>
        ensures { IfOk result (λ taken. taken ≡ record { rows = []; limits = [] }) }
    {
        Ok(SparseRows {
            coefficients: Vec::with_capacity(alloc, coefficients)?,
            starts: Vec::with_capacity(alloc, rows)?,
            limits: Vec::with_capacity(alloc, rows)?,
        })
    }

    /// Begins a row with this limit behind the others. It has no coefficient yet.
    pub fn begin(&mut self, limit: u64) -> Result<(), AllocError>
        ensures { OnOk result (self.new ≡ record { rows = self.old.rows ++ [] ∷ []; limits = self.old.limits ++ limit ∷ [] }) }
    {
        self.starts.push(self.coefficients.len())?;
        self.limits.push(limit)?;
        Ok(())
    }

    /// Adds a coefficient to the last row, behind those that it has.
    pub fn add(&mut self, coefficient: Coefficient) -> Result<(), AllocError>
        ensures row { OnOk result ((before : List (List Coefficient)) (last : List Coefficient) → self.old.rows ≡ before ++ last ∷ []
            → self.new.rows ≡ before ++ (last ++ coefficient ∷ []) ∷ []) }
        ensures limits { OnOk result (self.new.limits ≡ self.old.limits) }
    {
        self.coefficients.push(coefficient)?;
        Ok(())
    }

    /// How many rows there are.
    pub(crate) fn count(&self) -> usize
        ensures { result ≡ length self.now.rows }
    {
        self.starts.len()
    }

    /// The coefficients of row `r`.
    pub(crate) fn row(&self, r: usize) -> &[Coefficient]
        requires { r < length self.now.rows }
        ensures { result.now ≡ list_at self.now.rows r }
    {
        let start = self.starts[r];
        let end = end_of(self.coefficients.len(), &self.starts, r);
        part(&self.coefficients, start, end)
    }

    /// The limit of each row.
    pub(crate) fn limits(&self) -> &[u64]
        ensures { result.now ≡ self.now.limits }
    {
        &self.limits
    }

    /// Puts these limits in the place of its own, and leaves the coefficients as they are.
    pub(crate) fn renew(&mut self, limits: Vec<u64>)
        ensures { self.new ≡ record { rows = self.old.rows; limits = limits.items } }
    {
        self.limits = limits;
    }
}

// Where row `r` ends: where the next one begins. The last row ends with the list.
fn end_of(all: usize, starts: &[usize], r: usize) -> usize
    requires { r < length starts.now }
    ensures { result ≡ slice_index_or starts.now (r + 1) all }
{
    starts.get(r + 1).copied().unwrap_or(all)
}

// The coefficients from place `start` up to place `end`.
fn part(list: &[Coefficient], start: usize, end: usize) -> &[Coefficient]
    requires order { start ≤ end }
    requires within { end ≤ length list.now }
    ensures { result.now ≡ take (end - start) (drop start list.now) }
{
    &list[start..end]
}
