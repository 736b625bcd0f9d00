//! A row of a table, and what an exchange does to it.

ghost use Rattle.std.specs.Prelude.{◌≡◌, ◌-◌, ◌≤◌, IfOk};
ghost use Rattle.simplex.specs.Choice.{IsFirstAbove};
ghost use Rattle.simplex.specs.CellSteps.{IsDivisor};
ghost use Rattle.simplex.specs.Rows.{row_with, places, IsSparseRow, IsCellRead};
ghost use Rattle.simplex.specs.Ends.{AreMinus};
ghost use Rattle.simplex.specs.RowSteps.{DividesRow, LeavesRow};

use crate::SolveStop;
use crate::entries::{Entry, divide_all, first_above, less_product, take_away, value_at};
use fraction128::Frac;
use std::alloc::{AllocError, Global};
use std::marker::Model;

// A row: its nonzero cells in order of their variables, and its limit. The limit's place is after all variables.
#[derive(Drop)]
pub(crate) struct SparseRow {
    entries: Vec<Entry>,
    place: usize,
    limit: Frac,
}

impl Model for SparseRow {
    ghost use Rattle.simplex.specs.Rows.{RowDef};

    ghost Value = { RowDef };

    ghost use Rattle.simplex.specs.RowView.{row_view, IsKept};

    ghost view = { row_view };

    ghost invariant = { IsKept };
}

impl SparseRow {
    // The row of these cells.
    pub(crate) fn new(entries: Vec<Entry>, place: usize, limit: Frac) -> SparseRow
        requires { IsSparseRow (row_with entries.items place limit) }
        ensures { result ≡ row_with entries.items place limit }
    {
        SparseRow {
            entries,
            place,
            limit,
        }
    }

    // The cell at a place.
    pub(crate) fn cell(&self, v: usize) -> Frac
        ensures { IsCellRead self.now v result }
    {
        if self.place == v {
            return self.limit;
        }
        value_at(&self.entries, v)
    }

    // The first variable whose cell is above 0.
    pub(crate) fn first_above(&self) -> Option<usize>
        ensures { IsFirstAbove result self.now }
    {
        first_above(&self.entries)
    }

    // Minus the cells from one variable up to another.
    pub(crate) fn minus_cells(
        &self,
        alloc: Global,
        first: usize,
        last: usize,
    ) -> Result<Vec<Frac>, AllocError>
        requires { first ≤ last }
        ensures { IfOk result (λ list. AreMinus self.now first (last - first) list.items) }
    {
        let mut list = Vec::new(alloc);
        for v in first..last {
            list.push(self.cell(v).neg())?;
        }
        Ok(list)
    }

    // The row with each cell divided.
    pub(crate) fn quotient(&self, alloc: Global, by: Frac) -> Result<SparseRow, SolveStop>
        requires { IsDivisor by }
        ensures { DividesRow result self.now by }
    {
        let limit = self.limit.div(by)?;
        let entries = divide_all(alloc, &self.entries, by)?;
        Ok(SparseRow::new(entries, self.place, limit))
    }

    // What is left of the row if f times another is subtracted.
    pub(crate) fn difference(
        &self,
        alloc: Global,
        f: Frac,
        pivot: &SparseRow,
    ) -> Result<SparseRow, SolveStop>
        requires { places self.now ≡ places pivot.now }
        ensures { LeavesRow result self.now f pivot.now }
    {
        let limit = less_product(self.limit, f, pivot.limit)?;
        let entries = take_away(alloc, &self.entries, f, &pivot.entries, self.place)?;
        Ok(SparseRow::new(entries, self.place, limit))
    }
}
