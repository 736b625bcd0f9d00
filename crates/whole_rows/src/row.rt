//! A row of whole numbers over one denominator.

ghost use Rattle.std.specs.Prelude.{◌≡◌, ℕ, ◌<◌, ◌≤◌, ◌^◌, length, slice_index_or, pos, ◌<ℤ◌, unsigned_abs, IfOk, IsErrOf};
ghost use Rattle.program_form.specs.SparseRows.{coefficient_at, AreCoefficients};
ghost use Rattle.whole_rows.specs.Rows.{RowDef, num_at, coefficient_row, AreBelow, IsPivotOf};
ghost use Rattle.whole_rows.specs.Large.{IsTooLarge};
ghost use Rattle.whole_rows.specs.Listing.{Lists};
ghost use Rattle.whole_rows.specs.Numbers.{AreListed};
ghost use Rattle.whole_rows.specs.Steps.{AreSmallCells, IsDividedRow, IsLeftRow};
ghost use Rattle.whole_rows.specs.declared.stops.RowStop.TheVariants as row_stop;

use crate::dense_row::DenseRow;
use crate::entries::Entry;
use crate::pivot::{Pivot, list_nums};
use crate::short_row::{MOST_LISTED, ShortRow};
use crate::stops::RowStop;
use program_form::Coefficient;
use std::alloc::{AllocError, Global};
use std::marker::Model;

// How the numbers of a row are kept.
#[derive(Drop)]
enum Form {
    /// The nonzero ones, over 1.
    Short(ShortRow),
    /// One for each place.
    Dense(DenseRow),
}

/// A row: a number for each place, and its limit, over one denominator.
#[derive(Drop)]
pub struct WholeRow {
    form: Form,
}

impl Model for WholeRow {
    ghost use Rattle.whole_rows.specs.Rows.{RowDef};

    ghost Value = { RowDef };

    ghost use Rattle.whole_rows.specs.RowView.{row_view};

    ghost view = { row_view };
}

impl WholeRow {
    /// The row of these numbers over 1. None of them is greater in size than `most`.
    pub fn over_one(nums: Vec<i64>, limit: i64, most: u64) -> WholeRow
        requires nums { (k : ℕ) → unsigned_abs (slice_index_or nums.items k (pos 0)) ≤ most }
        requires limit { unsigned_abs limit ≤ most }
        requires one { 1 ≤ most }
        requires most { most < 2 ^ 63 }
        ensures { result ≡ record { nums = nums.items; limit = limit; den = pos 1 } }
    {
        WholeRow {
            form: Form::Dense(DenseRow::over_one(nums, limit, most)),
        }
    }

    /// The row over 1 with these coefficients, each at the place of its column, and this limit. It fails only for want of memory.
    pub fn of_coefficients(
        alloc: Global,
        places: usize,
        coefficients: &[Coefficient],
        limit: u64,
    ) -> Result<WholeRow, AllocError>
        requires listed { AreCoefficients places coefficients.now }
        requires small { (j : ℕ) → j < length coefficients.now → (coefficient_at coefficients.now j).number < 2 ^ 63 }
        requires limit { limit < 2 ^ 63 }
        ensures { IfOk result (λ row. row ≡ coefficient_row places coefficients.now limit) }
    {
        let short = ShortRow::of_coefficients(alloc, places, coefficients, limit)?;
        let form = if coefficients.len() <= MOST_LISTED {
            Form::Short(short)
        } else {
            Form::Dense(short.spread(alloc)?)
        };
        Ok(WholeRow { form })
    }

    /// How many places there are.
    pub fn places(&self) -> usize
        ensures { result ≡ length self.now.nums }
    {
        match &self.form {
            Form::Short(row) => row.places(),
            Form::Dense(row) => row.places(),
        }
    }

    /// The number at a place.
    pub fn num(&self, k: usize) -> i64
        requires { k < length self.now.nums }
        ensures value { result ≡ num_at self.now k }
        ensures small { AreSmallCells self.now }
    {
        match &self.form {
            Form::Short(row) => row.num(k),
            Form::Dense(row) => row.num(k),
        }
    }

    /// The limit, over the same denominator.
    pub fn limit(&self) -> i64
        ensures value { result ≡ self.now.limit }
        ensures small { AreSmallCells self.now }
    {
        match &self.form {
            Form::Short(row) => row.limit(),
            Form::Dense(row) => row.limit(),
        }
    }

    /// The denominator.
    pub fn den(&self) -> i64
        ensures value { result ≡ self.now.den }
        ensures small { AreSmallCells self.now }
    {
        match &self.form {
            Form::Short(row) => row.den(),
            Form::Dense(row) => row.den(),
        }
    }

    // Writes the nonzero numbers into the memory of a list. If there isn't enough for all of them, it writes some.
    pub(crate) fn list(&self, list: &mut Vec<Entry>) -> Result<(), AllocError>
        ensures listed { Lists result self.now.nums list.new.items (AreListed self.now.nums) }
        ensures small { AreSmallCells self.now }
    {
        match &self.form {
            Form::Short(row) => row.list(list),
            Form::Dense(row) => list_nums(list, row.nums()),
        }
    }

    /// Divides the row by its cell at place k. The variable that leaves takes over that place. It fails only for want of memory.
    pub fn enter(&mut self, alloc: Global, k: usize) -> Result<(), AllocError>
        requires place { k < length self.old.nums }
        requires above { pos 0 <ℤ num_at self.old k }
        ensures { IfOk result (λ _. IsDividedRow self.old k self.new) }
    {
        match &mut self.form {
            Form::Dense(row) => row.enter(k),
            Form::Short(row) => {
                if !row.is_one_at(k) {
                    let mut dense = row.spread(alloc)?;
                    dense.enter(k);
                    self.form = Form::Dense(dense);
                }
            }
        }
        Ok(())
    }

    /// Subtracts a divided row times the row's own cell at place k. At place k it subtracts from 0, which is the cell of the variable that
    /// leaves. `Large` comes only if a bound on what is left is above 2^63 - 1 even with all common divisors removed. The bound is a size
    /// of the row times p, and a size of the pivot times that of f, where f / p is the cell over the pivot's denominator. `Memory` comes
    /// only for want of memory.
    pub fn take(&mut self, alloc: Global, k: usize, pivot: &Pivot) -> Result<(), RowStop>
        requires place { k < length self.old.nums }
        requires below { AreBelow (length self.old.nums) pivot.now.entries }
        ensures left { (divided : RowDef) → IsPivotOf pivot.now divided → IfOk result (λ _. IsLeftRow self.old k divided self.new) }
        ensures as_many { length self.new.nums ≡ length self.old.nums }
        ensures large { IsErrOf result row_stop.Large → IsTooLarge self.old k pivot.now }
    {
        match &mut self.form {
            Form::Dense(row) => row.take(k, pivot)?,
            Form::Short(row) => match row.less(alloc, k, pivot)? {
                Some(left) => self.form = Form::Short(left),
                None => {
                    let mut dense = row.spread(alloc)?;
                    let taken = dense.take(k, pivot);
                    self.form = Form::Dense(dense);
                    taken?;
                }
            },
        }
        Ok(())
    }
}
