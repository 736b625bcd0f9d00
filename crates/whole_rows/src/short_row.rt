//! A row over 1 with few numbers that aren't zero. Most rows that an exchange changes are so, and many are changed once alone. So it is
//! cheaper to keep such a row as a list than to make a number for each place.

ghost use Rattle.std.specs.Prelude.{◌≡◌, ℕ, ◌+◌, ◌<◌, ◌^◌, length, IfOk, IfSome, IsTrue};
ghost use Rattle.program_form.specs.SparseRows.{coefficient_at, AreCoefficients};
ghost use Rattle.whole_rows.specs.Rows.{num_at, coefficient_row};
ghost use Rattle.whole_rows.specs.Listing.{Lists};
ghost use Rattle.whole_rows.specs.Numbers.{AreListed};
ghost use Rattle.whole_rows.specs.Short.{CanTake, IsFactor, LeavesShort};
ghost use Rattle.whole_rows.specs.Steps.{AreSmallCells, IsDividedRow};

use crate::dense_row::{DenseRow, bound_after, less_times};
use crate::divisors::lowest_terms;
use crate::entries::Entry;
use crate::numbers::take_listed;
use crate::pivot::{Pivot, greatest_listed, list_coefficients};
use crate::short_list::{less_listed, listed_num};
use program_form::Coefficient;
use std::alloc::{AllocError, Global};
use std::marker::Model;

/// How many numbers a list has at most. A row that may get more has a number for each place. In a copy of the solver in C++ 16 and 24 took
/// least time, of 8, 16, 24, 32 and 48. From 16 to 48 the times differ little.
pub(crate) const MOST_LISTED: usize = 24;

/// A row over 1, kept by its nonzero numbers.
#[derive(Drop)]
pub(crate) struct ShortRow {
    // in order of their places
    entries: Vec<Entry>,
    places: usize,
    limit: i64,
    // no number above is greater in size, and 1 isn't either
    most: u64,
}

impl Model for ShortRow {
    ghost use Rattle.whole_rows.specs.Rows.{RowDef};

    ghost Value = { RowDef };

    ghost use Rattle.whole_rows.specs.ShortView.{short_view, IsKept};

    ghost view = { short_view };

    ghost invariant = { IsKept };
}

impl ShortRow {
    /// The row over 1 with these coefficients, each at the place of its column, and this limit. It fails only for want of memory.
    pub(crate) fn of_coefficients(
        alloc: Global,
        places: usize,
        coefficients: &[Coefficient],
        limit: u64,
    ) -> Result<ShortRow, AllocError>
        requires listed { AreCoefficients places coefficients.now }
        requires small { (j : ℕ) → j < length coefficients.now → (coefficient_at coefficients.now j).number < 2 ^ 63 }
        requires limit { limit < 2 ^ 63 }
        ensures { IfOk result (λ row. row ≡ coefficient_row places coefficients.now limit) }
    {
        let mut entries = Vec::with_capacity(alloc, coefficients.len())?;
        list_coefficients(&mut entries, coefficients)?;
        let most = greatest_listed(&entries, limit.max(1));
        Ok(ShortRow {
            entries,
            places,
            limit: limit as i64,
            most,
        })
    }

    /// How many places there are.
    pub(crate) fn places(&self) -> usize
        ensures { result ≡ length self.now.nums }
    {
        self.places
    }

    /// The number at a place.
    pub(crate) fn num(&self, k: usize) -> i64
        requires { k < length self.now.nums }
        ensures value { result ≡ num_at self.now k }
        ensures small { AreSmallCells self.now }
    {
        listed_num(&self.entries, k)
    }

    /// The limit.
    pub(crate) fn limit(&self) -> i64
        ensures value { result ≡ self.now.limit }
        ensures small { AreSmallCells self.now }
    {
        self.limit
    }

    /// The denominator.
    pub(crate) fn den(&self) -> i64
        ensures value { result ≡ self.now.den }
        ensures small { AreSmallCells self.now }
    {
        // the bound that the row keeps says that it has small cells
        let _most = self.most;
        1
    }

    /// Is the number at place k 1? Then the row stays as it is, divided by it: the variable that leaves takes over the place with its own 1.
    pub(crate) fn is_one_at(&self, k: usize) -> bool
        requires { k < length self.now.nums }
        ensures { IsTrue result → IsDividedRow self.now k self.now }
    {
        // the row is over 1
        let _limit = self.limit;
        self.num(k) == 1
    }

    // The row's cell at place k over the pivot's denominator, if it is a whole number and the row stays short without so many times the
    // pivot. And a bound on what is left then.
    fn factor(&self, k: usize, pivot: &Pivot) -> Option<(i64, u64)>
        requires { CanTake self.now k pivot.now }
        ensures { IfSome result (λ found. IsFactor self.now k pivot.now found.0 found.1) }
    {
        if self.entries.len() + pivot.entries().len() > MOST_LISTED {
            return None;
        }
        let (f, p) = lowest_terms(self.num(k), pivot.den());
        if p != 1 {
            return None;
        }
        let bound = bound_after(self.most, p, f, pivot.most())?;
        Some((f, bound))
    }

    /// What is left of the row if its own cell at place k times the pivot is subtracted. None says that it isn't short enough, or not over 1,
    /// or that its numbers may not fit. It fails only for want of memory.
    pub(crate) fn less(
        &self,
        alloc: Global,
        k: usize,
        pivot: &Pivot,
    ) -> Result<Option<ShortRow>, AllocError>
        requires { CanTake self.now k pivot.now }
        ensures { IfOk result (λ left. LeavesShort left self.now k pivot.now) }
    {
        let (f, bound) = match self.factor(k, pivot) {
            Some(found) => found,
            None => return Ok(None),
        };
        let entries = less_listed(alloc, self.places, &self.entries, k, f, pivot.entries())?;
        Ok(Some(ShortRow {
            entries,
            places: self.places,
            limit: less_times(self.limit, 1, f, pivot.limit()),
            most: bound,
        }))
    }

    /// The same row with a number for each place. It fails only for want of memory.
    pub(crate) fn spread(&self, alloc: Global) -> Result<DenseRow, AllocError>
        ensures { IfOk result (λ row. row ≡ self.now) }
    {
        let mut nums = vec![in alloc; 0i64; self.places]?;
        take_listed(&mut nums, &self.entries, -1);
        Ok(DenseRow::over_one(nums, self.limit, self.most))
    }

    /// Writes the nonzero numbers into the memory of a list. If there isn't enough for all of them, it writes none.
    pub(crate) fn list(&self, list: &mut Vec<Entry>) -> Result<(), AllocError>
        ensures listed { Lists result self.now.nums list.new.items (AreListed self.now.nums) }
        ensures small { AreSmallCells self.now }
    {
        list.clear();
        list.extend_from_slice(&self.entries)?;
        Ok(())
    }
}
