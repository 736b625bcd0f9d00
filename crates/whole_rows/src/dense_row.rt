//! A row that keeps a number for each place.

ghost use Rattle.std.specs.Prelude.{◌≡◌, ℕ, ◌+◌, ◌*◌, ◌<◌, ◌≤◌, ◌^◌, length, slice_index_or, OnErr};
ghost use Rattle.std.specs.Prelude.{pos, ◌-ℤ◌, ◌*ℤ◌, ◌<ℤ◌, unsigned_abs};
ghost use Rattle.whole_rows.specs.Rows.{RowDef, num_at, AreBelow, IsPivotOf, IsBounded};
ghost use Rattle.whole_rows.specs.Given.{CanEnter};
ghost use Rattle.whole_rows.specs.Numbers.{swapped};
ghost use Rattle.whole_rows.specs.Large.{IsReducedTo, IsTooLarge};
ghost use Rattle.whole_rows.specs.Bounds.{IsTightened, CanTakeWithin, TakesWithin, IsBoundAfter};
ghost use Rattle.whole_rows.specs.Steps.{AreSmallCells, IsDividedRow, LeavesRow};

use crate::divisors::{divide_parts, lowest_terms};
use crate::numbers::{greatest_size, take_from};
use crate::pivot::Pivot;
use crate::stops::Large;
use std::marker::Model;

// The greatest size of a number.
const MOST: u64 = i64::MAX as u64;

/// A row: a number for each place, and its limit, over one denominator.
#[derive(Drop)]
pub(crate) struct DenseRow {
    nums: Vec<i64>,
    limit: i64,
    den: i64,
    // no number above is greater in size, and the denominator isn't either
    most: u64,
}

impl Model for DenseRow {
    ghost use Rattle.whole_rows.specs.Rows.{RowDef};

    ghost Value = { RowDef };

    ghost use Rattle.whole_rows.specs.DenseView.{dense_view, IsKept};

    ghost view = { dense_view };

    ghost invariant = { IsKept };
}

impl DenseRow {
    /// The row of these numbers over 1. None of them is greater in size than `most`.
    pub(crate) fn over_one(nums: Vec<i64>, limit: i64, most: u64) -> DenseRow
        requires nums { (k : ℕ) → unsigned_abs (slice_index_or nums.items k (pos 0)) ≤ most }
        requires limit { unsigned_abs limit ≤ most }
        requires one { 1 ≤ most }
        requires most { most < 2 ^ 63 }
        ensures { result ≡ record { nums = nums.items; limit = limit; den = pos 1 } }
    {
        DenseRow {
            nums,
            limit,
            den: 1,
            most,
        }
    }

    /// How many places there are.
    pub(crate) fn places(&self) -> usize
        ensures { result ≡ length self.now.nums }
    {
        self.nums.len()
    }

    // The numbers.
    pub(crate) fn nums(&self) -> &[i64]
        ensures value { result.now ≡ self.now.nums }
        ensures small { AreSmallCells self.now }
    {
        &self.nums
    }

    /// The number at a place.
    pub(crate) fn num(&self, k: usize) -> i64
        requires { k < length self.now.nums }
        ensures value { result ≡ num_at self.now k }
        ensures small { AreSmallCells self.now }
    {
        self.nums[k]
    }

    /// The limit, over the same denominator.
    pub(crate) fn limit(&self) -> i64
        ensures value { result ≡ self.now.limit }
        ensures small { AreSmallCells self.now }
    {
        self.limit
    }

    /// The denominator.
    pub(crate) fn den(&self) -> i64
        ensures value { result ≡ self.now.den }
        ensures small { AreSmallCells self.now }
    {
        self.den
    }

    /// Divides the row by its cell at place k. The variable that leaves takes over that place.
    pub(crate) fn enter(&mut self, k: usize)
        requires place { k < length self.old.nums }
        requires above { pos 0 <ℤ num_at self.old k }
        ensures { IsDividedRow self.old k self.new }
    {
        self.swap_in(k);
        // over 1 there is nothing to remove
        if self.den != 1 {
            self.reduce();
        }
    }

    // Swaps the number at place k and the denominator.
    fn swap_in(&mut self, k: usize)
        requires { CanEnter self.old k }
        ensures swapped { self.new ≡ swapped self.old k }
        ensures small { AreSmallCells self.new }
    {
        let num = self.nums[k];
        self.nums[k] = self.den;
        self.den = num;
    }

    // Divides all numbers by their greatest common divisor. None becomes greater, so the bound stays.
    fn reduce(&mut self)
        ensures reduced { IsReducedTo self.old self.new }
        ensures small { AreSmallCells self.new }
    {
        let (limit, den) = divide_parts(&mut self.nums, self.limit, self.den);
        self.limit = limit;
        self.den = den;
    }

    // A bound on the sizes of its numbers, its limit and its denominator.
    fn bound(&self) -> u64
        ensures { IsBounded self.now result }
    {
        self.most
    }

    // The same, after all numbers are measured anew. Answers the greatest size.
    fn tighten(&mut self) -> u64
        ensures { IsTightened self.old self.new result }
    {
        self.reduce();
        let first = self.limit.unsigned_abs().max(self.den.unsigned_abs());
        self.most = greatest_size(&self.nums, first);
        self.most
    }

    /// Subtracts a divided row times the row's own cell at place k. At place k it subtracts from 0, which is the cell of the variable that
    /// leaves. `Large` comes only if a bound on what is left is above 2^63 - 1 even with all common divisors removed. The bound is a size
    /// of the row times p, and a size of the pivot times that of f, where f / p is the cell over the pivot's denominator.
    pub(crate) fn take(&mut self, k: usize, pivot: &Pivot) -> Result<(), Large>
        requires place { k < length self.old.nums }
        requires below { AreBelow (length self.old.nums) pivot.now.entries }
        ensures left { (divided : RowDef) → IsPivotOf pivot.now divided → LeavesRow result self.old k divided self.new }
        ensures as_many { length self.new.nums ≡ length self.old.nums }
        ensures large { OnErr result (IsTooLarge self.old k pivot.now) }
    {
        let most = self.bound();
        match self.take_within(k, pivot, most) {
            Ok(()) => Ok(()),
            Err(Large) => {
                let most = self.tighten();
                self.take_within(k, pivot, most)
            }
        }
    }

    // The same if the bound on what is left fits, with `most` as a bound on the row. If it doesn't fit, the row stays.
    fn take_within(&mut self, k: usize, pivot: &Pivot, most: u64) -> Result<(), Large>
        requires { CanTakeWithin self.old k most pivot.now }
        ensures { TakesWithin result self.old k most pivot.now self.new }
    {
        let (f, p) = lowest_terms(self.nums[k], pivot.den());
        let bound = match bound_after(most, p, f, pivot.most()) {
            Some(bound) => bound,
            None => return Err(Large),
        };
        take_from(&mut self.nums, k, p, f, pivot.entries());
        self.limit = less_times(self.limit, p, f, pivot.limit());
        self.den = self.den * p;
        self.most = bound;
        Ok(())
    }
}

// A number times p, less f times another.
#[inline(always)]
pub(crate) fn less_times(num: i64, p: i64, f: i64, other: i64) -> i64
    requires { unsigned_abs num * unsigned_abs p + unsigned_abs f * unsigned_abs other < 2 ^ 63 }
    ensures { result ≡ (num *ℤ p) -ℤ (f *ℤ other) }
{
    num * p - f * other
}

// A bound on numbers times p, less f times others, if `most` and `others` bound both. None if it is above 2^63 - 1.
pub(crate) fn bound_after(most: u64, p: i64, f: i64, others: u64) -> Option<u64>
    ensures { IsBoundAfter result most p f others }
{
    let first = most.checked_mul(p.unsigned_abs())?;
    let second = f.unsigned_abs().checked_mul(others)?;
    let bound = first.checked_add(second)?;
    if bound <= MOST { Some(bound) } else { None }
}
