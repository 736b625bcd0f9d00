//! The row that is subtracted from the others in an exchange.

ghost use Rattle.std.specs.Prelude.{◌≡◌, ℕ, ◌+◌, ◌<◌, ◌≤◌, ◌^◌, [], length, pos, ◌<ℤ◌, IsTrue, IfOk};
ghost use Rattle.program_form.specs.SparseRows.{coefficient_at, AreCoefficients};
ghost use Rattle.whole_rows.specs.Given.{CanListMore};
ghost use Rattle.whole_rows.specs.Numbers.{AreListed, AreListedTo, IsGreatestListed, IsZeroBlock};
ghost use Rattle.whole_rows.specs.Listing.{Lists, ListsCoefficients};
ghost use Rattle.whole_rows.specs.PivotView.{IsBoundedPivot};
ghost use Rattle.whole_rows.specs.Rows.{coefficient_row, AreSparse, IsPivotOf};

use crate::entries::Entry;
use crate::row::WholeRow;
use program_form::Coefficient;
use std::alloc::{AllocError, Global};
use std::marker::Model;

/// The nonzero numbers of a row, in order of their places, with its limit and its denominator.
#[derive(Drop)]
pub struct Pivot {
    entries: Vec<Entry>,
    limit: i64,
    den: i64,
    // the greatest size of the numbers and of the limit
    most: u64,
}

impl Model for Pivot {
    ghost use Rattle.whole_rows.specs.Rows.{PivotDef};

    ghost Value = { PivotDef };

    ghost use Rattle.whole_rows.specs.PivotView.{pivot_view, IsKept};

    ghost view = { pivot_view };

    ghost invariant = { IsKept };
}

impl Pivot {
    /// The pivot of a row without numbers. It takes no memory.
    pub fn none(alloc: Global) -> Pivot
        ensures { result ≡ record { entries = []; limit = pos 0; den = pos 1 } }
    {
        Pivot {
            entries: Vec::new(alloc),
            limit: 0,
            den: 1,
            most: 0,
        }
    }

    /// Becomes the pivot of a row. It fails only for want of memory.
    pub fn read(&mut self, row: &WholeRow) -> Result<(), AllocError>
        ensures { IfOk result (λ _. IsPivotOf self.new row.now) }
    {
        let listed = row.list(&mut self.entries);
        self.limit = row.limit();
        self.den = row.den();
        self.most = greatest_listed(&self.entries, self.limit.unsigned_abs());
        listed
    }

    /// Becomes the pivot of the row over 1 with these coefficients, each at the place of its column, and this limit. It fails only for want
    /// of memory.
    pub fn read_coefficients(
        &mut self,
        coefficients: &[Coefficient],
        limit: u64,
    ) -> Result<(), AllocError>
        requires listed { (n : ℕ) × AreCoefficients n coefficients.now }
        requires small { (j : ℕ) → j < length coefficients.now → (coefficient_at coefficients.now j).number < 2 ^ 63 }
        requires limit { limit < 2 ^ 63 }
        ensures { IfOk result (λ _. (n : ℕ) → AreCoefficients n coefficients.now
            → IsPivotOf self.new (coefficient_row n coefficients.now limit)) }
    {
        let listed = list_coefficients(&mut self.entries, coefficients);
        self.limit = limit as i64;
        self.den = 1;
        self.most = greatest_listed(&self.entries, limit);
        listed
    }

    /// The nonzero numbers.
    pub fn entries(&self) -> &[Entry]
        ensures value { result.now ≡ self.now.entries }
        ensures sparse { AreSparse result.now }
    {
        &self.entries
    }

    // The limit, over the denominator.
    pub(crate) fn limit(&self) -> i64
        ensures { result ≡ self.now.limit }
    {
        self.limit
    }

    // The denominator.
    pub(crate) fn den(&self) -> i64
        ensures value { result ≡ self.now.den }
        ensures positive { pos 0 <ℤ result }
    {
        self.den
    }

    // The greatest size of the numbers and of the limit.
    pub(crate) fn most(&self) -> u64
        ensures { IsBoundedPivot self.now result }
    {
        self.most
    }
}

// How many numbers are looked at together.
const BLOCK: usize = 8;

// Whether there is a whole block of numbers from place `first` on, and all of it is zero.
fn is_zero_block(nums: &[i64], first: usize) -> bool
    requires { first ≤ length nums.now }
    ensures { IsTrue result → IsZeroBlock nums.now first (first + BLOCK) }
{
    if nums.len() - first < BLOCK {
        return false;
    }
    let mut zero = true;
    for k in 0..BLOCK {
        zero = zero & (nums[first + k] == 0);
    }
    zero
}

// Adds the nonzero numbers, from place `first` up to place `last`, to a list of those before.
fn list_between(
    list: &mut Vec<Entry>,
    nums: &[i64],
    first: usize,
    last: usize,
) -> Result<(), AllocError>
    requires { CanListMore first last nums.now list.old.items }
    ensures { Lists result nums.now list.new.items (AreListedTo last nums.now) }
{
    for place in first..last {
        let num = nums[place];
        if num != 0 {
            list.push(Entry { place, num })?;
        }
    }
    Ok(())
}

// Writes the nonzero numbers, at their places, into the memory of a list. If there isn't enough for all of them, it writes some.
pub(crate) fn list_nums(list: &mut Vec<Entry>, nums: &[i64]) -> Result<(), AllocError>
    ensures { Lists result nums.now list.new.items (AreListed nums.now) }
{
    list.clear();
    let mut first = 0;
    while first < nums.len() {
        // most blocks are all zeros; to see this takes no branch for each number
        if is_zero_block(nums, first) {
            first += BLOCK;
        } else {
            let last = first.saturating_add(BLOCK).min(nums.len());
            list_between(list, nums, first, last)?;
            first = last;
        }
    }
    Ok(())
}

// Writes the coefficients into the memory of a list. If there isn't enough for all of them, it writes some.
pub(crate) fn list_coefficients(
    list: &mut Vec<Entry>,
    coefficients: &[Coefficient],
) -> Result<(), AllocError>
    requires { (j : ℕ) → j < length coefficients.now → (coefficient_at coefficients.now j).number < 2 ^ 63 }
    ensures { ListsCoefficients result coefficients.now list.new.items }
{
    list.clear();
    for coefficient in coefficients {
        list.push(Entry {
            place: coefficient.column as usize,
            num: coefficient.number as i64,
        })?;
    }
    Ok(())
}

// The greatest size of the listed numbers, and of a first one.
pub(crate) fn greatest_listed(entries: &[Entry], first: u64) -> u64
    ensures { IsGreatestListed entries.now first result }
{
    let mut most = first;
    for entry in entries {
        most = most.max(entry.num.unsigned_abs());
    }
    most
}
