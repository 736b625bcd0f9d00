//! Which variable enters the basis, and which row leaves it.

ghost use Rattle.std.specs.Prelude.{◌≡◌, length, Some, IfOk};
ghost use Rattle.whole_rows.specs.Rows.{num_at};
ghost use Rattle.free_search.specs.Tables.{row_at};
ghost use Rattle.free_search.specs.Choice.{EntersAt, LeavesAmong, Comes, IsLesser, IsEarlier};
ghost use Rattle.free_search.specs.Given.{ArePlaces, HasPlace, CanCompareRows, CanCompareWith};

use crate::row::FreeRow;
use std::alloc::{AllocError, Global};
use std::cmp::Ordering;
use whole_numbers::Signed;

// The one of two places whose variable is less.
fn lesser(best: Option<usize>, other: usize, outside: &[usize]) -> usize
    requires { ArePlaces outside.now best other }
    ensures { IsLesser best other outside.now result }
{
    match best {
        Some(place) => {
            if outside[place] < outside[other] {
                place
            } else {
                other
            }
        }
        None => other,
    }
}

/// The place of the least variable whose number is above 0: of the one that enters.
pub(crate) fn entering(nums: &[Signed], outside: &[usize]) -> Option<usize>
    requires { length outside.now ≡ length nums.now }
    ensures { EntersAt result nums.now outside.now }
{
    let mut least = None;
    for k in 0..nums.len() {
        if nums[k].is_above_zero() {
            least = Some(lesser(least, k, outside));
        }
    }
    least
}

// The number of row i at place k.
fn num_of(rows: &[FreeRow], i: usize, k: usize) -> &Signed
    requires { HasPlace rows.now i k }
    ensures { result.now ≡ num_at (row_at rows.now i) k }
{
    rows[i].num(k)
}

// Whether row i comes before row j where the variable at place k enters: its ratio is less, or as great and its basic variable less. In
// a ratio the denominators cancel, and no part of one is below 0.
fn comes_before(
    alloc: Global,
    rows: &[FreeRow],
    basis: &[usize],
    k: usize,
    i: usize,
    j: usize,
) -> Result<bool, AllocError>
    requires { CanCompareWith rows.now basis.now k (Some j) i }
    ensures { IfOk result (λ comes. Comes comes rows.now basis.now k i j) }
{
    let ratio = rows[i]
        .limit()
        .size()
        .times(alloc, num_of(rows, j, k).size())?;
    let other = rows[j]
        .limit()
        .size()
        .times(alloc, num_of(rows, i, k).size())?;
    Ok(match ratio.compare(&other) {
        Ordering::Less => true,
        Ordering::Equal => basis[i] < basis[j],
        Ordering::Greater => false,
    })
}

// The one of two rows that comes before the other.
fn earlier(
    alloc: Global,
    rows: &[FreeRow],
    basis: &[usize],
    k: usize,
    best: Option<usize>,
    i: usize,
) -> Result<usize, AllocError>
    requires { CanCompareWith rows.now basis.now k best i }
    ensures { IfOk result (IsEarlier rows.now basis.now k best i) }
{
    match best {
        Some(r) => {
            let comes = comes_before(alloc, rows, basis, k, i, r)?;
            Ok(if comes { i } else { r })
        }
        None => Ok(i),
    }
}

/// The row that leaves where the variable at place k enters. None where no row has a number above 0 there.
pub(crate) fn leaving(
    alloc: Global,
    rows: &[FreeRow],
    basis: &[usize],
    k: usize,
) -> Result<Option<usize>, AllocError>
    requires { CanCompareRows rows.now basis.now k }
    ensures { IfOk result (λ found. LeavesAmong found (length rows.now) rows.now basis.now k) }
{
    let mut best = None;
    for i in 0..rows.len() {
        if num_of(rows, i, k).is_above_zero() {
            best = Some(earlier(alloc, rows, basis, k, best, i)?);
        }
    }
    Ok(best)
}
