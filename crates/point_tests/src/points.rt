ghost use Rattle.std.specs.Prelude.{◌≡◌, ◌*◌, ◌<◌, ◌≤◌, ◌↔◌, length, slice_index, IfOk, IsTrue};
ghost use Rattle.program_form.specs.Program.{columns, height};
ghost use Rattle.program_form.specs.Points.{worth};
ghost use Rattle.refusal_confirm.specs.Tests.{KeepsRow, KeepsRows};
ghost use Rattle.point_tests.specs.Worth.{IsWorth, point_over};

use crate::sums::{row_sum, times, worth_sum};
use program_form::SparseProgram;
use std::alloc::{AllocError, Global};
use whole_numbers::Whole;

/// Does the point keep the row: is what the row comes to at most the limit, the denominator times?
fn keeps_row(
    alloc: Global,
    program: &SparseProgram,
    den: &Whole,
    num: &[Whole],
    row: u32,
) -> Result<bool, AllocError>
    requires row { row < height program.now }
    requires size { length num.now ≡ columns program.now }
    ensures { IfOk result (λ yes. IsTrue yes ↔ KeepsRow program.now (point_over den.now num.now) row) }
{
    let sum = row_sum(alloc, program.coefficients(row as usize), num)?;
    let due = times(alloc, den, program.limit(row))?;
    Ok(sum.is_at_most(&due))
}

/// Does it keep each row?
fn keeps_rows(
    alloc: Global,
    program: &SparseProgram,
    den: &Whole,
    num: &[Whole],
) -> Result<bool, AllocError>
    requires size { length num.now ≡ columns program.now }
    ensures { IfOk result (λ yes. IsTrue yes ↔ KeepsRows program.now (point_over den.now num.now)) }
{
    for row in 0..program.rows() {
        if !keeps_row(alloc, program, den, num, row)? {
            return Ok(false);
        }
    }
    Ok(true)
}

/// Is the point worth so many ticks?
fn has_worth(
    alloc: Global,
    program: &SparseProgram,
    den: &Whole,
    num: &[Whole],
    ticks: u64,
) -> Result<bool, AllocError>
    requires size { length num.now ≡ columns program.now }
    ensures { IfOk result (λ yes. IsTrue yes ↔ (ticks * den.now ≤ worth program.now (slice_index num.now))) }
{
    let due = times(alloc, den, ticks)?;
    let sum = worth_sum(alloc, program, num)?;
    Ok(due.is_at_most(&sum))
}

/// Says exactly whether the point that gives each column its number over the denominator meets every row of the program, and is worth so
/// many whole ticks. A denominator of 0 makes no point. It refuses for want of memory alone.
pub fn is_worth(
    alloc: Global,
    program: &SparseProgram,
    den: &Whole,
    num: &[Whole],
    ticks: u64,
) -> Result<bool, AllocError>
    requires size { length num.now ≡ columns program.now }
    ensures { IfOk result (λ yes. IsTrue yes ↔ IsWorth program.now den.now num.now ticks) }
{
    if den.is_zero() {
        return Ok(false);
    }
    // most points that are wrong are worth too little, and that is seen sooner
    if !has_worth(alloc, program, den, num, ticks)? {
        return Ok(false);
    }
    keeps_rows(alloc, program, den, num)
}
