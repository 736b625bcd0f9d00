//! Sums over the columns of a program, in full.

ghost use Rattle.std.specs.Prelude.{◌≡◌, ◌*◌, length, slice_index, IfOk};
ghost use Rattle.number_laws.specs.Sums.{sum_below};
ghost use Rattle.program_form.specs.Program.{columns};
ghost use Rattle.program_form.specs.SparseRows.{number_at, AreCoefficients};
ghost use Rattle.program_form.specs.Points.{worth};

use program_form::{Coefficient, SparseProgram};
use std::alloc::{AllocError, Global};
use whole_numbers::Whole;

/// So many times a number.
pub(crate) fn times(alloc: Global, number: &Whole, factor: u64) -> Result<Whole, AllocError>
    ensures { IfOk result (λ w. w ≡ number.now * factor) }
{
    let mut product = Whole::zero(alloc);
    product.add_times(number, factor)?;
    Ok(product)
}

/// What a row of these coefficients comes to at these numbers.
pub(crate) fn row_sum(
    alloc: Global,
    coefficients: &[Coefficient],
    num: &[Whole],
) -> Result<Whole, AllocError>
    requires listed { AreCoefficients (length num.now) coefficients.now }
    ensures { IfOk result (λ w. w ≡ sum_below (length num.now) (λ c. number_at coefficients.now c * slice_index num.now c)) }
{
    let mut sum = Whole::zero(alloc);
    for coefficient in coefficients {
        sum.add_times(&num[coefficient.column as usize], coefficient.number)?;
    }
    Ok(sum)
}

/// What the columns are worth at these numbers. It refuses for want of memory alone.
pub fn worth_sum(alloc: Global, program: &SparseProgram, num: &[Whole]) -> Result<Whole, AllocError>
    requires numbers { length num.now ≡ columns program.now }
    ensures { IfOk result (λ w. w ≡ worth program.now (slice_index num.now)) }
{
    let mut sum = Whole::zero(alloc);
    for c in 0..program.columns() {
        sum.add_times(&num[c as usize], program.cost(c))?;
    }
    Ok(sum)
}
