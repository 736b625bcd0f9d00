//! What the columns of a program still lack, while a dual's rows are taken one after another.

ghost use Rattle.std.specs.Prelude.{◌≡◌, length, vec_len, IfOk};
ghost use Rattle.program_form.specs.Certificate.{dual_seen};
ghost use Rattle.program_form.specs.Program.{height};
ghost use Rattle.program_form.specs.SparseRows.{AreCoefficients};
ghost use Rattle.dual_check.specs.Lacks.{AreLacking, IsRowTaken};

use crate::sums::product;
use program_form::{Coefficient, Dual, SparseProgram};
use std::alloc::{AllocError, Global};

// What each column lacks before any row is taken: its cost times the denominator.
fn dues_of(alloc: Global, program: &SparseProgram, dual: &Dual) -> Result<Vec<u128>, AllocError>
    ensures { IfOk result (λ v. AreLacking program.now (dual_seen dual.now) 0 v.items) }
{
    let mut lacks = Vec::with_capacity(alloc, program.columns() as usize)?;
    for c in 0..program.columns() {
        lacks.push(product(dual.den, program.cost(c)))?;
    }
    Ok(lacks)
}

// Takes a row, times its numerator, from what the columns lack.
fn take_row(lacks: &mut [u128], coefficients: &[Coefficient], numerator: u64)
    requires listed { AreCoefficients (length lacks.old) coefficients.now }
    ensures { IsRowTaken lacks.old lacks.new coefficients.now numerator }
{
    // most numerators of a dual are zero, and take nothing
    if numerator == 0 {
        return;
    }
    for coefficient in coefficients {
        let c = coefficient.column as usize;
        lacks[c] = lacks[c].saturating_sub(product(numerator, coefficient.number));
    }
}

/// What each column lacks: its cost times the denominator, less what all rows hold of it, each times its numerator.
pub(crate) fn lacks_of(
    alloc: Global,
    program: &SparseProgram,
    dual: &Dual,
) -> Result<Vec<u128>, AllocError>
    requires numerators { vec_len dual.now.num ≡ height program.now }
    ensures { IfOk result (λ v. AreLacking program.now (dual_seen dual.now) (height program.now) v.items) }
{
    let mut lacks = dues_of(alloc, program, dual)?;
    for r in 0..dual.num.len() {
        take_row(&mut lacks, program.coefficients(r), dual.num[r]);
    }
    Ok(lacks)
}
