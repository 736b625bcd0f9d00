//! What a row of the table has, whether an exchange has changed it or not.

ghost use Rattle.std.specs.Prelude.{◌≡◌, ℕ, List};
ghost use Rattle.program_form.specs.SparseRows.{number_at};
ghost use Rattle.whole_runs.specs.States.{HasSize};
ghost use Rattle.whole_runs.specs.Given.{IsCellAt, IsRowOf};
ghost use Rattle.whole_runs.specs.Readings.{IsNumberRead, IsLimitRead, IsObjective};
ghost use Rattle.whole_runs.specs.declared.stands.Stand.{Stand};

use program_form::{Coefficient, SparseProgram};
use whole_rows::WholeRow;

// The number of a column among the coefficients of a row, and zero if it isn't listed.
pub(crate) fn coefficient_at(coefficients: &[Coefficient], k: usize) -> u64
    ensures { result ≡ number_at coefficients.now k }
{
    for coefficient in coefficients {
        if coefficient.column as usize == k {
            return coefficient.number;
        }
    }
    0
}

// The number of row i at place k.
pub(crate) fn num_of(program: &SparseProgram, rows: &[Option<WholeRow>], i: usize, k: usize) -> i64
    requires { IsCellAt program.now rows.now i k }
    ensures { IsNumberRead program.now rows.now i k result }
{
    match &rows[i] {
        Some(row) => row.num(k),
        None => coefficient_at(program.coefficients(i), k) as i64,
    }
}

// The limit of row i, over the denominator of its numbers.
pub(crate) fn limit_of(program: &SparseProgram, rows: &[Option<WholeRow>], i: usize) -> i64
    requires { IsRowOf program.now rows.now i }
    ensures { IsLimitRead program.now rows.now i result }
{
    match &rows[i] {
        Some(row) => row.limit(),
        None => program.limits()[i] as i64,
    }
}

// The objective row.
pub(crate) fn objective<'a>(program: &SparseProgram, rows: &'a [Option<WholeRow>]) -> &'a WholeRow
    requires { (basis : List ℕ) × (stands : List Stand) × HasSize program.now rows.now basis stands }
    ensures { IsObjective program.now rows.now result.now }
{
    match &rows[program.rows() as usize] {
        Some(row) => row,
        None => unreachable!(),
    }
}
