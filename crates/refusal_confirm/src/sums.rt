//! Sums over the columns of a program. They stop growing once they are above what they are compared with.

ghost use Rattle.std.specs.Prelude.{◌≡◌, ◌*◌, ◌≤◌, ◌↔◌, IsTrue, min, length, slice_index};
ghost use Rattle.number_laws.specs.Sums.{sum_below};
ghost use Rattle.program_form.specs.Certificate.{dual_seen};
ghost use Rattle.program_form.specs.Program.{columns};
ghost use Rattle.program_form.specs.SparseRows.{number_at, AreCoefficients};
ghost use Rattle.program_form.specs.Points.{worth};
ghost use Rattle.refusal_laws.specs.Steps.{whole_worth};
ghost use Rattle.refusal_confirm.specs.Tests.{KeepsRow};
ghost use Rattle.refusal_confirm.specs.Sums.{IsProduct};
ghost use Rattle.refusal_confirm.specs.Given.{IsPointFor, HasSizeForRow};

use program_form::{Coefficient, Dual, SparseProgram};

fn product(a: u64, b: u64) -> u128
    ensures { IsProduct a b result }
{
    u128::from(a) * u128::from(b)
}

/// The sum of a row with these coefficients at these numbers, at most `most`.
fn row_sum(coefficients: &[Coefficient], num: &[u64], most: u128) -> u128
    requires listed { AreCoefficients (length num.now) coefficients.now }
    ensures { result ≡ min most (sum_below (length num.now) (λ c. number_at coefficients.now c * slice_index num.now c)) }
{
    let mut sum = 0;
    for coefficient in coefficients {
        let term = product(coefficient.number, num[coefficient.column as usize]);
        sum = most.min(term.saturating_add(sum));
    }
    sum
}

/// What the columns are worth at these numbers, at most `most`.
fn worth_sum(program: &SparseProgram, num: &[u64], most: u128) -> u128
    requires numbers { length num.now ≡ columns program.now }
    ensures { result ≡ min most (worth program.now (slice_index num.now)) }
{
    let mut sum = 0;
    for c in 0..program.columns() {
        let term = product(program.cost(c), num[c as usize]);
        sum = most.min(term.saturating_add(sum));
    }
    sum
}

/// Does the point keep the row: is the row's sum at most the limit times the denominator?
pub(crate) fn keeps_row(program: &SparseProgram, point: &Dual, row: u32) -> bool
    requires { HasSizeForRow program.now (dual_seen point.now) row }
    ensures { IsTrue result ↔ KeepsRow program.now (dual_seen point.now) row }
{
    let due = product(point.den, program.limit(row));
    row_sum(program.coefficients(row as usize), &point.num, due + 1) <= due
}

/// Is the point worth at least this many whole ticks?
pub(crate) fn is_worth(program: &SparseProgram, point: &Dual, ticks: u64) -> bool
    requires { IsPointFor program.now (dual_seen point.now) }
    ensures { IsTrue result ↔ (ticks ≤ whole_worth program.now (dual_seen point.now)) }
{
    let due = product(ticks, point.den);
    worth_sum(program, &point.num, due) == due
}
