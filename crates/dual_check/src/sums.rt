//! The value of a dual: a sum over the rows of its program. It stops growing once it has reached the number that it is compared with.

ghost use Rattle.std.specs.Prelude.{◌≡◌, ◌+◌, ◌*◌, ◌/◌, min, length, slice_index};
ghost use Rattle.program_form.specs.Program.{height};
ghost use Rattle.program_form.specs.Duals.{dual_total, dual_value};
ghost use Rattle.dual_check.specs.Given.{CanBeWeighed};

use program_form::{Dual, SparseProgram};

/// The product, in full.
pub(crate) fn product(a: u64, b: u64) -> u128
    ensures { result ≡ a * b }
{
    u128::from(a) * u128::from(b)
}

/// The sum of the limits, each times its numerator, but at most `most`.
fn limit_sum(program: &SparseProgram, num: &[u64], most: u128) -> u128
    requires numerators { length num.now ≡ height program.now }
    ensures { result ≡ min most (dual_total program.now (λ r. slice_index num.now r)) }
{
    let mut sum = 0;
    for r in 0..program.rows() {
        let term = product(num[r as usize], program.limit(r));
        sum = most.min(term.saturating_add(sum));
    }
    sum
}

/// The dual's value, in ticks, or `most + 1` if the value is greater.
pub(crate) fn value_to(program: &SparseProgram, dual: &Dual, most: u64) -> u64
    requires { CanBeWeighed program.now dual.now most }
    ensures { result ≡ min (most + 1) (dual_value program.now dual.now.den (λ r. slice_index dual.now.num.items r)) }
{
    let total = limit_sum(program, &dual.num, product(most + 1, dual.den));
    (total / u128::from(dual.den)) as u64
}
