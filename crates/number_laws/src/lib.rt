//! Sums, counts, tests and first places over the whole numbers below a bound. And laws of whole numbers: ring identities and order over the
//! integers, and Euclid's lemma.
//!
//! Contracts and proofs of the other crates use the definitions in `specs/` and the laws in `proofs/`. The functions compute each kind over
//! a slice.
#![tactic(auto)]

ghost use Rattle.std.specs.Prelude.{◌≡◌, ℕ, ◌^◌, ◌<◌, IsTrue, true, false, length, slice_index, slice_index_or, pos};
ghost use Rattle.number_laws.specs.Sums.{sum_below};
ghost use Rattle.number_laws.specs.Tests.{count_below, all_below, any_below, first_below};
ghost use Rattle.number_laws.specs.WholeSums.{total_below};

/// The sum of the values.
pub fn sum(values: &[u64]) -> u64
    requires { sum_below (length values.now) (λ k. slice_index values.now k) < 2 ^ 64 }
    ensures { result ≡ sum_below (length values.now) (λ k. slice_index values.now k) }
{
    let mut sum = 0;
    for value in values {
        sum += *value;
    }
    sum
}

/// The sum of the values, some of which may be below zero.
pub fn total(values: &[i32]) -> i64
    requires { length values.now < 2 ^ 32 }
    ensures { result ≡ total_below (length values.now) (λ k. slice_index_or values.now k (pos 0)) }
{
    let mut total = 0;
    for value in values {
        total += i64::from(*value);
    }
    total
}

/// How many of the marks are set.
pub fn count(marks: &[bool]) -> usize
    ensures { result ≡ count_below (length marks.now) (λ k. slice_index_or marks.now k false) }
{
    let mut count = 0;
    for mark in marks {
        if *mark {
            count += 1;
        }
    }
    count
}

/// Whether each of the marks is set.
pub fn all(marks: &[bool]) -> bool
    ensures { result ≡ all_below (length marks.now) (λ k. slice_index_or marks.now k false) }
{
    for mark in marks {
        if !*mark {
            return false;
        }
    }
    true
}

/// Whether one of the marks is set.
pub fn any(marks: &[bool]) -> bool
    ensures { result ≡ any_below (length marks.now) (λ k. slice_index_or marks.now k false) }
{
    for mark in marks {
        if *mark {
            return true;
        }
    }
    false
}

/// The position of the first mark that is set, or their number if none is.
pub fn first(marks: &[bool]) -> usize
    ensures { result ≡ first_below (length marks.now) (λ k. slice_index_or marks.now k false) }
{
    for (place, mark) in marks.iter().enumerate() {
        if *mark {
            return place;
        }
    }
    marks.len()
}
