//! Common divisors of the numbers of a row.

ghost use Rattle.std.specs.Prelude.{◌<◌};
ghost use Rattle.whole_rows.specs.Rows.{row_over};
ghost use Rattle.whole_rows.specs.Given.{CanBeCancelled};
ghost use Rattle.whole_rows.specs.Large.{AreLowestTerms, IsGreatestCommon, IsReducedTo};

use crate::numbers::divide_all;
use fraction128::greatest_common_divisor;

// A fraction with all its common divisors removed.
pub(crate) fn lowest_terms(num: i64, den: i64) -> (i64, i64)
    requires { CanBeCancelled num den }
    ensures { AreLowestTerms num den result.0 result.1 }
{
    // a whole number has none
    if den == 1 {
        return (num, den);
    }
    // mostly the denominator divides the number, and to see this takes less time than their greatest common divisor
    if num % den == 0 {
        return (num / den, 1);
    }
    let common = greatest_common_divisor(num.unsigned_abs(), den.unsigned_abs()) as i64;
    (num / common, den / common)
}

// The greatest common divisor of all numbers and of `first`. The walk ends once it is 1.
pub(crate) fn common_divisor(nums: &[i64], first: u64) -> u64
    requires { 0 < first }
    ensures { IsGreatestCommon nums.now first result }
{
    let mut common = first;
    for num in nums {
        if common == 1 {
            return 1;
        }
        common = greatest_common_divisor(num.unsigned_abs(), common);
    }
    common
}

// Divides the numbers of a row by the greatest common divisor of all its parts. Answers the limit and the denominator, divided by it.
pub(crate) fn divide_parts(nums: &mut [i64], limit: i64, den: i64) -> (i64, i64)
    requires { CanBeCancelled limit den }
    ensures { IsReducedTo (row_over nums.old limit den) (row_over nums.new result.0 result.1) }
{
    let first = greatest_common_divisor(limit.unsigned_abs(), den.unsigned_abs());
    let common = common_divisor(nums, first) as i64;
    if common == 1 {
        return (limit, den);
    }
    divide_all(nums, common);
    (limit / common, den / common)
}
