//! What is done to all numbers of a row. An exchange runs the loops of `multiply_all` and `take_listed` for each row that it changes. They
//! have no call, no check and no branch. They aren't inlined, since in one function with the run they would lack registers.

ghost use Rattle.std.specs.Prelude.{ℕ, ◌+◌, ◌<◌, ◌^◌, ◌*ℤ◌, unsigned_abs};
ghost use Rattle.whole_rows.specs.Given.{CanDivideEach, CanMultiply, CanSubtract, CanTakeFrom};
ghost use Rattle.whole_rows.specs.Numbers.{number_at, IsGreatestSize, AreDivided, AreTimes, AreTimesBetween, AreLess, AreTaken};

use crate::entries::Entry;

// How many numbers are multiplied in one pass of the loop.
const BLOCK: usize = 8;

// The greatest size of the numbers, and of a first one.
pub(crate) fn greatest_size(nums: &[i64], first: u64) -> u64
    ensures { IsGreatestSize nums.now first result }
{
    let mut most = first;
    for num in nums {
        most = most.max(num.unsigned_abs());
    }
    most
}

// Divides each number by a common divisor.
pub(crate) fn divide_all(nums: &mut [i64], by: i64)
    requires { CanDivideEach nums.old by }
    ensures { AreDivided nums.old by nums.new }
{
    for k in 0..nums.len() {
        nums[k] = nums[k] / by;
    }
}

// Multiplies a block of numbers, from place `first` on. Their count is fixed, so they are multiplied one by one, without a loop. A loop
// would multiply two together, which takes longer than two products of 64 bits.
fn multiply_block(nums: &mut [i64], first: usize, by: i64)
    requires { CanMultiply first (first + BLOCK) nums.old by }
    ensures { AreTimesBetween first (first + BLOCK) nums.old by nums.new }
{
    for k in 0..BLOCK {
        nums[first + k] = nums[first + k] * by;
    }
}

// Multiplies each number from place `first` up to place `last`.
fn multiply_between(nums: &mut [i64], first: usize, last: usize, by: i64)
    requires { CanMultiply first last nums.old by }
    ensures { AreTimesBetween first last nums.old by nums.new }
{
    for k in first..last {
        nums[k] = nums[k] * by;
    }
}

// Multiplies each number.
#[inline(never)]
fn multiply_all(nums: &mut [i64], by: i64)
    requires room { (k : ℕ) → unsigned_abs (number_at nums.old k *ℤ by) < 2 ^ 63 }
    ensures { AreTimes nums.old by nums.new }
{
    // mostly there is nothing to do
    if by == 1 {
        return;
    }
    let mut first = 0;
    while nums.len() - first >= BLOCK {
        multiply_block(nums, first, by);
        first += BLOCK;
    }
    let last = nums.len();
    multiply_between(nums, first, last, by);
}

// Subtracts f times each listed number from the number at its place.
#[inline(never)]
pub(crate) fn take_listed(nums: &mut [i64], entries: &[Entry], f: i64)
    requires { CanSubtract nums.old f entries.now }
    ensures { AreLess nums.old f entries.now nums.new }
{
    for entry in entries {
        nums[entry.place] = nums[entry.place] - f * entry.num;
    }
}

// Multiplies the numbers by p and subtracts f times each listed number. The number at place k counts as 0 before.
pub(crate) fn take_from(nums: &mut [i64], k: usize, p: i64, f: i64, entries: &[Entry])
    requires { CanTakeFrom nums.old k p f entries.now }
    ensures { AreTaken nums.old k p f entries.now nums.new }
{
    nums[k] = 0;
    multiply_all(nums, p);
    take_listed(nums, entries, f);
}
