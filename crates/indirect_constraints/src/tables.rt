//! Tables of a number for each task, and their sums by processor.

ghost use Rattle.std.specs.Prelude.{◌≡◌, ℕ, ◌+◌, ◌<◌, ◌^◌, ◌==◌, length, slice_index, IfOk};
ghost use Rattle.number_laws.specs.Sums.{only_if, sum_below};
ghost use Rattle.indirect_constraints.specs.Tables.{AreAtMost, AreRaised, AreSums, HigherAreAtMost, IsCountOf, ArePartsOf, AreTheRest};
ghost use Rattle.indirect_constraints.specs.Tables.{held_on, lower_user};

use sporadic_model::{ResourceId, TaskId, TaskSet};
use std::alloc::{AllocError, Global};

/// Adds to the number at the place.
pub(crate) fn add_at(table: &mut [u64], place: usize, number: u64)
    requires place { place < length table.old }
    requires room { slice_index table.old place + number < 2 ^ 64 }
    ensures size { length table.new ≡ length table.old }
    ensures each { (k : ℕ) → slice_index table.new k ≡ slice_index table.old k + only_if (place == k) number }
{
    table[place] += number;
}

/// The number if the test is passed, and else 0.
pub(crate) fn where_passed(passed: bool, number: u64) -> u64
    ensures { result ≡ only_if passed number }
{
    if passed { number } else { 0 }
}

// Makes each number zero.
fn clear(table: &mut [u64])
    ensures size { length table.new ≡ length table.old }
    ensures each { (k : ℕ) → slice_index table.new k ≡ 0 }
{
    table.fill(0);
}

/// For each processor, the sum of the numbers of its tasks that are higher than `i`. Processors are numbered from 1.
pub(crate) fn sums_of(
    alloc: Global,
    set: &TaskSet,
    i: TaskId,
    numbers: &[u64],
) -> Result<Vec<u64>, AllocError>
    requires task { i.0 < length set.now.tasks }
    requires small { HigherAreAtMost set.now i.0 64000000000000 numbers.now }
    ensures { IfOk result (λ v. AreSums set.now (slice_index numbers.now) i.0 v.items) }
{
    // a set has at most 64 tasks, so the sums fit
    let _tasks = set.tasks();
    let mut sums = vec![in alloc; 0u64; set.processors() as usize + 1]?;
    for y in 0..i.0 {
        let processor = set.processor(TaskId(y));
        add_at(&mut sums, processor as usize, numbers[y as usize]);
    }
    Ok(sums)
}

/// Puts into the table how many lower tasks than `i` on each processor use `q`. Adds the count to the total of each processor that has one.
/// Answers how many such tasks there are in all.
pub(crate) fn sum_lower(
    sums: &mut [u64],
    totals: &mut [u64],
    set: &TaskSet,
    i: TaskId,
    q: ResourceId,
    count: u64,
) -> u64
    requires count { IsCountOf set.now i.0 q.0 count }
    requires one_each { length sums.old ≡ set.now.processors + 1 }
    requires room { AreAtMost (set.now.processors + 1) 4096000000031000 totals.old }
    ensures sums { AreSums set.now (lower_user set.now i.0 q.0) (length set.now.tasks) sums.new }
    ensures all { result ≡ sum_below (length set.now.tasks) (lower_user set.now i.0 q.0) }
    ensures totals { AreRaised (set.now.processors + 1) (λ k. held_on set.now i.0 k q.0) totals.old totals.new }
{
    // a set has at most 64 tasks, so the sums fit
    let _tasks = set.tasks();
    clear(sums);
    let mut all = 0;
    for y in set.users(q) {
        if i.0 < y.0 {
            let processor = set.processor(*y) as usize;
            let first = sums[processor] == 0;
            add_at(sums, processor, 1);
            add_at(totals, processor, where_passed(first, count));
            all += 1;
        }
    }
    all
}

/// Replaces each task's number by the sum of its processor less that number.
pub(crate) fn leave_own(numbers: &mut [u64], set: &TaskSet, sums: &[u64])
    requires { ArePartsOf set.now sums.now numbers.old }
    ensures { AreTheRest set.now sums.now numbers.old numbers.new }
{
    for x in 0..set.tasks() {
        let all = sums[set.processor(TaskId(x)) as usize];
        numbers[x as usize] = all - numbers[x as usize];
    }
}
