//! How many requests that a job may wait for can be held by other tasks on each task's processor.

ghost use Rattle.std.specs.Prelude.{◌≡◌, ◌+◌, ◌<◌, ◌≤◌, length, slice_index, IfOk, OnOk};
ghost use Rattle.sporadic_model.specs.Users.{count_of};
ghost use Rattle.sporadic_model.specs.Bounds.{AreWithinDeadlines};
ghost use Rattle.indirect_constraints.specs.Tables.{AreAtMost, AreRaised, AreSums, HigherAreAtMost, HasRequestsAdded, AreAwaited, IsCountOf};
ghost use Rattle.indirect_constraints.specs.Tables.{AreTotalsAndNumbers, HaveRoomAfter, AreHoldings};
ghost use Rattle.indirect_constraints.specs.Tables.{held_on, held_alone, all_held_on, all_held_alone, lower_user};

use crate::tables::{add_at, leave_own, sum_lower, sums_of, where_passed};
use fragments::cnt;
use sporadic_model::{ResourceId, TaskId, TaskSet};
use std::alloc::{AllocError, Global};

// Adds the requests of `q` by each higher task to what the table has of other resources.
fn add_requests_of(numbers: &mut [u64], set: &TaskSet, i: TaskId, q: ResourceId, bounds: &[u64])
    requires task { i.0 < length set.now.tasks }
    requires resource { q.0 < length set.now.resources }
    requires within { AreWithinDeadlines set.now bounds.now }
    requires room { HigherAreAtMost set.now i.0 62000000000000 numbers.old }
    ensures { HasRequestsAdded set.now (slice_index bounds.now) i.0 q.0 numbers.old numbers.new }
{
    for y in set.users(q) {
        if y.0 < i.0 {
            add_at(numbers, y.0 as usize, cnt(set, i, *y, q, bounds));
        }
    }
}

// For each task higher than `i`: how many requests that `i` may wait for can it make while a job of `i` runs? For each other task 0.
fn awaited_of(
    alloc: Global,
    set: &TaskSet,
    i: TaskId,
    bounds: &[u64],
) -> Result<Vec<u64>, AllocError>
    requires task { i.0 < length set.now.tasks }
    requires within { AreWithinDeadlines set.now bounds.now }
    ensures { IfOk result (λ v. AreAwaited set.now (slice_index bounds.now) i.0 v.items) }
{
    // a set has at most 32 resources, so the sums fit
    let _resources = set.resources();
    let mut numbers = vec![in alloc; 0u64; set.tasks() as usize]?;
    for q in set.used_by(i) {
        add_requests_of(&mut numbers, set, i, *q, bounds);
    }
    Ok(numbers)
}

// For each lower user of `q` that is alone on its processor: adds to its number the requests that it can hold there.
fn add_alone(
    numbers: &mut [u64],
    set: &TaskSet,
    i: TaskId,
    q: ResourceId,
    count: u64,
    users: &[u64],
)
    requires count { IsCountOf set.now i.0 q.0 count }
    requires users { AreSums set.now (lower_user set.now i.0 q.0) (length set.now.tasks) users.now }
    requires room { AreAtMost (length set.now.tasks) 64000000031000 numbers.old }
    ensures { AreRaised (length set.now.tasks) (λ x. held_alone set.now i.0 x q.0) numbers.old numbers.new }
{
    for y in set.users(q) {
        if i.0 < y.0 {
            let alone = users[set.processor(*y) as usize] == 1;
            add_at(numbers, y.0 as usize, where_passed(alone, count));
        }
    }
}

// Adds the requests of `q` that lower tasks can hold, by processor, and those that a task alone can hold there. The table of users is a
// scratch table, and is made anew.
fn add_lower(
    totals: &mut [u64],
    numbers: &mut [u64],
    users: &mut [u64],
    set: &TaskSet,
    i: TaskId,
    q: ResourceId,
)
    requires task { i.0 < length set.now.tasks }
    requires resource { q.0 < length set.now.resources }
    requires users { length users.old ≡ set.now.processors + 1 }
    requires room { HaveRoomAfter set.now 31000 totals.old numbers.old }
    ensures users { length users.new ≡ set.now.processors + 1 }
    ensures totals { AreRaised (set.now.processors + 1) (λ k. held_on set.now i.0 k q.0) totals.old totals.new }
    ensures alone { AreRaised (length set.now.tasks) (λ x. held_alone set.now i.0 x q.0) numbers.old numbers.new }
    ensures few { count_of set.now i.0 q.0 ≤ 1000 }
{
    let count = set.count(i, q);
    if sum_lower(users, totals, set, i, q, count) > 0 {
        add_alone(numbers, set, i, q, count, users);
    }
}

// Adds the requests of all resources that `i` uses.
fn add_all_lower(
    alloc: Global,
    totals: &mut [u64],
    numbers: &mut [u64],
    set: &TaskSet,
    i: TaskId,
) -> Result<(), AllocError>
    requires task { i.0 < length set.now.tasks }
    requires room { HaveRoomAfter set.now 0 totals.old numbers.old }
    ensures sizes { AreTotalsAndNumbers set.now totals.new numbers.new }
    ensures totals { OnOk result (AreRaised (set.now.processors + 1) (all_held_on set.now i.0) totals.old totals.new) }
    ensures alone { OnOk result (AreRaised (length set.now.tasks) (all_held_alone set.now i.0) numbers.old numbers.new) }
{
    // a set has at most 32 resources, so the sums fit
    let _resources = set.resources();
    let mut users = vec![in alloc; 0u64; set.processors() as usize + 1]?;
    for q in set.used_by(i) {
        add_lower(totals, numbers, &mut users, set, i, *q);
    }
    Ok(())
}

/// How many requests that a job of `i` may wait for can other tasks hold on the processor of each task?
pub(crate) fn holdings_of(
    alloc: Global,
    set: &TaskSet,
    i: TaskId,
    bounds: &[u64],
) -> Result<Vec<u64>, AllocError>
    requires task { i.0 < length set.now.tasks }
    requires within { AreWithinDeadlines set.now bounds.now }
    ensures { IfOk result (λ v. AreHoldings set.now (slice_index bounds.now) i.0 v.items) }
{
    // the processor of each task is one of the set's
    let _tasks = set.tasks();
    // each task's number is its own part of its processor's total
    let mut numbers = awaited_of(alloc, set, i, bounds)?;
    let mut totals = sums_of(alloc, set, i, &numbers)?;
    add_all_lower(alloc, &mut totals, &mut numbers, set, i)?;
    leave_own(&mut numbers, set, &totals);
    Ok(numbers)
}
