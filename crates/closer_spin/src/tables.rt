//! Resources that pass a test, as tables, and sums over them.

ghost use Rattle.std.specs.Prelude.{◌≡◌, ◌<◌, ◌≤◌, false, length, slice_index_or, IfOk};
ghost use Rattle.number_laws.specs.Tests.{count_below};
ghost use Rattle.sporadic_model.specs.Bounds.{AreWithinDeadlines};
ghost use Rattle.spin_charging.specs.SpinPrograms.{is_used_below};
ghost use Rattle.closer_spin_laws.specs.CloserSpinRows.{is_used_on, is_used_above, is_spun_below, is_spun_above, is_lone, is_set_apart};
ghost use Rattle.closer_spin.specs.Tables.{TellsUsedBelow, TellsUsedAbove, TellsSpun, AreUpper, CanSum, IsSumPassing};

use blocking_columns::share_processor;
use spin_protocol::{ResourceTest, higher_requests, is_used_below};
use sporadic_model::{ResourceId, TaskId, TaskSet};
use std::alloc::{AllocError, Global};

/// Does a task of the processor use the resource?
fn is_used_on(set: &TaskSet, processor: u32, q: ResourceId) -> bool
    requires { q.0 < length set.now.resources }
    ensures { result ≡ is_used_on set.now processor q.0 }
{
    let users = set.users(q);
    for x in users {
        if set.processor(*x) == processor {
            return true;
        }
    }
    false
}

/// Does `i`, or a higher task of its processor, use the resource?
fn is_used_above(set: &TaskSet, i: TaskId, q: ResourceId) -> bool
    requires task { i.0 < length set.now.tasks }
    requires resource { q.0 < length set.now.resources }
    ensures { result ≡ is_used_above set.now i.0 q.0 }
{
    let users = set.users(q);
    for x in users {
        if x.0 <= i.0 && share_processor(set, *x, i) {
            return true;
        }
    }
    false
}

/// The same as a test.
#[derive(Drop)]
pub(crate) struct UsedAbove;

impl ResourceTest for UsedAbove {
    ghost fits = { λ t set i. i < length set.tasks };

    ghost passes = { λ t. is_used_above };

    fn test(&self, set: &TaskSet, i: TaskId, q: ResourceId) -> bool {
        is_used_above(set, i, q)
    }
}

/// Does a lower task of `i`'s processor use the resource?
#[derive(Drop)]
pub(crate) struct UsedBelow;

impl ResourceTest for UsedBelow {
    ghost fits = { λ t set i. i < length set.tasks };

    ghost passes = { λ t. is_used_below };

    fn test(&self, set: &TaskSet, i: TaskId, q: ResourceId) -> bool {
        is_used_below(set, i, q)
    }
}

/// May a lower task of `i`'s processor spin for a request of the resource by a task of the processor? The table tells which resources
/// lower tasks use.
#[derive(Drop)]
pub(crate) struct SpunBelow<'a> {
    pub(crate) processor: u32,
    pub(crate) below: &'a [bool],
}

impl<'a> ResourceTest for SpunBelow<'a> {
    ghost fits = { λ t set i. (i < length set.tasks) × TellsUsedBelow set i t.below.now };

    ghost passes = { λ t set i. is_spun_below set i t.processor };

    fn test(&self, set: &TaskSet, i: TaskId, q: ResourceId) -> bool {
        // lower tasks use few resources, so this looks for users on the processor last
        self.below[q.0 as usize]
            && self.processor != set.processor(i)
            && is_used_on(set, self.processor, q)
    }
}

/// May such a task spin for it there, and is it used above? The tables tell for which resources lower tasks may spin, and which are used
/// above.
#[derive(Drop)]
pub(crate) struct SpunAbove<'a> {
    pub(crate) processor: u32,
    pub(crate) spun: &'a [bool],
    pub(crate) above: &'a [bool],
}

impl<'a> ResourceTest for SpunAbove<'a> {
    ghost fits = { λ t set i. TellsSpun set i t.processor t.spun.now × TellsUsedAbove set i t.above.now };

    ghost passes = { λ t set i. is_spun_above set i t.processor };

    fn test(&self, _set: &TaskSet, _i: TaskId, q: ResourceId) -> bool {
        self.spun[q.0 as usize] && self.above[q.0 as usize]
    }
}

/// May only lower tasks spin for it there?
#[derive(Drop)]
pub(crate) struct Lone<'a> {
    pub(crate) processor: u32,
    pub(crate) spun: &'a [bool],
    pub(crate) above: &'a [bool],
}

impl<'a> ResourceTest for Lone<'a> {
    ghost fits = { λ t set i. TellsSpun set i t.processor t.spun.now × TellsUsedAbove set i t.above.now };

    ghost passes = { λ t set i. is_lone set i t.processor };

    fn test(&self, _set: &TaskSet, _i: TaskId, q: ResourceId) -> bool {
        self.spun[q.0 as usize] && !self.above[q.0 as usize]
    }
}

/// Have all resources for which lower tasks may spin but it a row? The tables tell which of them are used above and which are lone. The
/// other two say whether several but not many are used above, and whether they are many in all.
#[derive(Drop)]
pub(crate) struct SetApart<'a> {
    pub(crate) processor: u32,
    pub(crate) shared: &'a [bool],
    pub(crate) lone: &'a [bool],
    pub(crate) are_few_above: bool,
    pub(crate) are_many: bool,
}

impl<'a> ResourceTest for SetApart<'a> {
    ghost use Rattle.closer_spin.specs.Tables.{CanSetApart};

    ghost fits = { λ t set i. CanSetApart set i t.processor t.shared.now t.lone.now t.are_few_above t.are_many };

    ghost passes = { λ t set i. is_set_apart set i t.processor };

    fn test(&self, _set: &TaskSet, _i: TaskId, q: ResourceId) -> bool {
        (self.shared[q.0 as usize] && self.are_few_above)
            || (self.lone[q.0 as usize] && !self.are_many)
    }
}

/// How many resources of the table pass?
pub(crate) fn how_many(table: &[bool]) -> u32
    requires { length table.now ≤ 32 }
    ensures { result ≡ count_below (length table.now) (λ q. slice_index_or table.now q false) }
{
    let mut count = 0u32;
    for q in 0..table.len() {
        if table[q] {
            count += 1;
        }
    }
    count
}

/// By resource, how many requests of it `i` and the higher tasks of its processor make while a job of `i` runs.
pub(crate) fn requests_above(
    alloc: Global,
    set: &TaskSet,
    i: TaskId,
    bounds: &[u64],
) -> Result<Vec<u64>, AllocError>
    requires task { i.0 < length set.now.tasks }
    requires within { AreWithinDeadlines set.now bounds.now }
    ensures { IfOk result (λ requests. AreUpper set.now bounds.now i.0 requests.items) }
{
    // a set has at most 64 tasks and 32 resources, so each number fits
    let _tasks = set.tasks();
    let mut requests = Vec::with_capacity(alloc, set.resources() as usize)?;
    for q in 0..set.resources() {
        let number = set.count(i, ResourceId(q)) + higher_requests(set, i, ResourceId(q), bounds);
        requests.push(number)?;
    }
    Ok(requests)
}

/// How many requests of the resources that pass are these, by resource?
pub(crate) fn sum_passing(table: &[bool], requests: &[u64]) -> u64
    requires { CanSum table.now requests.now }
    ensures { IsSumPassing table.now requests.now result }
{
    let mut total = 0;
    for q in 0..table.len() {
        if table[q] {
            total += requests[q];
        }
    }
    total
}
