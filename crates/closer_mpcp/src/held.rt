//! What can be held beside each task, computed once for all rows of a program.

ghost use Rattle.std.specs.Prelude.{slice_index, IfOk};
ghost use Rattle.shared_requests.specs.Held.{AreSharedOut};
ghost use Rattle.closer_mpcp.specs.Amounts.{IsAmount};
ghost use Rattle.closer_mpcp.specs.Given.{AreTwoTasks, AreTwoTasksAndResource, AreSharedWaitsAt};
ghost use Rattle.closer_mpcp.specs.Holdings.{held_beside};
ghost use Rattle.closer_mpcp.specs.Sums.{AreLowerSumsOf, AreLowerSums};
ghost use Rattle.closer_mpcp.specs.Tables.{AreInWaits, AreInWaitsEach, shared_beside, AreHeldBeside, AreHeldBesideEach};

use crate::holdings::lower_held;
use crate::places::Place;
use crate::sums::{Sums, beside, sums_of_used};
use crate::waits::InWaits;
use fragments::share_processor;
use sporadic_model::{ResourceId, TaskId, TaskSet};
use std::alloc::{AllocError, Global};

/// How many requests can be held beside each task while a job of the analysed task waits for them. The numbers count requests, not ticks.
#[derive(Drop)]
pub(crate) struct HeldBesideTasks {
    /// By task, and by resource that the analysed task requests, in their order. It is 0 for a resource that isn't shared out. Places behind
    /// the last of these resources say nothing.
    pub(crate) requests: Vec<[u64; 32]>,
}

// How many requests of `r` can be held beside `x` while a job of `i` waits for them? Higher tasks hold them within the windows of these
// waits. Where `x` is on `i`'s processor no lower task holds one.
fn held_beside(
    set: &TaskSet,
    i: TaskId,
    x: TaskId,
    r: ResourceId,
    bounds: &[u64],
    sums: &Sums,
    lower: &Sums,
) -> u64
    requires request { AreTwoTasksAndResource set.now i.0 x.0 r.0 }
    requires sums { AreInWaits set.now (slice_index bounds.now) i.0 r.0 sums.now }
    requires lower { AreLowerSumsOf set.now (i.0) r.0 lower.now }
    ensures { IsAmount result (held_beside set.now (slice_index bounds.now) i.0 x.0 r.0) 128000000001000 }
{
    let higher = beside(set, sums, x);
    if share_processor(set, x, i) {
        higher
    } else {
        higher + lower_held(set, Place::Beside, i, x, r, lower)
    }
}

// The same, if `r` is shared out.
fn shared_beside(
    set: &TaskSet,
    i: TaskId,
    x: TaskId,
    r: ResourceId,
    shared: &[bool],
    bounds: &[u64],
    sums: &Sums,
    lower: &Sums,
) -> u64
    requires request { AreTwoTasksAndResource set.now i.0 x.0 r.0 }
    requires shared { AreSharedOut set.now i.0 shared.now }
    requires sums { AreInWaits set.now (slice_index bounds.now) i.0 r.0 sums.now }
    requires lower { AreLowerSumsOf set.now (i.0) r.0 lower.now }
    ensures { IsAmount result (shared_beside set.now (slice_index bounds.now) i.0 x.0 r.0) 128000000001000 }
{
    if shared[r.0 as usize] {
        held_beside(set, i, x, r, bounds, sums, lower)
    } else {
        0
    }
}

// The same for each resource that `i` requests, in their order.
fn held_beside_task(
    set: &TaskSet,
    i: TaskId,
    x: TaskId,
    shared: &[bool],
    bounds: &[u64],
    sums: &[Sums],
    lower: &[Sums],
) -> [u64; 32]
    requires tasks { AreTwoTasks set.now i.0 x.0 }
    requires shared { AreSharedOut set.now i.0 shared.now }
    requires sums { AreInWaitsEach set.now (slice_index bounds.now) i.0 sums.now }
    requires lower { AreLowerSums set.now i.0 lower.now }
    ensures { AreHeldBeside set.now (slice_index bounds.now) i.0 x.0 result }
{
    // a set has at most 32 resources
    let _resources = set.resources();
    let used = set.used_by(i);
    let mut held = [0u64; 32];
    for k in 0..used.len() {
        held[k] = shared_beside(set, i, x, used[k], shared, bounds, &sums[k], &lower[k]);
    }
    held
}

/// The same for each task.
pub(crate) fn held_beside_each(
    alloc: Global,
    set: &TaskSet,
    i: TaskId,
    shared: &[bool],
    bounds: &[u64],
    windows: &[Option<u64>],
    lower: &[Sums],
) -> Result<HeldBesideTasks, AllocError>
    requires waits { AreSharedWaitsAt set.now bounds.now i.0 shared.now windows.now }
    requires lower { AreLowerSums set.now i.0 lower.now }
    ensures { IfOk result (λ v. AreHeldBesideEach set.now (slice_index bounds.now) i.0 v.requests.items) }
{
    let in_waits = InWaits { i, bounds, windows };
    let sums = sums_of_used(alloc, set, &in_waits, i)?;
    let mut requests = Vec::with_capacity(alloc, set.tasks() as usize)?;
    for x in 0..set.tasks() {
        requests.push(held_beside_task(set, i, TaskId(x), shared, bounds, &sums, lower))?;
    }
    Ok(HeldBesideTasks { requests })
}
