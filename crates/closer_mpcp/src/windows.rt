//! The windows of a task's requests, computed once for all of its rows.

ghost use Rattle.std.specs.Prelude.{slice_index, IfOk};
ghost use Rattle.closer_mpcp.specs.Given.{IsTaskAt, IsRequestAt};
ghost use Rattle.closer_mpcp.specs.Steady.{AllJobsStay};
ghost use Rattle.closer_mpcp.specs.Windows.{AreWaitWindows, IsWindowIfUsed};

use crate::searching::wait_window;
use crate::steady::steady_ticks;
use fragments::uses;
use sporadic_model::{ResourceId, TaskId, TaskSet};
use std::alloc::{AllocError, Global};

// The window of a request of `q` by `i`, if `i` requests it.
fn window_if_used(
    set: &TaskSet,
    i: TaskId,
    q: ResourceId,
    bounds: &[u64],
    steady: u64,
) -> Option<u64>
    requires request { IsRequestAt set.now bounds.now i.0 q.0 }
    requires steady { AllJobsStay set.now (slice_index bounds.now) steady }
    ensures { IsWindowIfUsed set.now (slice_index bounds.now) i.0 q.0 result }
{
    // no deadline is above the limits of every set
    let _deadline = set.deadline(i);
    if uses(set, i, q) {
        wait_window(set, i, q, bounds, steady)
    } else {
        None
    }
}

/// The windows of the requests of a job of `i`, for each resource that it requests.
pub(crate) fn wait_windows(
    alloc: Global,
    set: &TaskSet,
    i: TaskId,
    bounds: &[u64],
) -> Result<Vec<Option<u64>>, AllocError>
    requires { IsTaskAt set.now bounds.now i.0 }
    ensures { IfOk result (λ v. AreWaitWindows set.now (slice_index bounds.now) i.0 v.items) }
{
    let steady = steady_ticks(set, bounds);
    let mut windows = Vec::with_capacity(alloc, set.resources() as usize)?;
    for q in 0..set.resources() {
        windows.push(window_if_used(set, i, ResourceId(q), bounds, steady))?;
    }
    Ok(windows)
}
