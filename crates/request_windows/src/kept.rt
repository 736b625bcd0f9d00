//! The windows of a task's requests, computed once for all of its rows.

ghost use Rattle.std.specs.Prelude.{◌<◌, length, slice_index, IfOk};
ghost use Rattle.request_windows.specs.Windows.{AreWindows, IsWindowIfUsed};
ghost use Rattle.request_windows.specs.Served.{IsServed};

use crate::searching::window;
use fragments::uses;
use sporadic_model::{ResourceId, TaskId, TaskSet};
use std::alloc::{AllocError, Global};

// The window of a request of `q` by `i`, if `i` requests it.
fn window_if_used(set: &TaskSet, i: TaskId, q: ResourceId, bounds: &[u64]) -> Option<u64>
    requires served { IsServed set.now i.0 bounds.now }
    requires resource { q.0 < length set.now.resources }
    ensures { IsWindowIfUsed set.now (slice_index bounds.now) i.0 q.0 result }
{
    // no deadline is above the limits of every set
    let _deadline = set.deadline(i);
    if uses(set, i, q) {
        window(set, i, q, bounds)
    } else {
        None
    }
}

/// The windows of the requests of a job of `i`, for each resource that it requests.
pub(crate) fn windows_of(
    alloc: Global,
    set: &TaskSet,
    i: TaskId,
    bounds: &[u64],
) -> Result<Vec<Option<u64>>, AllocError>
    requires { IsServed set.now i.0 bounds.now }
    ensures { IfOk result (λ v. AreWindows set.now (slice_index bounds.now) i.0 v.items) }
{
    let mut windows = Vec::with_capacity(alloc, set.resources() as usize)?;
    for q in 0..set.resources() {
        windows.push(window_if_used(set, i, ResourceId(q), bounds))?;
    }
    Ok(windows)
}
