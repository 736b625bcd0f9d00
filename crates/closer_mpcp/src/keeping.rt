//! Whether the windows of a task's requests are the same at other bounds.

ghost use Rattle.std.specs.Prelude.{◌≡◌, ◌<◌, ◌≤◌, false, nat_le, length, slice_index, IsTrue};
ghost use Rattle.std.specs.Option.{option_map_or};
ghost use Rattle.mpcp_window_laws.specs.KeptWindows.{KeepsWindow, KeepsWindows};
ghost use Rattle.closer_mpcp.specs.Given.{AreTaskAndResource, AreTwoBounds};
ghost use Rattle.closer_mpcp.specs.Steady.{AreCommon};
ghost use Rattle.closer_mpcp.specs.Windows.{KeepsJobsOfUsers};

use crate::lower_holders::other_holders;
use crate::searching::window_with;
use crate::steady::common_ticks;
use crate::ticks::jobs_during;
use fragments::uses;
use sporadic_model::{ResourceId, TaskId, TaskSet};

// Can exactly as many jobs of each user of `q` run in this span at these bounds as at the earlier ones?
fn keeps_jobs_of_users(
    set: &TaskSet,
    q: ResourceId,
    span: u64,
    earlier: &[u64],
    bounds: &[u64],
) -> bool
    requires resource { q.0 < length set.now.resources }
    requires span { span ≤ 1000000000 }
    requires bounds { AreTwoBounds set.now earlier.now bounds.now }
    ensures { IsTrue result → KeepsJobsOfUsers set.now (slice_index earlier.now) (slice_index bounds.now) span q.0 }
{
    for x in 0..set.tasks() {
        let task = TaskId(x);
        if uses(set, task, q)
            && jobs_during(set, earlier, span, task) != jobs_during(set, bounds, span, task)
        {
            return false;
        }
    }
    true
}

// Is there a window, and is it no longer than this?
fn is_within(window: Option<u64>, ticks: u64) -> bool
    ensures { result ≡ option_map_or (λ w. nat_le w ticks) window false }
{
    match window {
        Some(span) => span <= ticks,
        None => false,
    }
}

// Has a request of `q` by `i` the same window at these bounds as at the earlier ones, and can as many jobs run in it?
fn keeps_window(
    set: &TaskSet,
    i: TaskId,
    q: ResourceId,
    earlier: &[u64],
    bounds: &[u64],
    common: u64,
) -> bool
    requires request { AreTaskAndResource set.now i.0 q.0 }
    requires bounds { AreTwoBounds set.now earlier.now bounds.now }
    requires common { AreCommon set.now (slice_index earlier.now) (slice_index bounds.now) common }
    ensures { IsTrue result → KeepsWindow set.now (slice_index earlier.now) (slice_index bounds.now) i.0 q.0 }
{
    // no deadline is above the limits of every set
    let _deadline = set.deadline(i);
    let holders = other_holders(set, i, q);
    let window = window_with(set, i, q, bounds, common, &holders);
    // in so few ticks the same jobs run at both
    if is_within(window, common) {
        return true;
    }
    if window_with(set, i, q, earlier, common, &holders) != window {
        return false;
    }
    match window {
        Some(span) => keeps_jobs_of_users(set, q, span, earlier, bounds),
        None => true,
    }
}

/// Is that so for each resource that `i` requests?
pub(crate) fn keeps_windows(set: &TaskSet, i: TaskId, earlier: &[u64], bounds: &[u64]) -> bool
    requires task { i.0 < length set.now.tasks }
    requires bounds { AreTwoBounds set.now earlier.now bounds.now }
    ensures { IsTrue result → KeepsWindows set.now i.0 earlier.now bounds.now }
{
    let common = common_ticks(set, earlier, bounds);
    for q in 0..set.resources() {
        let resource = ResourceId(q);
        if uses(set, i, resource) && !keeps_window(set, i, resource, earlier, bounds, common) {
            return false;
        }
    }
    true
}
