//! How many requests of other tasks can run, and so how many can be held, while the analysed task waits for a resource.

ghost use Rattle.std.specs.Prelude.{slice_index};
ghost use Rattle.mpcp_window_laws.specs.WaitRows.{requests_in_windows, requests_in_waits};
ghost use Rattle.closer_mpcp.specs.Amounts.{IsAmount};
ghost use Rattle.closer_mpcp.specs.Given.{AreWaitsAt, AreWaitsAndRequest};

use crate::sums::Requests;
use crate::ticks::jobs_during;
use fragments::cnt;
use sporadic_model::{ResourceId, TaskId, TaskSet};

// How many requests of `q` by jobs of `x` can run within the windows of the requests of it that a job of `i` makes? If these have no window,
// the job's bound takes its place.
fn requests_in_windows(
    set: &TaskSet,
    i: TaskId,
    x: TaskId,
    q: ResourceId,
    bounds: &[u64],
    windows: &[Option<u64>],
) -> u64
    requires { AreWaitsAndRequest set.now bounds.now i.0 windows.now x.0 q.0 }
    ensures { IsAmount result (requests_in_windows set.now (slice_index bounds.now) i.0 q.0 x.0 q.0) 2000000000000000 }
{
    let requests = set.count(i, q);
    // only what `i` requests has a window
    if requests == 0 {
        return 0;
    }
    // no bound is above the deadline of its task, which is within the limits of every set
    let _tasks = set.tasks();
    let span = windows[q.0 as usize].unwrap_or(bounds[i.0 as usize]);
    requests * (set.count(x, q) * jobs_during(set, bounds, span, x))
}

/// How many of them can run while a job of `i` waits for `q`? At most as many as `x` makes while the job runs, too.
pub(crate) fn requests_in_waits(
    set: &TaskSet,
    i: TaskId,
    x: TaskId,
    q: ResourceId,
    bounds: &[u64],
    windows: &[Option<u64>],
) -> u64
    requires { AreWaitsAndRequest set.now bounds.now i.0 windows.now x.0 q.0 }
    ensures { IsAmount result (requests_in_waits set.now (slice_index bounds.now) i.0 q.0 x.0 q.0) 2000000000000 }
{
    cnt(set, i, x, q, bounds).min(requests_in_windows(set, i, x, q, bounds, windows))
}

/// The requests of each resource that each task can make while a job of `i` waits for it.
#[derive(Drop)]
pub(crate) struct InWaits<'a> {
    pub(crate) i: TaskId,
    pub(crate) bounds: &'a [u64],
    pub(crate) windows: &'a [Option<u64>],
}

impl<'a> Requests for InWaits<'a> {
    ghost use Rattle.std.proofs.Common.{arith};
    ghost use Rattle.mpcp_window_laws.proofs.WaitLimits.{none_by};

    ghost made = { λ k set r y. requests_in_waits set (slice_index k.bounds.now) k.i.0 r y r };

    ghost fits = { λ k set. AreWaitsAt set k.bounds.now k.i.0 k.windows.now };

    fn number(&self, set: &TaskSet, r: ResourceId, y: TaskId) -> u64 {
        requests_in_waits(set, self.i, y, r, self.bounds, self.windows)
    }

    ghost none = { λ k set r y unused. omega (arith, none_by set (slice_index k.bounds.now) (slice_index k.bounds.now k.i.0) y r unused) };
}
