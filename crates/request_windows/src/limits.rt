//! The limit of a row of windows.

ghost use Rattle.std.specs.Prelude.{◌≡◌, ◌<◌, length, slice_index};
ghost use Rattle.std.proofs.Props.{props};
ghost use Rattle.sporadic_model.specs.Bounds.{AreWithinDeadlines};
ghost use Rattle.blocking_columns.specs.Windows.{jobs_in};
ghost use Rattle.window_laws.specs.WindowRows.{requests_there, requests_met, window_row};
ghost use Rattle.request_windows.specs.Windows.{AreWindows, requests_by};
ghost use Rattle.request_windows.specs.Amounts.{IsAmount};
ghost use Rattle.request_windows.specs.Given.{IsRequested};

use fragments::{home, uses};
use sporadic_model::{ResourceId, TaskId, TaskSet, jobs_in};

/// Requests of `r` by jobs of `x` that a job of `i` meets within the windows of its own requests.
#[derive(Drop)]
pub(crate) struct Meeting<'a> {
    pub(crate) set: &'a TaskSet,
    pub(crate) i: TaskId,
    pub(crate) x: TaskId,
    pub(crate) r: ResourceId,
    pub(crate) bounds: &'a [u64],
    pub(crate) windows: &'a [Option<u64>],
    ghost task: { i.0 < length set.now.tasks },
    ghost other: { x.0 < length set.now.tasks },
    ghost resource: { r.0 < length set.now.resources },
    ghost within: { AreWithinDeadlines set.now bounds.now } by { Prim.hlevel props },
    ghost told: { AreWindows set.now (slice_index bounds.now) i.0 windows.now } by { Prim.hlevel props },
}

// How many of them can run within the window of a request of `q` by `i`? If that has no window, the bound of the job takes its place.
fn requests_there(at: &Meeting, q: ResourceId) -> u64
    requires { IsRequested at.now.set.now at.now.i.0 q.0 }
    ensures { IsAmount result (requests_there at.now.set.now (slice_index at.now.bounds.now) at.now.i.0 at.now.x.0 at.now.r.0 q.0) 2000000000000 }
{
    // no bound and jitter together are above the deadline of their task, which is within the limits of every set
    let _tasks = at.set.tasks();
    let span = at.windows[q.0 as usize].unwrap_or(at.bounds[at.i.0 as usize]);
    let bound = at.bounds[at.x.0 as usize] + at.set.jitter(at.x);
    at.set.count(at.x, at.r) * jobs_in(span, bound, at.set.period(at.x))
}

// How many of them within the windows of all requests of `q` that a job of `i` makes, if `q` and `r` have one home?
fn requests_by(at: &Meeting, q: ResourceId) -> u64
    requires { q.0 < length at.now.set.now.resources }
    ensures { IsAmount result (requests_by at.now.set.now (slice_index at.now.bounds.now) at.now.i.0 at.now.x.0 at.now.r.0 q.0) 2000000000000000 }
{
    if uses(at.set, at.i, q) && home(at.set, q) == home(at.set, at.r) {
        at.set.count(at.i, q) * requests_there(at, q)
    } else {
        0
    }
}

// How many of them within the windows of all requests that a job of `i` makes at the home of `r`?
fn requests_met(at: &Meeting) -> u64
    ensures { result ≡ requests_met at.now.set.now (slice_index at.now.bounds.now) at.now.i.0 at.now.x.0 at.now.r.0 }
{
    let mut total = 0;
    for q in 0..at.set.resources() {
        total += requests_by(at, ResourceId(q));
    }
    total
}

/// The limit of the row of windows for these requests. This many jobs of `x` can run while a job of `i` runs. The limit is how many requests
/// these can make, and no more than run within the windows of that job's requests there.
pub(crate) fn limit(at: &Meeting, jobs: u64) -> u64
    requires { IsAmount jobs (jobs_in at.now.set.now (slice_index at.now.bounds.now) at.now.i.0 at.now.x.0) 2000000000 }
    ensures { result ≡ (window_row at.now.set.now at.now.i.0 at.now.x.0 at.now.r.0).limit (slice_index at.now.bounds.now) }
{
    (at.set.count(at.x, at.r) * jobs).min(requests_met(at))
}
