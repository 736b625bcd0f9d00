//! How many ticks of requests may run on a processor.

ghost use Rattle.std.specs.Prelude.{◌≡◌, ◌<◌, ◌≤◌, ◌*◌, length, slice_index};
ghost use Rattle.std.proofs.Props.{props};
ghost use Rattle.sporadic_model.specs.Users.{count_of, length_of};
ghost use Rattle.sporadic_model.specs.Bounds.{AreWithinDeadlines};
ghost use Rattle.blocking_columns.specs.Windows.{jobs_during};
ghost use Rattle.window_laws.specs.Windows.{time_at, may_hold_up, longest_lower, ticks_there};
ghost use Rattle.request_windows.specs.Times.{AreTimes, own_and_lower, longest_by, ticks_by_higher};
ghost use Rattle.request_windows.specs.Given.{AreTaskAndResource, AreSpanAndTime, IsCountedBefore};
ghost use Rattle.request_windows.specs.Amounts.{IsAmount};

use fragments::{ceiling_place, home, uses};
use sporadic_model::{ResourceId, TaskId, TaskSet, jobs_in};

// How many ticks may all requests of the resource by one job of the task run?
fn time_of(set: &TaskSet, x: TaskId, q: ResourceId) -> u64
    requires { AreTaskAndResource set.now x.0 q.0 }
    ensures { IsAmount result (count_of set.now x.0 q.0 * length_of set.now x.0 q.0) 1000000000000 }
{
    set.count(x, q) * set.length(x, q)
}

// How many ticks may all requests of one job of task `x` run on processor `k`?
fn time_at(set: &TaskSet, x: TaskId, k: u32) -> u64
    requires { x.0 < length set.now.tasks }
    ensures { IsAmount result (time_at set.now x.0 k) 32000000000000 }
{
    // a task uses no more resources than the set has, and that has few
    let _resources = set.resources();
    let used = set.used_by(x);
    let mut total = 0;
    for q in used {
        if home(set, *q) == k {
            total += time_of(set, x, *q);
        }
    }
    total
}

/// The same for each task higher than `i`. These don't depend on the span.
pub(crate) fn times_of_higher(set: &TaskSet, i: TaskId, k: u32) -> [u64; 64]
    requires { i.0 < length set.now.tasks }
    ensures { AreTimes set.now i.0 k result }
{
    // a set has at most 64 tasks
    let _tasks = set.tasks();
    let mut times = [0u64; 64];
    for x in 0..i.0 {
        times[x as usize] = time_at(set, TaskId(x), k);
    }
    times
}

// May a request of `q` by `x`, which is lower than `i`, hold up a request of `i` on processor `k`?
fn holds_up(set: &TaskSet, i: TaskId, k: u32, x: TaskId, q: ResourceId) -> bool
    requires { AreTaskAndResource set.now x.0 q.0 }
    ensures { result ≡ may_hold_up set.now i.0 k x.0 q.0 }
{
    i < x && home(set, q) == k && uses(set, x, q) && ceiling_place(set, q) <= i.0
}

// How many ticks may the longest of these requests by `x` last?
fn longest_by(set: &TaskSet, i: TaskId, k: u32, x: TaskId) -> u64
    requires { x.0 < length set.now.tasks }
    ensures { IsAmount result (longest_by set.now i.0 k x.0) 1000000000 }
{
    let used = set.used_by(x);
    let mut longest = 0;
    for q in used {
        if holds_up(set, i, k, x, *q) {
            longest = set.length(x, *q).max(longest);
        }
    }
    longest
}

// The same for any lower task.
fn longest_lower(set: &TaskSet, i: TaskId, k: u32) -> u64
    ensures { IsAmount result (longest_lower set.now i.0 k) 1000000000 }
{
    let mut longest = 0;
    for x in 0..set.tasks() {
        longest = longest_by(set, i, k, TaskId(x)).max(longest);
    }
    longest
}

/// A request of a resource by a task, and the bounds of all tasks.
#[derive(Drop)]
pub(crate) struct Request<'a> {
    pub(crate) set: &'a TaskSet,
    pub(crate) i: TaskId,
    pub(crate) q: ResourceId,
    pub(crate) bounds: &'a [u64],
    ghost task: { i.0 < length set.now.tasks },
    ghost resource: { q.0 < length set.now.resources },
    ghost within: { AreWithinDeadlines set.now bounds.now } by { Prim.hlevel props },
}

/// How many ticks may the request last, and the longest lower request that may hold it up? This doesn't depend on the span.
pub(crate) fn own_and_lower(at: &Request) -> u64
    ensures { IsAmount result (own_and_lower at.now.set.now at.now.i.0 at.now.q.0) 2000000000 }
{
    at.set.length(at.i, at.q) + longest_lower(at.set, at.i, home(at.set, at.q))
}

// How many ticks may requests of jobs of `x` run in a span of ticks, if those of one job run for `time`?
fn ticks_by(at: &Request, span: u64, x: TaskId, time: u64) -> u128
    requires { AreSpanAndTime at.now.set.now x.0 span time }
    ensures { IsAmount result (jobs_during at.now.set.now (slice_index at.now.bounds.now) span x.0 * time) 64000000000000000000000 }
{
    // most tasks run nothing there
    if time == 0 {
        return 0;
    }
    // no bound and jitter together are above the deadline of their task, which is within the limits of every set
    let _tasks = at.set.tasks();
    let bound = at.bounds[x.0 as usize] + at.set.jitter(x);
    let jobs = jobs_in(span, bound, at.set.period(x));
    u128::from(jobs) * u128::from(time)
}

// The same for all tasks higher than `i`, on processor `k`.
fn ticks_by_higher(at: &Request, k: u32, times: &[u64], span: u64) -> u128
    requires times { AreTimes at.now.set.now at.now.i.0 k times.now }
    requires span { span ≤ 1000000000 }
    ensures { IsAmount result (ticks_by_higher at.now.set.now (slice_index at.now.bounds.now) at.now.i.0 k span) (at.now.i.0 * 64000000000000000000000) }
{
    let mut total = 0u128;
    for x in 0..at.i.0 {
        total += ticks_by(at, span, TaskId(x), times[x as usize]);
    }
    total
}

/// Let the request be open. How many ticks may requests run at its resource's home in this span from its issue on?
pub(crate) fn ticks_there(at: &Request, own: u64, times: &[u64], span: u64) -> u128
    requires counted { IsCountedBefore at.now.set.now at.now.i.0 at.now.q.0 own times.now }
    requires span { span ≤ 1000000000 }
    ensures { result ≡ ticks_there at.now.set.now (slice_index at.now.bounds.now) at.now.i.0 at.now.q.0 span }
{
    // a set has at most 64 tasks, so the sum fits
    let _tasks = at.set.tasks();
    u128::from(own) + ticks_by_higher(at, home(at.set, at.q), times, span)
}
