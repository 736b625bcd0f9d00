ghost use Rattle.std.specs.Prelude.{◌≡◌, ◌<◌, ◌≤◌, length, slice_index};
ghost use Rattle.blocking_columns.specs.Given.{AreTwoTasksAt};
ghost use Rattle.blocking_columns.specs.Windows.{jobs_in as jobs_in_window, requests_in, all_requests, requests_at};

use crate::places::home;
use sporadic_model::{ResourceId, TaskId, TaskSet, jobs_in};

/// How many jobs of task `x` can run within the bound of a job of task `i`: the bounds of both and `x`'s jitter together over `x`'s
/// period, rounded up.
pub fn jobs(set: &TaskSet, i: TaskId, x: TaskId, bounds: &[u64]) -> u64
    requires { AreTwoTasksAt set.now bounds.now i.0 x.0 }
    ensures value { result ≡ jobs_in_window set.now (slice_index bounds.now) i.0 x.0 }
    ensures most { result ≤ 2000000000 }
{
    // no bound and jitter together pass the deadline of their task, which is within the limits of every set
    let _tasks = set.tasks();
    let window = bounds[i.0 as usize];
    let bound = bounds[x.0 as usize] + set.jitter(x);
    jobs_in(window, bound, set.period(x))
}

/// How many requests one job of task `i` can make, over all resources.
pub fn requests_of(set: &TaskSet, i: TaskId) -> u64
    requires { i.0 < length set.now.tasks }
    ensures value { result ≡ all_requests set.now i.0 }
    ensures most { result ≤ 32000 }
{
    // a task uses no more resources than the set has, and that has few
    let _resources = set.resources();
    let used = set.used_by(i);
    let mut total = 0;
    for q in used {
        total += set.count(i, *q);
    }
    total
}

/// How many requests one job of task `i` can make, over the resources whose requests run on processor `k`.
pub fn requests_at(set: &TaskSet, i: TaskId, k: u32) -> u64
    requires { i.0 < length set.now.tasks }
    ensures { result ≡ requests_at set.now i.0 k }
{
    // a task uses no more resources than the set has, and that has few
    let _resources = set.resources();
    let used = set.used_by(i);
    let mut total = 0;
    for q in used {
        if home(set, *q) == k {
            total += set.count(i, *q);
        }
    }
    total
}

/// How many requests of resource `q` the jobs of task `x` can make that run within the bound of a job of task `i`.
pub fn cnt(set: &TaskSet, i: TaskId, x: TaskId, q: ResourceId, bounds: &[u64]) -> u64
    requires tasks { AreTwoTasksAt set.now bounds.now i.0 x.0 }
    requires resource { q.0 < length set.now.resources }
    ensures value { result ≡ requests_in set.now (slice_index bounds.now) i.0 x.0 q.0 }
    ensures most { result ≤ 2000000000000 }
{
    set.count(x, q) * jobs(set, i, x, bounds)
}
