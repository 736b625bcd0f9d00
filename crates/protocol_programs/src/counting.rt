ghost use Rattle.std.specs.Prelude.{◌≡◌, ◌<◌, ◌≤◌, ◌*◌, length};
ghost use Rattle.sporadic_model.specs.SetDef.{task_at};
ghost use Rattle.sporadic_model.specs.Bounds.{most_of_one_task};
ghost use Rattle.program_sources.specs.Recurrence.{interference_by, interference_of};
ghost use Rattle.program_laws.specs.Programs.{interfering_cost};
ghost use Rattle.protocol_programs.specs.Given.{CanCountInterference};

use sporadic_model::{Protocol, TaskId, TaskSet, jobs_in};

// How many ticks of a job of task `h` count as interference?
fn interfering(set: &TaskSet, protocol: Protocol, h: TaskId) -> u64
    requires { h.0 < length set.now.tasks }
    ensures value { result ≡ interfering_cost protocol set.now h.0 }
    ensures most { result ≤ (task_at set.now h.0).cost }
    ensures ticks { result ≤ 1000000000 }
{
    match protocol {
        Protocol::Mpcp | Protocol::FmlpPlus => set.cost(h),
        Protocol::Dpcp => set.local(h),
    }
}

// The ticks that the recurrence counts for jobs of the higher task `h`.
fn interference_of_task(
    set: &TaskSet,
    protocol: Protocol,
    i: TaskId,
    h: TaskId,
    bounds: &[u64],
) -> u64
    requires at { CanCountInterference set.now i.0 bounds.now }
    requires higher { h.0 < i.0 }
    ensures value { result ≡ interference_by (interfering_cost protocol set.now) set.now bounds.now i.0 h.0 }
    ensures most { result ≤ most_of_one_task }
{
    // a task's numbers are within the limits of every set, so the product fits
    let _tasks = set.tasks();
    let ticks = interfering(set, protocol, h);
    let period = set.period(h);
    let window = bounds[i.0 as usize];
    let bound = bounds[h.0 as usize] + set.jitter(h);
    jobs_in(window, bound - ticks, period) * ticks
}

/// The ticks that the recurrence counts at these bounds for jobs of all higher tasks on `i`'s processor. Of each task as many jobs count as
/// can run within `i`'s bound, each with the task's cost; under DPCP with its local limit.
pub fn interference(set: &TaskSet, protocol: Protocol, i: TaskId, bounds: &[u64]) -> u64
    requires { CanCountInterference set.now i.0 bounds.now }
    ensures value { result ≡ interference_of (interfering_cost protocol set.now) set.now bounds.now i.0 }
    ensures most { result ≤ i.0 * most_of_one_task }
{
    let mut total = 0;
    for h in 0..i.0 {
        if set.higher_local(i, TaskId(h)) {
            total += interference_of_task(set, protocol, i, TaskId(h), bounds);
        }
    }
    total
}
