ghost use Rattle.std.specs.Prelude.{◌≡◌, length};
ghost use Rattle.schedule_model.specs.Seen.{place_seen};
ghost use Rattle.phase_machine.specs.Now.{current_now};
ghost use Rattle.charge.specs.Given.{BoundEachTask, IsBoundedTask, IsBoundedJob};
ghost use Rattle.charge.specs.Due.{end_now, due_of, least_of, IsFirstOrDue, IsSoonerDue, IsUntilDue};

use phase_machine::Machine;
use phase_machine::lookup::{task_of, tasks_of};
use schedule_model::JobId;
use sporadic_model::TaskId;

/// By when the job is to be finished: by its release plus its task's bound.
pub(crate) fn end_of(machine: &Machine, bounds: &[u64], j: JobId) -> u64
    requires { IsBoundedJob machine.now bounds.now j.0 }
    ensures { result ≡ end_now machine.now bounds.now j.0 }
{
    machine.jobs().job(j).release + bounds[task_of(machine, j).0 as usize]
}

/// The task's active job, if its bound ends at the machine's tick.
fn due_of(machine: &Machine, bounds: &[u64], x: TaskId) -> Option<JobId>
    requires { IsBoundedTask machine.now bounds.now x.0 }
    ensures { place_seen result ≡ due_of machine.now bounds.now (current_now machine.now x.0) }
{
    match machine.current(x) {
        Some(j) if end_of(machine, bounds, j) == machine.tick() => Some(j),
        _ => None,
    }
}

/// The lower of the two, or the only one.
fn least_of(first: Option<JobId>, second: Option<JobId>) -> Option<JobId>
    ensures { place_seen result ≡ least_of (place_seen first) (place_seen second) }
{
    match (first, second) {
        (Some(i), Some(j)) => Some(i.min(j)),
        (Some(i), None) => Some(i),
        (None, other) => other,
    }
}

/// The first of these two: the given job, and the first active job whose bound ends at the machine's tick.
pub(crate) fn first_of_due(machine: &Machine, bounds: &[u64], first: Option<JobId>) -> Option<JobId>
    requires { BoundEachTask machine.now.list.set bounds.now }
    ensures { IsFirstOrDue machine.now bounds.now (place_seen first) (place_seen result) }
{
    let mut least = first;
    for x in 0..tasks_of(machine) {
        least = least_of(least, due_of(machine, bounds, TaskId(x)));
    }
    least
}

/// This many ticks. Or, if the bound of the task's active job ends sooner, the ticks until then.
fn sooner_due(machine: &Machine, bounds: &[u64], x: TaskId, ticks: u64) -> u64
    requires { IsBoundedTask machine.now bounds.now x.0 }
    ensures { IsSoonerDue machine.now bounds.now x.0 ticks result }
{
    match machine.current(x) {
        Some(j) if machine.tick() < end_of(machine, bounds, j) => {
            ticks.min(end_of(machine, bounds, j) - machine.tick())
        }
        _ => ticks,
    }
}

/// This many ticks. Or, if the bound of an active job ends sooner and hasn't ended yet, the ticks until then.
pub(crate) fn until_due(machine: &Machine, bounds: &[u64], ticks: u64) -> u64
    requires { BoundEachTask machine.now.list.set bounds.now }
    ensures { IsUntilDue machine.now bounds.now ticks result (length machine.now.list.set.tasks) }
{
    let mut least = ticks;
    for x in 0..tasks_of(machine) {
        least = sooner_due(machine, bounds, TaskId(x), least);
    }
    least
}
