ghost use Rattle.std.specs.Prelude.{◌≡◌, ◌<◌, ◌≤◌, length, map, None, slice_index_or, IfSome};
ghost use Rattle.schedule_model.specs.RowDef.{running_on, holder_in};
ghost use Rattle.schedule_model.specs.Seen.{place_seen, row_seen};
ghost use Rattle.phase_machine.specs.MachineDef.{IsMachine, task_in};
ghost use Rattle.phase_machine.specs.Taking.{IsRowFor};
ghost use Rattle.phase_machine.specs.Now.{requester_now, processor_now, is_local_now, holds_now, may_run_now};

use crate::machine::Machine;
use crate::phase::Phase;
use schedule_model::{JobId, Row};
use sporadic_model::{ResourceId, TaskId};

/// How many tasks the machine's set has.
pub fn tasks_of(machine: &Machine) -> u32
    ensures value { result ≡ length machine.now.list.set.tasks }
    ensures machine { IsMachine machine.now }
{
    machine.jobs().set().tasks()
}

/// How many resources it has.
pub fn resources_of(machine: &Machine) -> u32
    ensures value { result ≡ length machine.now.list.set.resources }
    ensures machine { IsMachine machine.now }
{
    machine.jobs().set().resources()
}

/// The job's task.
pub fn task_of(machine: &Machine, j: JobId) -> TaskId
    requires { j.0 < length machine.now.list.jobs }
    ensures value { result.0 ≡ task_in machine.now.list.jobs j.0 }
    ensures within { result.0 < length machine.now.list.set.tasks }
{
    machine.jobs().job(j).task
}

/// The processor that the job runs on, counted from 1.
pub fn processor_of(machine: &Machine, j: JobId) -> u32
    requires { j.0 < length machine.now.list.jobs }
    ensures value { result ≡ processor_now machine.now j.0 }
    ensures least { 1 ≤ result }
    ensures most { result ≤ machine.now.list.set.processors }
{
    machine.jobs().set().processor(task_of(machine, j))
}

/// The job that is named at a place of a row.
pub fn named_at(places: &[Option<JobId>], i: usize) -> Option<JobId>
    requires { i < length places.now }
    ensures { place_seen result ≡ slice_index_or (map place_seen places.now) i None }
{
    places[i]
}

/// The job that runs in the column, counted from 0.
pub fn column_at(machine: &Machine, row: &Row, c: usize) -> Option<JobId>
    requires fits { IsRowFor machine.now.list (row_seen row.now) }
    requires column { c < length (row_seen row.now).running }
    ensures value { place_seen result ≡ slice_index_or (row_seen row.now).running c None }
    ensures within { IfSome result (λ j. j.0 < length machine.now.list.jobs) }
{
    row.running[c]
}

/// The job that holds the resource.
pub fn holder_at(machine: &Machine, row: &Row, q: ResourceId) -> Option<JobId>
    requires fits { IsRowFor machine.now.list (row_seen row.now) }
    requires resource { q.0 < length machine.now.list.set.resources }
    ensures value { place_seen result ≡ holder_in (row_seen row.now) q.0 }
    ensures within { IfSome result (λ j. j.0 < length machine.now.list.jobs) }
{
    row.holders[q.0 as usize]
}

/// The job that runs on the job's processor.
pub fn running_beside(machine: &Machine, row: &Row, j: JobId) -> Option<JobId>
    requires fits { IsRowFor machine.now.list (row_seen row.now) }
    requires listed { j.0 < length machine.now.list.jobs }
    ensures value { place_seen result ≡ running_on (row_seen row.now) (processor_now machine.now j.0) }
    ensures within { IfSome result (λ r. r.0 < length machine.now.list.jobs) }
{
    column_at(machine, row, processor_of(machine, j) as usize - 1)
}

/// Is the job in a request of the resource, and active?
#[tactic(auto, unfolding(crate::specs::Now::requester_now))]
pub fn requests(machine: &Machine, q: ResourceId, j: JobId) -> bool
    requires { j.0 < length machine.now.list.jobs }
    ensures { result ≡ requester_now machine.now q.0 j.0 }
{
    machine.active(j)
        && match machine.phase(j) {
            Phase::Asking(_, r) => r == q,
            _ => false,
        }
}

/// Is the job Local?
pub fn is_local(machine: &Machine, j: JobId) -> bool
    requires { j.0 < length machine.now.list.jobs }
    ensures { result ≡ is_local_now machine.now j.0 }
{
    machine.phase(j) == Phase::Local
}

/// With these holders: does the job hold the resource that it requests?
pub fn holds(machine: &Machine, holders: &[Option<JobId>], j: JobId) -> bool
    requires listed { j.0 < length machine.now.list.jobs }
    requires sized { length holders.now ≡ length machine.now.list.set.resources }
    ensures { result ≡ holds_now machine.now (λ q. slice_index_or (map place_seen holders.now) q None) j.0 }
{
    match machine.phase(j) {
        Phase::Asking(_, q) => named_at(holders, q.0 as usize) == Some(j),
        _ => false,
    }
}

/// Is the job Local? Or, with these holders, does it hold the resource that it requests?
pub fn may_run(machine: &Machine, holders: &[Option<JobId>], j: JobId) -> bool
    requires listed { j.0 < length machine.now.list.jobs }
    requires sized { length holders.now ≡ length machine.now.list.set.resources }
    ensures { result ≡ may_run_now machine.now (λ q. slice_index_or (map place_seen holders.now) q None) j.0 }
{
    is_local(machine, j) || holds(machine, holders, j)
}
