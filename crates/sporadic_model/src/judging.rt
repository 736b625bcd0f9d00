ghost use Rattle.std.specs.Prelude.{◌≡◌, ◌<◌, ◌^◌, length, map, find, nat_lt, not, false, sum_by, IfNone, Option};
ghost use Rattle.std.specs.Option.{option_map_or};
ghost use Rattle.std.specs.Int.{is_in_range};
ghost use Rattle.sporadic_model.specs.Seen.{parts_seen, task_seen};
ghost use Rattle.sporadic_model.specs.Accepted.{FitsIds};
ghost use Rattle.sporadic_model.specs.Given.{HasRequest, TaskFitsIds};
ghost use Rattle.sporadic_model.specs.Faults.{resource_refusal, task_refusal, request_refusal};
ghost use Rattle.sporadic_model.specs.Refusals.{is_due, at_resources, at_tasks, at_entries, at_requests, size_refusals};
ghost use Rattle.sporadic_model.specs.Refusals.{name_refusals, number_refusals, request_refusals};
ghost use Rattle.sporadic_model.specs.Refusals.{first_refusal as first_due};

use crate::ids::{ResourceId, TaskId};
use crate::limits::{
    MOST_COUNT, MOST_PROCESSORS, MOST_REQUESTS, MOST_RESOURCES, MOST_TASKS, MOST_TICKS,
};
use crate::lookup::{request_part, resource_part, task_part};
use crate::names::{is_entry_for, is_name, is_resource_named, is_task_named, is_within};
use crate::parts::{Parts, TaskPart};
use crate::refusal::{ModelRefusal, Place, SizeOf};

/// A fault of a resource.
#[derive(Clone, Copy)]
pub(crate) enum ResourceFault {
    Name,
    TwiceName,
    Home,
}

/// A fault of a task.
#[derive(Clone, Copy)]
pub(crate) enum TaskFault {
    Name,
    TwiceName,
    Processor,
    Period,
    Deadline,
    Cost,
    Local,
    Jitter,
}

/// A fault of a request entry.
#[derive(Clone, Copy)]
pub(crate) enum RequestFault {
    Resource,
    TwiceRequest,
    Count,
    Length,
}

/// The refusal of resource `q` for the fault.
fn refusal_of_resource(fault: ResourceFault, q: u32) -> ModelRefusal
    ensures { result ≡ resource_refusal fault q }
{
    match fault {
        ResourceFault::Name => ModelRefusal::Name(Place::Resource(q)),
        ResourceFault::TwiceName => ModelRefusal::TwiceName(Place::Resource(q)),
        ResourceFault::Home => ModelRefusal::Home(ResourceId(q)),
    }
}

/// The refusal of task `x` for the fault.
fn refusal_of_task(fault: TaskFault, x: u32) -> ModelRefusal
    ensures { result ≡ task_refusal fault x }
{
    match fault {
        TaskFault::Name => ModelRefusal::Name(Place::Task(x)),
        TaskFault::TwiceName => ModelRefusal::TwiceName(Place::Task(x)),
        TaskFault::Processor => ModelRefusal::Processor(TaskId(x)),
        TaskFault::Period => ModelRefusal::Period(TaskId(x)),
        TaskFault::Deadline => ModelRefusal::Deadline(TaskId(x)),
        TaskFault::Cost => ModelRefusal::Cost(TaskId(x)),
        TaskFault::Local => ModelRefusal::Local(TaskId(x)),
        TaskFault::Jitter => ModelRefusal::Jitter(TaskId(x)),
    }
}

/// The refusal of entry `j` of task `x` for the fault.
fn refusal_of_request(fault: RequestFault, x: u32, j: u32) -> ModelRefusal
    ensures { result ≡ request_refusal fault x j }
{
    match fault {
        RequestFault::Resource => ModelRefusal::Resource(Place::Request(x, j)),
        RequestFault::TwiceRequest => ModelRefusal::TwiceRequest(Place::Request(x, j)),
        RequestFault::Count => ModelRefusal::Count(Place::Request(x, j)),
        RequestFault::Length => ModelRefusal::Length(Place::Request(x, j)),
    }
}

/// Is a home given that is none of the processors?
fn is_outside(home: Option<u64>, processors: u64) -> bool
    ensures { result ≡ option_map_or (λ k. not (is_in_range 1 processors k)) home false }
{
    match home {
        Some(k) => !is_within(1, processors, k),
        None => false,
    }
}

/// Does resource `q` have the fault?
#[tactic(auto, unfolding(crate::specs::Refusals::is_due))]
fn is_due_at_resource(parts: &Parts, fault: ResourceFault, q: usize) -> bool
    requires { q < length parts.now.resources.items }
    ensures { result ≡ is_due (parts_seen parts.now) (resource_refusal fault q) }
{
    let resource = resource_part(&parts.resources, q);
    let name = resource.name.as_bytes();
    match fault {
        ResourceFault::Name => !is_name(name),
        ResourceFault::TwiceName => is_resource_named(&parts.resources[..q], name),
        ResourceFault::Home => is_outside(resource.home, parts.processors),
    }
}

/// Does task `x` have the fault?
#[tactic(auto, unfolding(crate::specs::Refusals::is_due))]
fn is_due_at_task(parts: &Parts, fault: TaskFault, x: usize) -> bool
    requires { x < length parts.now.tasks.items }
    ensures { result ≡ is_due (parts_seen parts.now) (task_refusal fault x) }
{
    let task = task_part(&parts.tasks, x);
    let name = task.name.as_bytes();
    match fault {
        TaskFault::Name => !is_name(name),
        TaskFault::TwiceName => is_task_named(&parts.tasks[..x], name),
        TaskFault::Processor => !is_within(1, parts.processors, task.processor),
        TaskFault::Period => !is_within(1, MOST_TICKS, task.period),
        TaskFault::Deadline => !is_within(1, task.period, task.deadline),
        TaskFault::Cost => !is_within(1, task.deadline, task.cost),
        TaskFault::Local => !is_within(1, task.cost, task.local),
        TaskFault::Jitter => task.jitter > task.deadline.saturating_sub(task.cost),
    }
}

/// Does entry `j` of task `x` have the fault?
#[tactic(auto, unfolding(crate::specs::Refusals::is_due))]
fn is_due_at_request(parts: &Parts, fault: RequestFault, x: usize, j: usize) -> bool
    requires { HasRequest parts.now x j }
    ensures { result ≡ is_due (parts_seen parts.now) (request_refusal fault x j) }
{
    let task = task_part(&parts.tasks, x);
    let request = request_part(&task.requests, j);
    let name = request.resource.as_bytes();
    match fault {
        RequestFault::Resource => !is_resource_named(&parts.resources, name),
        RequestFault::TwiceRequest => is_entry_for(&task.requests[..j], name),
        RequestFault::Count => !is_within(1, MOST_COUNT, request.count),
        RequestFault::Length => !(0 < request.length && request.length < task.cost),
    }
}

/// The first resource with the fault.
fn first_at_resources(parts: &Parts, fault: ResourceFault) -> Option<ModelRefusal>
    requires { length parts.now.resources.items < 2 ^ 32 }
    ensures { result ≡ find (is_due (parts_seen parts.now)) (at_resources (parts_seen parts.now) (resource_refusal fault)) }
{
    for q in 0..parts.resources.len() {
        if is_due_at_resource(parts, fault, q) {
            return Some(refusal_of_resource(fault, q as u32));
        }
    }
    None
}

/// The first task with the fault.
fn first_at_tasks(parts: &Parts, fault: TaskFault) -> Option<ModelRefusal>
    requires { length parts.now.tasks.items < 2 ^ 32 }
    ensures { result ≡ find (is_due (parts_seen parts.now)) (at_tasks (parts_seen parts.now) (task_refusal fault)) }
{
    for x in 0..parts.tasks.len() {
        if is_due_at_task(parts, fault, x) {
            return Some(refusal_of_task(fault, x as u32));
        }
    }
    None
}

/// The first entry of task `x` with the fault.
fn first_at_entries(parts: &Parts, fault: RequestFault, x: usize) -> Option<ModelRefusal>
    requires { TaskFitsIds parts.now x }
    ensures { result ≡ find (is_due (parts_seen parts.now)) (at_entries (parts_seen parts.now) x (request_refusal fault)) }
{
    for j in 0..task_part(&parts.tasks, x).requests.len() {
        if is_due_at_request(parts, fault, x, j) {
            return Some(refusal_of_request(fault, x as u32, j as u32));
        }
    }
    None
}

/// The first request entry with the fault, task by task.
fn first_at_requests(parts: &Parts, fault: RequestFault) -> Option<ModelRefusal>
    requires { FitsIds (parts_seen parts.now) }
    ensures { result ≡ find (is_due (parts_seen parts.now)) (at_requests (parts_seen parts.now) (request_refusal fault)) }
{
    for x in 0..parts.tasks.len() {
        if let Some(refusal) = first_at_entries(parts, fault, x) {
            return Some(refusal);
        }
    }
    None
}

/// Are there more request entries than a set may have?
fn has_many_requests(tasks: &[TaskPart]) -> bool
    ensures { result ≡ nat_lt MOST_REQUESTS (sum_by (λ t. length t.requests) (map task_seen tasks.now)) }
{
    let mut left = MOST_REQUESTS as usize;
    for task in tasks {
        if task.requests.len() > left {
            return true;
        }
        left -= task.requests.len();
    }
    false
}

/// The first refusal for the set's sizes.
#[tactic(auto, unfolding(crate::specs::Refusals::is_due, crate::specs::Refusals::size_refusals))]
fn first_of_sizes(parts: &Parts) -> Option<ModelRefusal>
    ensures first { result ≡ find (is_due (parts_seen parts.now)) size_refusals }
    ensures sizes { IfNone result (FitsIds (parts_seen parts.now)) }
{
    if parts.tasks.is_empty() {
        return Some(ModelRefusal::NoTask);
    }
    if !is_within(1, MOST_PROCESSORS, parts.processors) {
        return Some(ModelRefusal::Size(SizeOf::Processors));
    }
    if parts.tasks.len() as u64 > MOST_TASKS {
        return Some(ModelRefusal::Size(SizeOf::Tasks));
    }
    if parts.resources.len() as u64 > MOST_RESOURCES {
        return Some(ModelRefusal::Size(SizeOf::Resources));
    }
    if has_many_requests(&parts.tasks) {
        return Some(ModelRefusal::Size(SizeOf::Requests));
    }
    None
}

/// The first refusal for a name.
#[tactic(auto, using(crate::proofs::Finding::find_joined))]
fn first_of_names(parts: &Parts) -> Option<ModelRefusal>
    requires { FitsIds (parts_seen parts.now) }
    ensures { result ≡ find (is_due (parts_seen parts.now)) (name_refusals (parts_seen parts.now)) }
{
    first_at_resources(parts, ResourceFault::Name)
        .or_else(|| first_at_tasks(parts, TaskFault::Name))
        .or_else(|| first_at_resources(parts, ResourceFault::TwiceName))
        .or_else(|| first_at_tasks(parts, TaskFault::TwiceName))
}

/// The first refusal for a task's numbers.
#[tactic(auto, using(crate::proofs::Finding::find_joined))]
fn first_of_numbers(parts: &Parts) -> Option<ModelRefusal>
    requires { FitsIds (parts_seen parts.now) }
    ensures { result ≡ find (is_due (parts_seen parts.now)) (number_refusals (parts_seen parts.now)) }
{
    first_at_tasks(parts, TaskFault::Processor)
        .or_else(|| first_at_tasks(parts, TaskFault::Period))
        .or_else(|| first_at_tasks(parts, TaskFault::Deadline))
        .or_else(|| first_at_tasks(parts, TaskFault::Cost))
        .or_else(|| first_at_tasks(parts, TaskFault::Local))
}

/// The first refusal for a request entry.
#[tactic(auto, using(crate::proofs::Finding::find_joined))]
fn first_of_requests(parts: &Parts) -> Option<ModelRefusal>
    requires { FitsIds (parts_seen parts.now) }
    ensures { result ≡ find (is_due (parts_seen parts.now)) (request_refusals (parts_seen parts.now)) }
{
    first_at_requests(parts, RequestFault::Resource)
        .or_else(|| first_at_requests(parts, RequestFault::TwiceRequest))
        .or_else(|| first_at_requests(parts, RequestFault::Count))
        .or_else(|| first_at_requests(parts, RequestFault::Length))
}

/// The first refusal that is due, in the order of trying.
#[tactic(auto, using(crate::proofs::Finding::find_joined))]
pub(crate) fn first_refusal(parts: &Parts) -> Option<ModelRefusal>
    ensures { result ≡ first_due (parts_seen parts.now) }
{
    first_of_sizes(parts)
        .or_else(|| first_of_names(parts))
        .or_else(|| first_of_numbers(parts))
        .or_else(|| first_of_requests(parts))
        .or_else(|| first_at_resources(parts, ResourceFault::Home))
        .or_else(|| first_at_tasks(parts, TaskFault::Jitter))
}
