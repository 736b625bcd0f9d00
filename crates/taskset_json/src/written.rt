ghost use Rattle.std.specs.Prelude.{◌≡◌, map, IfOk};
ghost use Rattle.serde_json.specs.View.{view};
ghost use Rattle.sporadic_model.specs.Seen.{request_seen, resource_seen, task_seen, parts_seen};
ghost use Rattle.taskset_json.specs.Written.{request_written, resource_written, task_written, set_written};

use crate::members::{list_at, text_at, whole_at, whole_or};
use serde_json::Value;
use sporadic_model::{Parts, RequestPart, ResourcePart, TaskPart};
use std::alloc::{AllocError, Global};

fn request_of(alloc: Global, value: &Value) -> Result<RequestPart, AllocError>
    ensures { IfOk result (λ r. request_seen r ≡ request_written (view value.now)) }
{
    Ok(RequestPart {
        resource: String::from_str(alloc, text_at(value, "resource"))?,
        count: whole_or(value, "count", 0),
        length: whole_or(value, "length", 0),
    })
}

fn requests_of(alloc: Global, values: &[Value]) -> Result<Vec<RequestPart>, AllocError>
    ensures { IfOk result (λ v. map request_seen v.items ≡ map request_written (map view values.now)) }
{
    let mut requests = Vec::new(alloc);
    for value in values {
        requests.push(request_of(alloc, value)?)?;
    }
    Ok(requests)
}

fn resource_of(alloc: Global, value: &Value) -> Result<ResourcePart, AllocError>
    ensures { IfOk result (λ r. resource_seen r ≡ resource_written (view value.now)) }
{
    Ok(ResourcePart {
        name: String::from_str(alloc, text_at(value, "name"))?,
        home: whole_at(value, "home"),
    })
}

fn resources_of(alloc: Global, values: &[Value]) -> Result<Vec<ResourcePart>, AllocError>
    ensures { IfOk result (λ v. map resource_seen v.items ≡ map resource_written (map view values.now)) }
{
    let mut resources = Vec::new(alloc);
    for value in values {
        resources.push(resource_of(alloc, value)?)?;
    }
    Ok(resources)
}

/// If there is no deadline, it is the period. If there is no local limit, it is the cost. If there is no jitter, it is 0.
fn task_of(alloc: Global, value: &Value) -> Result<TaskPart, AllocError>
    ensures { IfOk result (λ t. task_seen t ≡ task_written (view value.now)) }
{
    let period = whole_or(value, "period", 0);
    let cost = whole_or(value, "cost", 0);
    Ok(TaskPart {
        name: String::from_str(alloc, text_at(value, "name"))?,
        processor: whole_or(value, "processor", 0),
        period,
        deadline: whole_or(value, "deadline", period),
        cost,
        local: whole_or(value, "local", cost),
        jitter: whole_or(value, "jitter", 0),
        requests: requests_of(alloc, list_at(value, "requests"))?,
    })
}

fn tasks_of(alloc: Global, values: &[Value]) -> Result<Vec<TaskPart>, AllocError>
    ensures { IfOk result (λ v. map task_seen v.items ≡ map task_written (map view values.now)) }
{
    let mut tasks = Vec::new(alloc);
    for value in values {
        tasks.push(task_of(alloc, value)?)?;
    }
    Ok(tasks)
}

/// The parts of the task set of a value of the form. All numbers that the form requires are there, so the 0 for a missing number is never
/// used.
pub(crate) fn parts_of(alloc: Global, value: &Value) -> Result<Parts, AllocError>
    ensures { IfOk result (λ p. parts_seen p ≡ set_written (view value.now)) }
{
    Ok(Parts {
        processors: whole_or(value, "processors", 0),
        resources: resources_of(alloc, list_at(value, "resources"))?,
        tasks: tasks_of(alloc, list_at(value, "tasks"))?,
    })
}
