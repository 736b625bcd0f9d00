ghost use Rattle.std.specs.Prelude.{◌≡◌, map, IfOk};
ghost use Rattle.sporadic_model.specs.Seen.{parts_seen, request_seen, resource_seen, task_seen};
ghost use Rattle.sporadic_model.specs.Refusals.{Judged};
ghost use Rattle.worked_sets.specs.Rows.{entry_in, resources_from, set_in, tasks_from};

use crate::rows::{EntryRow, SetRow, TaskRow};
use sporadic_model::{ModelRefusal, Parts, RequestPart, ResourcePart, TaskPart, TaskSet};
use std::alloc::{AllocError, Global};

fn requests_of(alloc: Global, entries: &[EntryRow]) -> Result<Vec<RequestPart>, AllocError>
    ensures { IfOk result (λ v. map request_seen v.items ≡ map entry_in entries.now) }
{
    let mut requests = Vec::new(alloc);
    for entry in entries {
        requests.push(RequestPart {
            resource: format!(in alloc; "r{}", entry.resource)?,
            count: entry.count,
            length: entry.length,
        })?;
    }
    Ok(requests)
}

fn tasks_of(alloc: Global, rows: &[TaskRow<'_>]) -> Result<Vec<TaskPart>, AllocError>
    ensures { IfOk result (λ v. map task_seen v.items ≡ tasks_from 0 rows.now) }
{
    let mut tasks = Vec::new(alloc);
    for (number, row) in rows.iter().enumerate() {
        tasks.push(TaskPart {
            name: format!(in alloc; "t{number}")?,
            processor: row.processor,
            period: row.period,
            deadline: row.period,
            cost: row.cost,
            local: row.local,
            jitter: row.jitter,
            requests: requests_of(alloc, row.entries)?,
        })?;
    }
    Ok(tasks)
}

fn resources_of(alloc: Global, homes: &[Option<u64>]) -> Result<Vec<ResourcePart>, AllocError>
    ensures { IfOk result (λ v. map resource_seen v.items ≡ resources_from 0 homes.now) }
{
    let mut resources = Vec::new(alloc);
    for (number, home) in homes.iter().enumerate() {
        resources.push(ResourcePart {
            name: format!(in alloc; "r{number}")?,
            home: *home,
        })?;
    }
    Ok(resources)
}

fn parts_of(alloc: Global, set: SetRow<'_>) -> Result<Parts, AllocError>
    ensures { IfOk result (λ parts. parts_seen parts ≡ set_in set.entry) }
{
    Ok(Parts {
        processors: set.processors,
        resources: resources_of(alloc, set.homes)?,
        tasks: tasks_of(alloc, set.tasks)?,
    })
}

/// The set of the rows, or what `TaskSet::new` answers to them. Its tasks are named `t0`, `t1`, .., and its resources `r0`,
/// `r1`, ...
pub fn set_of(alloc: Global, set: SetRow<'_>) -> Result<TaskSet, ModelRefusal>
    ensures { Judged result (set_in set.entry) }
{
    TaskSet::new(alloc, parts_of(alloc, set)?)
}
