ghost use Rattle.std.specs.Prelude.{◌≡◌, map, IfOk};
ghost use Rattle.sporadic_model.specs.Seen.{parts_seen, task_seen, resource_seen};
ghost use Rattle.sporadic_model.specs.Demands.{demand_for, demands_in, demand_in};
ghost use Rattle.sporadic_model.specs.Given.{HasEntry};

use crate::lookup::entry_for;
use crate::parts::{Parts, ResourcePart, TaskPart};
use std::alloc::{AllocError, Global};

/// What a job of a task may ask of a resource: the most requests, and the most ticks of one request. Both are 0 if the task has no entry
/// for it.
#[derive(Clone, Copy)]
pub(crate) struct Demand {
    pub(crate) count: u64,
    pub(crate) length: u64,
}

/// What the task may ask of the resource.
fn demand_of(task: &TaskPart, resource: &ResourcePart) -> Demand
    ensures { result ≡ demand_for (task_seen task.now) (resource_seen resource.now) }
{
    match entry_for(&task.requests, resource.name.as_bytes()) {
        Some(entry) => Demand {
            count: entry.count,
            length: entry.length,
        },
        None => Demand {
            count: 0,
            length: 0,
        },
    }
}

/// What the task may ask of each resource.
fn demands_of_task(
    alloc: Global,
    task: &TaskPart,
    resources: &[ResourcePart],
) -> Result<Vec<Demand>, AllocError>
    ensures { IfOk result (λ v. v.items ≡ map (demand_for (task_seen task.now)) (map resource_seen resources.now)) }
{
    let mut row = Vec::with_capacity(alloc, resources.len())?;
    for resource in resources {
        row.push(demand_of(task, resource))?;
    }
    Ok(row)
}

/// What each task may ask of each resource, task by task.
pub(crate) fn demands_of(alloc: Global, parts: &Parts) -> Result<Vec<Vec<Demand>>, AllocError>
    ensures { IfOk result (λ v. map (λ row. row.items) v.items ≡ demands_in (parts_seen parts.now)) }
{
    let mut rows = Vec::with_capacity(alloc, parts.tasks.len())?;
    for task in &parts.tasks {
        rows.push(demands_of_task(alloc, task, &parts.resources)?)?;
    }
    Ok(rows)
}

/// What task `x` may ask of resource `q`.
pub(crate) fn demand_at(demands: &[Vec<Demand>], x: usize, q: usize) -> Demand
    requires { HasEntry demands.now x q }
    ensures { result ≡ demand_in (map (λ row. row.items) demands.now) x q }
{
    demands[x][q]
}
