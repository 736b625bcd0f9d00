//! Which resources each task uses, and which tasks use each resource: found once, and read by position.

ghost use Rattle.std.specs.Prelude.{◌≡◌, ◌<◌, [], length, map, nat_lt, slice_index_or, IfOk};
ghost use Rattle.sporadic_model.specs.Seen.{parts_seen};
ghost use Rattle.sporadic_model.specs.Users.{used_by, users_of};
ghost use Rattle.sporadic_model.specs.Demands.{demand_in, AreUsed, AreUsers};
ghost use Rattle.sporadic_model.specs.Given.{HasEntry, HasDemands};

use crate::demands::{Demand, demand_at};
use crate::ids::{ResourceId, TaskId};
use crate::parts::Parts;
use std::alloc::{AllocError, Global};

/// Does task `x` ask for resource `q`?
fn asks(demands: &[Vec<Demand>], x: usize, q: usize) -> bool
    requires { HasEntry demands.now x q }
    ensures { result ≡ nat_lt 0 (demand_in (map (λ row. row.items) demands.now) x q).count }
{
    demand_at(demands, x, q).count > 0
}

/// The resources that task `x` uses, in order.
fn used_by_task(
    alloc: Global,
    parts: &Parts,
    demands: &[Vec<Demand>],
    x: usize,
) -> Result<Vec<ResourceId>, AllocError>
    requires table { HasDemands (parts_seen parts.now) (map (λ row. row.items) demands.now) }
    requires task { x < length (parts_seen parts.now).tasks }
    ensures { IfOk result (λ v. map (λ q. q.0) v.items ≡ used_by (parts_seen parts.now) x) }
{
    let mut used = Vec::with_capacity(alloc, parts.resources.len())?;
    for q in 0..parts.resources.len() {
        if asks(demands, x, q) {
            used.push(ResourceId(q as u32))?;
        }
    }
    Ok(used)
}

/// The resources that each task uses, task by task.
pub(crate) fn used_by_tasks(
    alloc: Global,
    parts: &Parts,
    demands: &[Vec<Demand>],
) -> Result<Vec<Vec<ResourceId>>, AllocError>
    requires { HasDemands (parts_seen parts.now) (map (λ row. row.items) demands.now) }
    ensures { IfOk result (λ v. AreUsed (parts_seen parts.now) (map (λ row. row.items) v.items)) }
{
    let mut rows = Vec::with_capacity(alloc, parts.tasks.len())?;
    for x in 0..parts.tasks.len() {
        rows.push(used_by_task(alloc, parts, demands, x)?)?;
    }
    Ok(rows)
}

/// The tasks that use resource `q`, from the highest to the lowest.
fn users_of_resource(
    alloc: Global,
    parts: &Parts,
    demands: &[Vec<Demand>],
    q: usize,
) -> Result<Vec<TaskId>, AllocError>
    requires table { HasDemands (parts_seen parts.now) (map (λ row. row.items) demands.now) }
    requires resource { q < length (parts_seen parts.now).resources }
    ensures { IfOk result (λ v. map (λ x. x.0) v.items ≡ users_of (parts_seen parts.now) q) }
{
    let mut users = Vec::with_capacity(alloc, parts.tasks.len())?;
    for x in 0..parts.tasks.len() {
        if asks(demands, x, q) {
            users.push(TaskId(x as u32))?;
        }
    }
    Ok(users)
}

/// The tasks that use each resource, resource by resource.
pub(crate) fn users_of_resources(
    alloc: Global,
    parts: &Parts,
    demands: &[Vec<Demand>],
) -> Result<Vec<Vec<TaskId>>, AllocError>
    requires { HasDemands (parts_seen parts.now) (map (λ row. row.items) demands.now) }
    ensures { IfOk result (λ v. AreUsers (parts_seen parts.now) (map (λ row. row.items) v.items)) }
{
    let mut rows = Vec::with_capacity(alloc, parts.resources.len())?;
    for q in 0..parts.resources.len() {
        rows.push(users_of_resource(alloc, parts, demands, q)?)?;
    }
    Ok(rows)
}

/// The row at the place.
pub(crate) fn row_at<T>(rows: &[Vec<T>], place: usize) -> &[T]
    requires { place < length rows.now }
    ensures { result.now ≡ slice_index_or (map (λ row. row.items) rows.now) place [] }
{
    &rows[place]
}
