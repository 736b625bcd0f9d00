//! The ceiling of each resource as each processor sees it. The table is made once, and read by position.

ghost use Rattle.std.specs.Prelude.{◌≡◌, ◌<◌, ◌==◌, [], length, map, not, slice_index_or, option_map, IfOk, None, find};
ghost use Rattle.std.specs.List.{All};
ghost use Rattle.sporadic_model.specs.SetDef.{task_at};
ghost use Rattle.sporadic_model.specs.Seen.{parts_seen};
ghost use Rattle.sporadic_model.specs.Users.{remote_ceiling_of};
ghost use Rattle.sporadic_model.specs.Demands.{AreUsers, AreBoosts, boosts_on};
ghost use Rattle.sporadic_model.specs.Given.{HasEntry, HasUsers};

use crate::ids::TaskId;
use crate::lookup::task_part;
use crate::parts::Parts;
use crate::users::row_at;
use std::alloc::{AllocError, Global};

/// Is task `x` on another processor than `k`?
fn is_beyond(parts: &Parts, x: TaskId, k: u64) -> bool
    requires { x.0 < length (parts_seen parts.now).tasks }
    ensures { result ≡ not ((task_at (parts_seen parts.now) x.0).processor == k) }
{
    task_part(&parts.tasks, x.0 as usize).processor != k
}

/// The first of the users that isn't on processor `k`.
fn first_beyond(parts: &Parts, users: &[TaskId], k: u64) -> Option<TaskId>
    requires { All (λ x. x.0 < length (parts_seen parts.now).tasks) users.now }
    ensures { option_map (λ x. x.0) result ≡ find (λ x. not ((task_at (parts_seen parts.now) x).processor == k)) (map (λ x. x.0) users.now) }
{
    for x in users {
        if is_beyond(parts, *x, k) {
            return Some(*x);
        }
    }
    None
}

/// The ceiling of resource `q` as processor `k` sees it.
fn boost_of(parts: &Parts, users: &[Vec<TaskId>], k: usize, q: usize) -> Option<TaskId>
    requires kept { AreUsers (parts_seen parts.now) (map (λ row. row.items) users.now) }
    requires resource { q < length (parts_seen parts.now).resources }
    ensures { option_map (λ x. x.0) result ≡ remote_ceiling_of (parts_seen parts.now) q k }
{
    let of_resource = row_at(users, q);
    match first_beyond(parts, of_resource, k as u64) {
        Some(x) => Some(x),
        None => of_resource.first().copied(),
    }
}

/// The ceiling of each resource as processor `k` sees it, resource by resource.
fn boosts_of_processor(
    alloc: Global,
    parts: &Parts,
    users: &[Vec<TaskId>],
    k: usize,
) -> Result<Vec<Option<TaskId>>, AllocError>
    requires { AreUsers (parts_seen parts.now) (map (λ row. row.items) users.now) }
    ensures { IfOk result (λ v. map (option_map (λ x. x.0)) v.items ≡ boosts_on (parts_seen parts.now) k) }
{
    let mut row = Vec::with_capacity(alloc, parts.resources.len())?;
    for q in 0..parts.resources.len() {
        row.push(boost_of(parts, users, k, q))?;
    }
    Ok(row)
}

/// The ceiling of each resource as each processor sees it: one row for each processor, and one for 0. Processors are numbered from 1, so a
/// row's position is its processor's number.
pub(crate) fn boosts_of_processors(
    alloc: Global,
    parts: &Parts,
    users: &[Vec<TaskId>],
) -> Result<Vec<Vec<Option<TaskId>>>, AllocError>
    requires { HasUsers (parts_seen parts.now) (map (λ row. row.items) users.now) }
    ensures { IfOk result (λ v. AreBoosts (parts_seen parts.now) (map (λ row. row.items) v.items)) }
{
    let count = parts.processors as usize + 1;
    let mut rows = Vec::with_capacity(alloc, count)?;
    for k in 0..count {
        rows.push(boosts_of_processor(alloc, parts, users, k)?)?;
    }
    Ok(rows)
}

/// The ceiling of resource `q` in the row of processor `k`.
pub(crate) fn boost_at(boosts: &[Vec<Option<TaskId>>], k: usize, q: usize) -> Option<TaskId>
    requires { HasEntry boosts.now k q }
    ensures { result ≡ slice_index_or (slice_index_or (map (λ row. row.items) boosts.now) k []) q None }
{
    boosts[k][q]
}
