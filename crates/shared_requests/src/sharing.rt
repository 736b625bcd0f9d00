//! Which resources tasks of several processors use, and who may hold them.

ghost use Rattle.std.specs.Prelude.{◌≡◌, ◌<◌, ◌&&◌, not, length, IfOk};
ghost use Rattle.number_laws.specs.Tests.{any_below};
ghost use Rattle.sporadic_model.specs.Users.{is_user};
ghost use Rattle.blocking_columns.specs.Columns.{have_one_processor};
ghost use Rattle.closer_laws.specs.CloserRows.{is_shared_out};
ghost use Rattle.shared_requests.specs.Held.{AreSharedOut, is_holder};

use crate::holders::Holders;
use fragments::share_processor;
use sporadic_model::{ResourceId, TaskId, TaskSet};
use std::alloc::{AllocError, Global};

// Is `y` a task of another processor than `x`'s?
fn is_elsewhere(set: &TaskSet, x: TaskId, y: TaskId) -> bool
    requires task { x.0 < length set.now.tasks }
    requires other { y.0 < length set.now.tasks }
    ensures { result ≡ not (have_one_processor set.now y.0 x.0) }
{
    !share_processor(set, y, x)
}

/// Is the resource shared out from `x`'s processor: does a task of another one use it?
pub fn is_shared_out(set: &TaskSet, x: TaskId, q: ResourceId) -> bool
    requires task { x.0 < length set.now.tasks }
    requires resource { q.0 < length set.now.resources }
    ensures { result ≡ is_shared_out set.now x.0 q.0 }
{
    let users = set.users(q);
    for y in users {
        if is_elsewhere(set, x, *y) {
            return true;
        }
    }
    false
}

/// By resource, whether it is shared out from `i`'s processor.
pub fn shared_out(alloc: Global, set: &TaskSet, i: TaskId) -> Result<Vec<bool>, AllocError>
    requires { i.0 < length set.now.tasks }
    ensures { IfOk result (λ v. AreSharedOut set.now i.0 v.items) }
{
    let mut shared = Vec::with_capacity(alloc, set.resources() as usize)?;
    for q in 0..set.resources() {
        shared.push(is_shared_out(set, i, ResourceId(q)))?;
    }
    Ok(shared)
}

// Is `y` one of these holders on `x`'s processor?
fn is_holder(set: &TaskSet, by: Holders, i: TaskId, x: TaskId, y: TaskId) -> bool
    requires task { x.0 < length set.now.tasks }
    requires other { y.0 < length set.now.tasks }
    ensures { result ≡ is_holder by set.now i.0 x.0 y.0 }
{
    let there = share_processor(set, y, x) && y != i;
    match by {
        Holders::There => there,
        Holders::Beside => there && y != x,
    }
}

/// Does one of these holders use the resource?
pub fn has_holder(set: &TaskSet, by: Holders, i: TaskId, x: TaskId, q: ResourceId) -> bool
    requires task { x.0 < length set.now.tasks }
    requires resource { q.0 < length set.now.resources }
    ensures { result ≡ any_below (length set.now.tasks) (λ y. is_user set.now q.0 y && is_holder by set.now i.0 x.0 y) }
{
    let users = set.users(q);
    for y in users {
        if is_holder(set, by, i, x, *y) {
            return true;
        }
    }
    false
}
