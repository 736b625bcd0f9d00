//! What the threads of a round have found, each result at the place of its task.

ghost use Rattle.std.specs.Prelude.{◌≡◌, ℕ, ◌<◌, length, replicate, slice_get, slice_set, None, Some, IfOk};
ghost use Rattle.response_fixpoint.specs.Places.{AreBelow, places_with, parts_with};

use sporadic_model::TaskId;
use std::alloc::{AllocError, Global};

/// What a thread has found of a task.
#[derive(Drop)]
pub struct Placed<T> {
    pub task: TaskId,
    pub found: T,
}

/// Puts what was found of a task at the task's place.
fn put<T: Drop>(places: &mut [Option<T>], placed: Placed<T>)
    requires { placed.task.0 < length places.old }
    ensures { places.new ≡ slice_set places.old placed.task.0 (Some placed.found) }
{
    let Placed { task, found } = placed;
    places[task.0 as usize] = Some(found);
}

/// Puts what a thread has found at the places of its tasks.
fn put_all<T: Drop>(places: &mut [Option<T>], found: Vec<Placed<T>>)
    requires { AreBelow (length places.old) found.items }
    ensures { places.new ≡ places_with places.old found.items }
{
    for placed in found {
        put(places, placed);
    }
}

/// This many places, with nothing found yet.
fn no_places<T: Drop>(alloc: Global, count: usize) -> Result<Vec<Option<T>>, AllocError>
    ensures { IfOk result (λ v. v.items ≡ replicate count None) }
{
    let mut places = Vec::new(alloc);
    for _ in 0..count {
        places.push(None)?;
    }
    Ok(places)
}

/// What the threads have found of this many tasks, each result at the place of its task.
pub fn in_places<T: Drop>(
    alloc: Global,
    count: usize,
    parts: Vec<Result<Vec<Placed<T>>, AllocError>>,
) -> Result<Vec<Option<T>>, AllocError>
    requires { (k : ℕ) (part : _) → slice_get parts.items k ≡ Some part → IfOk part (λ v. AreBelow count v.items) }
    ensures { IfOk result (λ v. v.items ≡ parts_with (replicate count None) parts.items) }
{
    let mut places = no_places(alloc, count)?;
    for part in parts {
        put_all(&mut places, part?);
    }
    Ok(places)
}
