//! Goes over the steps of a refusal, by the tests that need no program.

ghost use Rattle.std.specs.Prelude.{◌≡◌, ◌<◌, length, slice_set, IfOk};
ghost use Rattle.refusal_laws.specs.Seen.{step_seen};
ghost use Rattle.refusal_confirm.specs.Parts.{Enters, Takes};
ghost use Rattle.refusal_confirm.specs.Walks.{AreFirstBounds, IsAtStart, CanTake};

use crate::fault::Part;
use refusal_laws::RefusalStep;
use sporadic_model::{TaskId, TaskSet};
use std::alloc::{AllocError, Global};

/// How far the walk over the steps is.
#[derive(Drop)]
pub(crate) struct Walk {
    /// The bounds so far, in ticks. A value that is above its latest bound isn't put among them.
    pub bounds: Vec<u64>,
    /// Is the last step's value above its latest bound?
    pub is_over: bool,
}

/// Each task's cost.
fn costs(alloc: Global, set: &TaskSet) -> Result<Vec<u64>, AllocError>
    ensures { IfOk result (λ v. AreFirstBounds set.now v.items) }
{
    let mut costs = Vec::new(alloc);
    for i in 0..set.tasks() {
        costs.push(set.cost(TaskId(i)))?;
    }
    Ok(costs)
}

/// A walk before the first step.
pub(crate) fn start(alloc: Global, set: &TaskSet) -> Result<Walk, AllocError>
    ensures { IfOk result (λ w. IsAtStart set.now w.bounds.items w.is_over) }
{
    Ok(Walk {
        bounds: costs(alloc, set)?,
        is_over: false,
    })
}

/// The task of the next step, or the first test that it fails.
pub(crate) fn enter(set: &TaskSet, walk: &Walk, step: &RefusalStep) -> Result<TaskId, Part>
    requires { length walk.now.bounds.items ≡ length set.now.tasks }
    ensures { Enters result set.now walk.now.bounds.items walk.now.is_over (step_seen step.now) }
{
    if walk.is_over {
        return Err(Part::After);
    }
    if step.task < 1 || step.task > u64::from(set.tasks()) {
        return Err(Part::Task);
    }
    let task = TaskId((step.task - 1) as u32);
    if step.value <= walk.bounds[task.0 as usize] {
        return Err(Part::Rising);
    }
    Ok(task)
}

fn put(bounds: &mut [u64], i: usize, value: u64)
    requires { i < length bounds.old }
    ensures { bounds.new ≡ slice_set bounds.old i value }
{
    bounds[i] = value;
}

/// Takes a step of the task to this value.
pub(crate) fn take(walk: &mut Walk, set: &TaskSet, task: TaskId, value: u64)
    requires { CanTake set.now walk.old.bounds.items task.0 }
    ensures { Takes walk.new.is_over walk.new.bounds.items set.now walk.old.bounds.items task.0 value }
{
    walk.is_over = value > set.latest_bound(task);
    if !walk.is_over {
        put(&mut walk.bounds, task.0 as usize, value);
    }
}
