ghost use Rattle.std.specs.Prelude.{◌≡◌, map, length, slice_index, IfOk};
ghost use Rattle.blocking_columns.specs.ColumnDef.{column_seen};
ghost use Rattle.blocking_columns.specs.Columns.{columns_where, columns_of};
ghost use Rattle.blocking_columns.specs.Given.{AreInOrderAt};
ghost use Rattle.blocking_columns.specs.Stretches.{slot, StandInOrder, BeginsAt, IsNextRequest, IsTaskStretch, IsRequestStretch};
ghost use Rattle.blocking_columns.specs.TaskPlaces.{ArePlaces};

use crate::columns::Fragment;
use crate::passing::ColumnTest;
use crate::windows::jobs;
use sporadic_model::{Protocol, ResourceId, TaskId, TaskSet};
use std::alloc::{AllocError, Global};

/// Where the columns of a task begin, and how many of its jobs can run within the bound of a job of the analysed task.
#[derive(Clone, Copy, Debug, PartialEq, Eq)]
pub struct TaskPlace {
    /// The place of the task's first column, or where it would stand.
    pub from: usize,
    /// How many jobs of the task can run.
    pub jobs: u64,
}

/// The columns that pass a test are of tasks and resources of the set, and stand in order. This says so, and does nothing.
pub fn passing_stand_in_order<T: ColumnTest>(
    set: &TaskSet,
    test: &T,
    i: TaskId,
    columns: &[Fragment],
)
    requires columns { map column_seen columns.now ≡ columns_where (T.passes test.now set.now i.0) set.now }
    ensures { StandInOrder set.now columns.now }
{
    // a set has at most 32 resources, so the slots of a task end before those of the next one
    let _resources = set.resources();
}

/// The columns of a task are of tasks and resources of the set, and stand in order. This says so, and does nothing.
pub fn columns_stand_in_order(set: &TaskSet, protocol: Protocol, i: TaskId, columns: &[Fragment])
    requires columns { map column_seen columns.now ≡ columns_of protocol set.now i.0 }
    ensures { StandInOrder set.now columns.now }
{
    // a set has at most 32 resources, so the slots of a task end before those of the next one
    let _resources = set.resources();
}

// The place behind the columns of task `x`, which begin at `from`.
fn task_end(set: &TaskSet, columns: &[Fragment], from: usize, x: TaskId) -> usize
    requires ordered { StandInOrder set.now columns.now }
    requires from { BeginsAt (slot x.0 0) columns.now from }
    ensures { IsTaskStretch x.0 columns.now from result }
{
    // a set has at most 32 resources, so the slots of a task end before those of the next one
    let _resources = set.resources();
    let mut place = from;
    while place < columns.len() && columns[place].task == x {
        place += 1;
    }
    place
}

/// The places of all tasks, with one more behind them that says where the columns of the last task end.
pub fn task_places(
    alloc: Global,
    set: &TaskSet,
    i: TaskId,
    bounds: &[u64],
    columns: &[Fragment],
) -> Result<Vec<TaskPlace>, AllocError>
    requires { AreInOrderAt set.now bounds.now i.0 columns.now }
    ensures { IfOk result (λ v. ArePlaces set.now (slice_index bounds.now) i.0 (length set.now.tasks) columns.now v.items) }
{
    let tasks = set.tasks();
    let mut places = Vec::with_capacity(alloc, tasks as usize + 1)?;
    let mut place = 0;
    for x in 0..tasks {
        let jobs = jobs(set, i, TaskId(x), bounds);
        places.push(TaskPlace { from: place, jobs })?;
        place = task_end(set, columns, place, TaskId(x));
    }
    places.push(TaskPlace {
        from: place,
        jobs: 0,
    })?;
    Ok(places)
}

/// The place behind the columns of requests of `q` by task `x`, of which the first stands at `from`.
pub fn requests_end(
    set: &TaskSet,
    columns: &[Fragment],
    from: usize,
    x: TaskId,
    q: ResourceId,
) -> usize
    requires ordered { StandInOrder set.now columns.now }
    requires from { BeginsAt (slot x.0 q.0) columns.now from }
    requires first { IsNextRequest (length set.now.resources) x.0 q.0 columns.now from }
    ensures { IsRequestStretch x.0 q.0 columns.now from result }
{
    // a set has at most 32 resources, so the slots of a task end before those of the next one
    let _resources = set.resources();
    // the first one is among them
    let mut place = from + 1;
    while place < columns.len() && columns[place].task == x && columns[place].resource == q {
        place += 1;
    }
    place
}
