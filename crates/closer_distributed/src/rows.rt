//! The rows that both closer analyses have.

ghost use Rattle.std.specs.Prelude.{◌≡◌, ◌<◌, ◌+◌, [], ◌∷◌, if◌then◌else◌, map, OnOk};
ghost use Rattle.std.proofs.Common.{ap};
ghost use Rattle.number_laws.specs.Sums.{flag};
ghost use Rattle.blocking_columns.specs.ColumnDef.{column_seen};
ghost use Rattle.blocking_columns.specs.Columns.{is_lower_local};
ghost use Rattle.closer_distributed_laws.specs.CloserRows.{requests_away, home_task_row, lower_task_row, lower_preemption_row, home_rows};
ghost use Rattle.blocking_columns.specs.Given.{AreKnownAt, AreInOrderAt, AreLaidOut};
ghost use Rattle.closer_distributed.specs.Rows.{home_task_rows, lower_task_rows};

use crate::counting::requests_away;
use fragments::{
    Constraint, Fragment, PerNumber, PerTask, RowKind, RowTaker, TaskPlace, TaskRow,
    add_per_lower_task, add_per_number, add_row, add_row_of_task, home, lower_local, requests_at,
    task_places,
};
use sporadic_model::{TaskId, TaskSet};
use std::alloc::{AllocError, Global};

/// Of a processor: each request of the analysed task that runs there waits for at most one request of the processor's own tasks, and for
/// none where it is the analysed task's processor.
#[derive(Drop)]
struct HomeTaskRow {
    processor: u32,
}

impl RowKind for HomeTaskRow {
    ghost row_of = { λ k set i. home_task_row set i k.processor };

    fn coefficient(&self, set: &TaskSet, _i: TaskId, column: Fragment) -> u64 {
        let own = set.processor(column.task) == self.processor;
        if own && !column.class.is_preemption() && home(set, column.resource) == self.processor {
            1
        } else {
            0
        }
    }
}

impl Constraint for HomeTaskRow {
    fn limit(&self, set: &TaskSet, i: TaskId, _bounds: &[u64]) -> u64 {
        if self.processor == set.processor(i) {
            0
        } else {
            requests_at(set, i, self.processor)
        }
    }
}

/// The rows of home tasks of each processor.
#[derive(Drop)]
struct HomeTasks;

impl PerNumber for HomeTasks {
    ghost rows_of = { λ k set i n. home_task_row set i (n + 1) ∷ [] };

    ghost fits = { λ k set i columns n. n < set.processors };

    fn add<T: RowTaker>(
        &self,
        alloc: Global,
        taker: &mut T,
        set: &TaskSet,
        i: TaskId,
        number: u32,
        bounds: &[u64],
        columns: &[Fragment],
    ) -> Result<(), AllocError> {
        // processors are numbered from 1, and a set has few
        let _processors = set.processors();
        let row = HomeTaskRow {
            processor: number + 1,
        };
        add_row(alloc, taker, &row, set, i, bounds, columns)
    }
}

/// Of a lower task on the analysed task's processor: at most so many of its requests block a job, in whatever way.
#[derive(Drop)]
struct LowerTask {
    /// One more than the requests of a job of the analysed task that run on other processors.
    most: u64,
}

impl TaskRow for LowerTask {
    ghost row_of = { λ k. lower_task_row };

    ghost fits = { λ k set i bounds. k.most ≡ 1 + requests_away set i };

    ghost alone = { λ k set i x c other. ap flag other };

    fn coefficient(&self, _set: &TaskSet, _i: TaskId, _x: TaskId, _column: Fragment) -> u64 {
        1
    }

    fn limit(&self, _set: &TaskSet, _i: TaskId, _x: TaskId, _jobs: u64, _bounds: &[u64]) -> u64 {
        self.most
    }
}

/// The rows of lower tasks, one for each on the analysed task's processor.
#[derive(Drop)]
struct LowerTasks(LowerTask);

impl PerTask for LowerTasks {
    ghost rows_of = { λ k set i x. if is_lower_local set i x then lower_task_row set i x ∷ [] else [] };

    ghost fits = { λ k set i bounds. k.0.most ≡ 1 + requests_away set i };

    fn add<T: RowTaker>(
        &self,
        alloc: Global,
        taker: &mut T,
        set: &TaskSet,
        i: TaskId,
        x: TaskId,
        jobs: u64,
        bounds: &[u64],
        columns: &[Fragment],
        stretch: (usize, usize),
    ) -> Result<(), AllocError> {
        if !lower_local(set, i, x) {
            return Ok(());
        }
        add_row_of_task(
            alloc, taker, &self.0, set, i, x, jobs, bounds, columns, stretch,
        )
    }
}

/// Of all lower tasks on the analysed task's processor: at most so many of their requests preempt a job.
#[derive(Drop)]
struct LowerPreemption;

impl RowKind for LowerPreemption {
    ghost row_of = { λ k set i. lower_preemption_row set i };

    fn coefficient(&self, set: &TaskSet, i: TaskId, column: Fragment) -> u64 {
        if column.class.is_preemption() && lower_local(set, i, column.task) {
            1
        } else {
            0
        }
    }
}

impl Constraint for LowerPreemption {
    fn limit(&self, set: &TaskSet, i: TaskId, _bounds: &[u64]) -> u64 {
        1 + requests_away(set, i)
    }
}

// Adds the rows of home tasks.
fn add_home_tasks<T: RowTaker>(
    alloc: Global,
    taker: &mut T,
    set: &TaskSet,
    i: TaskId,
    bounds: &[u64],
    columns: &[Fragment],
) -> Result<(), AllocError>
    requires { AreKnownAt set.now bounds.now i.0 columns.now }
    ensures { OnOk result (T.takes taker.old (map column_seen columns.now) (home_task_rows set.now i.0) bounds.now taker.new) }
{
    let processors = set.processors();
    add_per_number(
        alloc, taker, &HomeTasks, set, processors, i, bounds, columns,
    )
}

// Adds the rows of lower tasks.
fn add_lower_tasks<T: RowTaker>(
    alloc: Global,
    taker: &mut T,
    set: &TaskSet,
    i: TaskId,
    bounds: &[u64],
    columns: &[Fragment],
    places: &[TaskPlace],
) -> Result<(), AllocError>
    requires { AreLaidOut set.now bounds.now i.0 columns.now places.now }
    ensures { OnOk result (T.takes taker.old (map column_seen columns.now) (lower_task_rows set.now i.0) bounds.now taker.new) }
{
    let rows = LowerTasks(LowerTask {
        most: 1 + requests_away(set, i),
    });
    add_per_lower_task(alloc, taker, &rows, set, i, bounds, columns, places)
}

/// Adds the rows that both closer analyses have behind those that the taker has, over any columns that stand in order.
pub(crate) fn add_home_rows<T: RowTaker>(
    alloc: Global,
    taker: &mut T,
    set: &TaskSet,
    i: TaskId,
    bounds: &[u64],
    columns: &[Fragment],
) -> Result<(), AllocError>
    requires { AreInOrderAt set.now bounds.now i.0 columns.now }
    ensures { OnOk result (T.takes taker.old (map column_seen columns.now) (home_rows set.now i.0) bounds.now taker.new) }
{
    let places = task_places(alloc, set, i, bounds, columns)?;
    add_home_tasks(alloc, taker, set, i, bounds, columns)?;
    add_lower_tasks(alloc, taker, set, i, bounds, columns, &places)?;
    add_row(alloc, taker, &LowerPreemption, set, i, bounds, columns)
}
