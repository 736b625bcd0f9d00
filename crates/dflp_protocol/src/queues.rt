//! The rows of queues at each processor.

ghost use Rattle.std.specs.Prelude.{◌≡◌, ◌<◌, ◌+◌, [], ◌∷◌, map, length, OnOk};
ghost use Rattle.blocking_columns.specs.ColumnDef.{column_seen};
ghost use Rattle.fragments.specs.Constraints.{per};
ghost use Rattle.dflp_laws.specs.Programs.{home_queue_row};
ghost use Rattle.blocking_columns.specs.Given.{AreLaidOut};
ghost use Rattle.dflp_protocol.specs.Queues.{home_queue_rows, IsQueueWith};

use fragments::{
    Constraint, Fragment, PerNumber, PerTask, RowKind, RowTaker, TaskPlace, add_per_number,
    add_per_task, add_row_within, home, requests_at,
};
use sporadic_model::{TaskId, TaskSet};
use std::alloc::{AllocError, Global};

/// Of a task and a processor: each request of the analysed task that runs there waits for at most one request of the task.
#[derive(Drop)]
struct HomeQueueRow {
    task: TaskId,
    processor: u32,
}

impl RowKind for HomeQueueRow {
    ghost row_of = { λ k set i. home_queue_row set i k.task.0 k.processor };

    ghost fits = { λ k set. k.task.0 < length set.tasks };

    ghost over = { λ k set i c. c.task ≡ k.task.0 };

    fn coefficient(&self, set: &TaskSet, _i: TaskId, column: Fragment) -> u64 {
        if !column.class.is_preemption() && home(set, column.resource) == self.processor {
            1
        } else {
            0
        }
    }
}

impl Constraint for HomeQueueRow {
    fn limit(&self, set: &TaskSet, i: TaskId, _bounds: &[u64]) -> u64 {
        requests_at(set, i, self.processor)
    }
}

/// The rows of the queues with one task, at each processor. The stretch has the task's columns.
#[derive(Drop)]
struct QueuesWith {
    task: TaskId,
    stretch: (usize, usize),
}

impl PerNumber for QueuesWith {
    ghost rows_of = { λ k set i n. home_queue_row set i k.task.0 (n + 1) ∷ [] };

    ghost fits = { λ k set i columns n. IsQueueWith set i k.task.0 n columns k.stretch.0 k.stretch.1 };

    fn add<T: RowTaker>(
        &self,
        alloc: Global,
        taker: &mut T,
        set: &TaskSet,
        i: TaskId,
        number: u32,
        bounds: &[u64],
        columns: &[Fragment],
    ) -> Result<(), AllocError> {
        // processors are numbered from 1, and a set has few
        let _processors = set.processors();
        let row = HomeQueueRow {
            task: self.task,
            processor: number + 1,
        };
        add_row_within(alloc, taker, &row, set, i, bounds, columns, self.stretch)
    }
}

/// The rows of the queues with each task.
#[derive(Drop)]
struct Queues;

impl PerTask for Queues {
    ghost rows_of = { λ k set i x. per set.processors (λ n. home_queue_row set i x (n + 1)) };

    fn add<T: RowTaker>(
        &self,
        alloc: Global,
        taker: &mut T,
        set: &TaskSet,
        i: TaskId,
        x: TaskId,
        _jobs: u64,
        bounds: &[u64],
        columns: &[Fragment],
        stretch: (usize, usize),
    ) -> Result<(), AllocError> {
        // a set has at most 32 resources, so the slots of a task end before those of the next one
        let _resources = set.resources();
        let queues = QueuesWith { task: x, stretch };
        let processors = set.processors();
        add_per_number(alloc, taker, &queues, set, processors, i, bounds, columns)
    }
}

/// Adds the rows of the queues with each task at each processor behind those that the taker has, over any columns in order.
pub(crate) fn add_queues<T: RowTaker>(
    alloc: Global,
    taker: &mut T,
    set: &TaskSet,
    i: TaskId,
    bounds: &[u64],
    columns: &[Fragment],
    places: &[TaskPlace],
) -> Result<(), AllocError>
    requires { AreLaidOut set.now bounds.now i.0 columns.now places.now }
    ensures { OnOk result (T.takes taker.old (map column_seen columns.now) (home_queue_rows set.now i.0) bounds.now taker.new) }
{
    add_per_task(alloc, taker, &Queues, set, i, bounds, columns, places)
}
