//! The rows of windows.

ghost use Rattle.std.specs.Prelude.{◌≡◌, ◌<◌, map, length, slice_index, OnOk};
ghost use Rattle.blocking_columns.specs.ColumnDef.{column_seen};
ghost use Rattle.window_laws.specs.WindowRows.{window_row, window_rows};
ghost use Rattle.request_windows.specs.Windows.{AreWindows};
ghost use Rattle.request_windows.specs.Given.{AreServedAndLaidOut};

use crate::kept::windows_of;
use crate::limits::{Meeting, limit};
use fragments::{
    Fragment, PerRequest, RowKind, RowTaker, TaskPlace, add_per_request_at, add_row_limited,
};
use sporadic_model::{ResourceId, TaskId, TaskSet};
use std::alloc::{AllocError, Global};

/// Of a task and a resource: the task's requests of it for which the analysed task waits run within the windows of the analysed task's own
/// requests.
#[derive(Drop)]
struct WindowRow {
    task: TaskId,
    resource: ResourceId,
}

impl RowKind for WindowRow {
    ghost row_of = { λ k set i. window_row set i k.task.0 k.resource.0 };

    ghost fits = { λ k set. (k.task.0 < length set.tasks) × (k.resource.0 < length set.resources) };

    ghost over = { λ k set i c. (c.task ≡ k.task.0) × (c.resource ≡ k.resource.0) };

    fn coefficient(&self, _set: &TaskSet, _i: TaskId, column: Fragment) -> u64 {
        if column.class.is_preemption() { 0 } else { 1 }
    }
}

/// The rows of windows of each task and each resource. They have the windows of the analysed task's requests, for each resource.
#[derive(Drop)]
struct WindowRows {
    windows: Vec<Option<u64>>,
}

impl PerRequest for WindowRows {
    ghost use Rattle.std.proofs.Common.{refl};

    ghost row_of = { λ k set i x q. window_row set i x q };

    ghost apart = { λ k set i x q c other. rw other refl };

    ghost fits = { λ k set i bounds. AreWindows set (slice_index bounds) i k.windows.items };

    fn add<T: RowTaker>(
        &self,
        alloc: Global,
        taker: &mut T,
        set: &TaskSet,
        i: TaskId,
        x: TaskId,
        q: ResourceId,
        jobs: u64,
        bounds: &[u64],
        columns: &[Fragment],
        stretch: (usize, usize),
    ) -> Result<(), AllocError> {
        // a set has at most 32 resources, so the slots of a task end before those of the next one
        let _resources = set.resources();
        let row = WindowRow {
            task: x,
            resource: q,
        };
        let meeting = Meeting {
            set,
            i,
            x,
            r: q,
            bounds,
            windows: &self.windows,
        };
        let most = limit(&meeting, jobs);
        add_row_limited(alloc, taker, &row, set, i, bounds, columns, stretch, most)
    }
}

/// Adds the rows of windows behind those that the taker has, over any columns in order. There is one for each higher task and each
/// resource.
pub(crate) fn add_window_rows<T: RowTaker>(
    alloc: Global,
    taker: &mut T,
    set: &TaskSet,
    i: TaskId,
    bounds: &[u64],
    columns: &[Fragment],
    places: &[TaskPlace],
) -> Result<(), AllocError>
    requires { AreServedAndLaidOut set.now bounds.now i.0 columns.now places.now }
    ensures { OnOk result (T.takes taker.old (map column_seen columns.now) (window_rows set.now i.0) bounds.now taker.new) }
{
    let windows = windows_of(alloc, set, i, bounds)?;
    let rows = WindowRows { windows };
    add_per_request_at(alloc, taker, &rows, set, i.0, i, bounds, columns, places)
}
