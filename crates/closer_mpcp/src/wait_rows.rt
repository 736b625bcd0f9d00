//! The rows of waits.

ghost use Rattle.std.specs.Prelude.{◌≡◌, ◌<◌, map, length, slice_index, OnOk};
ghost use Rattle.blocking_columns.specs.ColumnDef.{column_seen};
ghost use Rattle.mpcp_window_laws.specs.WaitRows.{direct_wait_row, wait_rows};
ghost use Rattle.closer_mpcp.specs.Given.{AreLaidOutWithWindows};
ghost use Rattle.closer_mpcp.specs.Windows.{AreWaitWindows};

use crate::waits::requests_in_waits;
use fragments::{
    Fragment, PerRequest, RowKind, RowTaker, TaskPlace, add_per_request_at, add_row_limited,
};
use sporadic_model::{ResourceId, TaskId, TaskSet};
use std::alloc::{AllocError, Global};

/// Of a task and a resource: the task's requests of it that block the analysed task directly run while the analysed task waits for it.
#[derive(Drop)]
struct DirectWaitRow {
    task: TaskId,
    resource: ResourceId,
}

impl RowKind for DirectWaitRow {
    ghost row_of = { λ k set i. direct_wait_row set i k.task.0 k.resource.0 };

    ghost fits = { λ k set. (k.task.0 < length set.tasks) × (k.resource.0 < length set.resources) };

    ghost over = { λ k set i c. (c.task ≡ k.task.0) × (c.resource ≡ k.resource.0) };

    fn coefficient(&self, _set: &TaskSet, _i: TaskId, column: Fragment) -> u64 {
        if column.class.is_direct() { 1 } else { 0 }
    }
}

/// The rows of direct waits of each task and each resource, with the windows of the analysed task's requests.
#[derive(Drop)]
struct DirectWaitRows<'a> {
    windows: &'a [Option<u64>],
}

impl<'a> PerRequest for DirectWaitRows<'a> {
    ghost use Rattle.std.proofs.Common.{refl};

    ghost row_of = { λ k. direct_wait_row };

    ghost apart = { λ k set i x q c other. rw other refl };

    ghost fits = { λ k set i bounds. AreWaitWindows set (slice_index bounds) i k.windows.now };

    fn add<T: RowTaker>(
        &self,
        alloc: Global,
        taker: &mut T,
        set: &TaskSet,
        i: TaskId,
        x: TaskId,
        q: ResourceId,
        _jobs: u64,
        bounds: &[u64],
        columns: &[Fragment],
        stretch: (usize, usize),
    ) -> Result<(), AllocError> {
        // a set has at most 32 resources, so the slots of a task end before those of the next one
        let _resources = set.resources();
        let row = DirectWaitRow {
            task: x,
            resource: q,
        };
        let most = requests_in_waits(set, i, x, q, bounds, self.windows);
        add_row_limited(alloc, taker, &row, set, i, bounds, columns, stretch, most)
    }
}

/// Adds the rows of waits behind those that the taker has, over any columns that stand in order. There is one for each higher task and each
/// resource.
pub(crate) fn add_wait_rows<T: RowTaker>(
    alloc: Global,
    taker: &mut T,
    set: &TaskSet,
    i: TaskId,
    bounds: &[u64],
    columns: &[Fragment],
    places: &[TaskPlace],
    windows: &[Option<u64>],
) -> Result<(), AllocError>
    requires { AreLaidOutWithWindows set.now bounds.now i.0 columns.now places.now windows.now }
    ensures { OnOk result (T.takes taker.old (map column_seen columns.now) (wait_rows set.now i.0) bounds.now taker.new) }
{
    let rows = DirectWaitRows { windows };
    add_per_request_at(alloc, taker, &rows, set, i.0, i, bounds, columns, places)
}
