//! The closer rows.

ghost use Rattle.std.specs.Prelude.{◌≡◌, ◌<◌, ◌≤◌, ◌+◌, ◌&&◌, not, false, [], ◌∷◌, map, length, slice_index, OnOk, if◌then◌else◌};
ghost use Rattle.std.specs.List.{AllWithin};
ghost use Rattle.std.proofs.Common.{ap};
ghost use Rattle.number_laws.specs.Sums.{flag};
ghost use Rattle.blocking_columns.specs.declared.columns.Class.TheVariants.{Indirect, Preemption};
ghost use Rattle.blocking_columns.specs.ColumnDef.{column_seen, is_class};
ghost use Rattle.blocking_columns.specs.Given.{AreKnownAt, AreLaidOut};
ghost use Rattle.blocking_columns.specs.Columns.{is_lower_local};
ghost use Rattle.closer_laws.specs.CloserRows.{is_shared_out, requests_where};
ghost use Rattle.closer_mpcp_laws.specs.CloserMpcpRows.{shared_holding_row, resource_holding_row, away_row};
ghost use Rattle.closer_mpcp_laws.specs.CloserMpcpRows.{shared_interval_row, lower_wait_row};
ghost use Rattle.mpcp_window_laws.specs.WaitRows.{held_in_waits};
ghost use Rattle.closer_mpcp.specs.Given.{AreLaidOutWithWindows};
ghost use Rattle.closer_mpcp.specs.Rows.{holding_rows, interval_rows, single_rows, rows_below_waits, closer_rows};
ghost use Rattle.closer_mpcp.specs.Tables.{AreHeldBesideEach, AreAwayTables};

use crate::held::{HeldBesideTasks, held_beside_each};
use crate::holdings::{run_beside_away_holdings, shared_holdings, sums_in_bound};
use crate::lower::lower_sums_of_used;
use crate::sums::Sums;
use crate::wait_rows::add_wait_rows;
use crate::windows::wait_windows;
use fragments::{
    Constraint, EachTask, Fragment, PerRequest, PerTask, RowKind, RowTaker, TaskPlace, TaskRow,
    add_per_lower_task, add_per_request_at, add_per_task, add_row, add_row_limited,
    add_row_of_task, lower_local,
};
use shared_requests::{LocalPreemptionRow, requests_shared_out, shared_out};
use sporadic_model::{ResourceId, TaskId, TaskSet};
use std::alloc::{AllocError, Global};

// Is some column of the stretch one of indirect blocking?
fn has_indirect(columns: &[Fragment], stretch: (usize, usize)) -> bool
    requires { stretch.1 ≤ length columns.now }
    ensures { result ≡ false → AllWithin (λ c. is_class Indirect (column_seen c).class ≡ false) columns.now stretch.0 stretch.1 }
{
    let (from, to) = stretch;
    for place in from..to {
        if columns[place].class.is_indirect() {
            return true;
        }
    }
    false
}

/// Of a task: in each holding of another task on its processor that is shared out, before which it may run a request, it runs at most one.
/// Higher tasks hold within the windows of the analysed task's waits.
#[derive(Drop)]
struct SharedHoldingRow {
    task: TaskId,
}

impl RowKind for SharedHoldingRow {
    ghost row_of = { λ k set i. shared_holding_row set (held_in_waits set i) i k.task.0 };

    ghost fits = { λ k set. k.task.0 < length set.tasks };

    ghost over = { λ k set i c. c.task ≡ k.task.0 };

    fn coefficient(&self, _set: &TaskSet, _i: TaskId, column: Fragment) -> u64 {
        if column.class.is_indirect() { 1 } else { 0 }
    }
}

/// The rows of shared holdings of each task, with what can be held beside each.
#[derive(Drop)]
struct SharedHoldingRows<'a> {
    held: &'a HeldBesideTasks,
}

impl<'a> PerTask for SharedHoldingRows<'a> {
    ghost rows_of = { λ k set i x. shared_holding_row set (held_in_waits set i) i x ∷ [] };

    ghost fits = { λ k set i bounds. AreHeldBesideEach set (slice_index bounds) i k.held.now.requests.items };

    fn add<T: RowTaker>(
        &self,
        alloc: Global,
        taker: &mut T,
        set: &TaskSet,
        i: TaskId,
        x: TaskId,
        _jobs: u64,
        bounds: &[u64],
        columns: &[Fragment],
        stretch: (usize, usize),
    ) -> Result<(), AllocError> {
        // a set has at most 32 resources, so the slots of a task end before those of the next one
        let _resources = set.resources();
        // a row without columns needs no limit
        if !has_indirect(columns, stretch) {
            return Ok(());
        }
        let row = SharedHoldingRow { task: x };
        let most = shared_holdings(set, i, x, None, bounds, self.held);
        add_row_limited(alloc, taker, &row, set, i, bounds, columns, stretch, most)
    }
}

/// Of a task and a resource: in each such holding, before which it may run its request of the resource, it runs at most one of these.
#[derive(Drop)]
struct ResourceHoldingRow {
    task: TaskId,
    resource: ResourceId,
}

impl RowKind for ResourceHoldingRow {
    ghost row_of = { λ k set i. resource_holding_row set (held_in_waits set i) i k.task.0 k.resource.0 };

    ghost fits = { λ k set. (k.task.0 < length set.tasks) × (k.resource.0 < length set.resources) };

    ghost over = { λ k set i c. (c.task ≡ k.task.0) × (c.resource ≡ k.resource.0) };

    fn coefficient(&self, _set: &TaskSet, _i: TaskId, column: Fragment) -> u64 {
        if column.class.is_indirect() { 1 } else { 0 }
    }
}

/// The rows of holdings by resource, of each task and each resource, with the same.
#[derive(Drop)]
struct ResourceHoldingRows<'a> {
    held: &'a HeldBesideTasks,
}

impl<'a> PerRequest for ResourceHoldingRows<'a> {
    ghost use Rattle.std.proofs.Common.{refl};

    ghost row_of = { λ k set i x q. resource_holding_row set (held_in_waits set i) i x q };

    ghost apart = { λ k set i x q c other. rw other refl };

    ghost fits = { λ k set i bounds. AreHeldBesideEach set (slice_index bounds) i k.held.now.requests.items };

    fn add<T: RowTaker>(
        &self,
        alloc: Global,
        taker: &mut T,
        set: &TaskSet,
        i: TaskId,
        x: TaskId,
        q: ResourceId,
        _jobs: u64,
        bounds: &[u64],
        columns: &[Fragment],
        stretch: (usize, usize),
    ) -> Result<(), AllocError> {
        // a set has at most 32 resources, so the slots of a task end before those of the next one
        let _resources = set.resources();
        // a row without columns needs no limit
        if !has_indirect(columns, stretch) {
            return Ok(());
        }
        let row = ResourceHoldingRow {
            task: x,
            resource: q,
        };
        let most = shared_holdings(set, i, x, Some(q), bounds, self.held);
        add_row_limited(alloc, taker, &row, set, i, bounds, columns, stretch, most)
    }
}

/// Of a task: while the analysed task waits for a request that is held on the task's processor, it runs at most one request, and one more for
/// each time that it is held away from there before.
#[derive(Drop)]
struct AwayRow<'a> {
    /// By resource, whether it is shared out from the analysed task's processor.
    shared: &'a [bool],
    /// How many requests higher tasks make, of each resource that the analysed task requests.
    sums: &'a [Sums],
    /// And one job of each lower task.
    lower: &'a [Sums],
}

impl<'a> TaskRow for AwayRow<'a> {
    ghost row_of = { λ k. away_row };

    ghost fits = { λ k set i bounds. AreAwayTables set bounds i k.shared.now k.sums.now k.lower.now };

    ghost alone = { λ k set i x c other. ap (λ b. flag (b && not (is_class Preemption c.class))) other };

    fn coefficient(&self, _set: &TaskSet, _i: TaskId, _x: TaskId, column: Fragment) -> u64 {
        if column.class.is_preemption() { 0 } else { 1 }
    }

    fn limit(&self, set: &TaskSet, i: TaskId, x: TaskId, _jobs: u64, bounds: &[u64]) -> u64 {
        run_beside_away_holdings(set, i, x, self.shared, self.sums, self.lower, bounds)
    }
}

/// Of a task: from its release on, and behind each of its requests that is shared out, a job of the analysed task is preempted by at most
/// one of the task's requests.
#[derive(Drop)]
struct SharedIntervalRow {
    /// How many such intervals a job of the analysed task has.
    intervals: u64,
}

impl TaskRow for SharedIntervalRow {
    ghost row_of = { λ k. shared_interval_row };

    ghost fits = { λ k set i bounds. k.intervals ≡ 1 + requests_where set i (is_shared_out set i) };

    ghost alone = { λ k set i x c other. ap (λ b. flag (b && is_class Preemption c.class)) other };

    fn coefficient(&self, _set: &TaskSet, _i: TaskId, _x: TaskId, column: Fragment) -> u64 {
        if column.class.is_preemption() { 1 } else { 0 }
    }

    fn limit(&self, _set: &TaskSet, _i: TaskId, _x: TaskId, _jobs: u64, _bounds: &[u64]) -> u64 {
        self.intervals
    }
}

/// The rows of shared intervals, one for each lower task on the analysed task's processor.
#[derive(Drop)]
struct SharedIntervalRows(SharedIntervalRow);

impl PerTask for SharedIntervalRows {
    ghost rows_of = { λ k set i x. if is_lower_local set i x then shared_interval_row set i x ∷ [] else [] };

    ghost fits = { λ k set i bounds. k.0.intervals ≡ 1 + requests_where set i (is_shared_out set i) };

    fn add<T: RowTaker>(
        &self,
        alloc: Global,
        taker: &mut T,
        set: &TaskSet,
        i: TaskId,
        x: TaskId,
        jobs: u64,
        bounds: &[u64],
        columns: &[Fragment],
        stretch: (usize, usize),
    ) -> Result<(), AllocError> {
        if !lower_local(set, i, x) {
            return Ok(());
        }
        add_row_of_task(
            alloc, taker, &self.0, set, i, x, jobs, bounds, columns, stretch,
        )
    }
}

/// No request of a lower task of the analysed task's processor is waited for.
#[derive(Drop)]
struct LowerWaitRow;

impl RowKind for LowerWaitRow {
    ghost row_of = { λ k. lower_wait_row };

    fn coefficient(&self, set: &TaskSet, i: TaskId, column: Fragment) -> u64 {
        if column.class.is_direct() && lower_local(set, i, column.task) {
            1
        } else {
            0
        }
    }
}

impl Constraint for LowerWaitRow {
    fn limit(&self, _set: &TaskSet, _i: TaskId, _bounds: &[u64]) -> u64 {
        0
    }
}

// Adds the rows of shared holdings, of each task and of each task and resource.
fn add_holding_rows<T: RowTaker>(
    alloc: Global,
    taker: &mut T,
    set: &TaskSet,
    i: TaskId,
    bounds: &[u64],
    columns: &[Fragment],
    places: &[TaskPlace],
    held: &HeldBesideTasks,
) -> Result<(), AllocError>
    requires columns { AreLaidOut set.now bounds.now i.0 columns.now places.now }
    requires held { AreHeldBesideEach set.now (slice_index bounds.now) i.0 held.now.requests.items }
    ensures { OnOk result (T.takes taker.old (map column_seen columns.now) (holding_rows set.now i.0) bounds.now taker.new) }
{
    let of_tasks = SharedHoldingRows { held };
    add_per_task(alloc, taker, &of_tasks, set, i, bounds, columns, places)?;
    let of_requests = ResourceHoldingRows { held };
    let tasks = set.tasks();
    add_per_request_at(
        alloc,
        taker,
        &of_requests,
        set,
        tasks,
        i,
        bounds,
        columns,
        places,
    )?;
    Ok(())
}

// Adds the row of shared intervals of each lower task of the analysed task's processor.
fn add_interval_rows<T: RowTaker>(
    alloc: Global,
    taker: &mut T,
    set: &TaskSet,
    i: TaskId,
    bounds: &[u64],
    columns: &[Fragment],
    places: &[TaskPlace],
    intervals: u64,
) -> Result<(), AllocError>
    requires columns { AreLaidOut set.now bounds.now i.0 columns.now places.now }
    requires intervals { intervals ≡ 1 + requests_where set.now i.0 (is_shared_out set.now i.0) }
    ensures { OnOk result (T.takes taker.old (map column_seen columns.now) (interval_rows set.now i.0) bounds.now taker.new) }
{
    let rows = SharedIntervalRows(SharedIntervalRow { intervals });
    add_per_lower_task(alloc, taker, &rows, set, i, bounds, columns, places)
}

// Adds the rows of local preemption and of lower waits.
fn add_single_rows<T: RowTaker>(
    alloc: Global,
    taker: &mut T,
    set: &TaskSet,
    i: TaskId,
    bounds: &[u64],
    columns: &[Fragment],
    intervals: u64,
) -> Result<(), AllocError>
    requires columns { AreKnownAt set.now bounds.now i.0 columns.now }
    requires intervals { intervals ≡ 1 + requests_where set.now i.0 (is_shared_out set.now i.0) }
    ensures { OnOk result (T.takes taker.old (map column_seen columns.now) (single_rows set.now i.0) bounds.now taker.new) }
{
    let all = (0, columns.len());
    add_row_limited(
        alloc,
        taker,
        &LocalPreemptionRow,
        set,
        i,
        bounds,
        columns,
        all,
        intervals,
    )?;
    add_row(alloc, taker, &LowerWaitRow, set, i, bounds, columns)?;
    Ok(())
}

// Adds the rows below those of waits, in their order.
fn add_further_rows<T: RowTaker>(
    alloc: Global,
    taker: &mut T,
    set: &TaskSet,
    i: TaskId,
    bounds: &[u64],
    columns: &[Fragment],
    places: &[TaskPlace],
    windows: &[Option<u64>],
) -> Result<(), AllocError>
    requires { AreLaidOutWithWindows set.now bounds.now i.0 columns.now places.now windows.now }
    ensures { OnOk result (T.takes taker.old (map column_seen columns.now) (rows_below_waits set.now i.0) bounds.now taker.new) }
{
    let shared = shared_out(alloc, set, i)?;
    let intervals = 1 + requests_shared_out(set, i, &shared);
    let lower = lower_sums_of_used(alloc, set, i)?;
    let held = held_beside_each(alloc, set, i, &shared, bounds, windows, &lower)?;
    add_holding_rows(alloc, taker, set, i, bounds, columns, places, &held)?;
    let sums = sums_in_bound(alloc, set, i, bounds)?;
    let of_away = EachTask(AwayRow {
        shared: &shared,
        sums: &sums,
        lower: &lower,
    });
    add_per_task(alloc, taker, &of_away, set, i, bounds, columns, places)?;
    add_interval_rows(alloc, taker, set, i, bounds, columns, places, intervals)?;
    add_single_rows(alloc, taker, set, i, bounds, columns, intervals)?;
    Ok(())
}

/// Adds the closer rows, and behind them the rows of waits, behind those that the taker has, over any columns that stand in order.
pub(crate) fn add_closer_rows<T: RowTaker>(
    alloc: Global,
    taker: &mut T,
    set: &TaskSet,
    i: TaskId,
    bounds: &[u64],
    columns: &[Fragment],
    places: &[TaskPlace],
) -> Result<(), AllocError>
    requires { AreLaidOut set.now bounds.now i.0 columns.now places.now }
    ensures { OnOk result (T.takes taker.old (map column_seen columns.now) (closer_rows set.now i.0) bounds.now taker.new) }
{
    let windows = wait_windows(alloc, set, i, bounds)?;
    add_further_rows(alloc, taker, set, i, bounds, columns, places, &windows)?;
    add_wait_rows(alloc, taker, set, i, bounds, columns, places, &windows)?;
    Ok(())
}
