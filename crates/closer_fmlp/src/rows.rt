//! The closer rows.

ghost use Rattle.std.specs.Prelude.{◌≡◌, ◌<◌, ◌+◌, ◌==◌, ◌&&◌, not, [], ◌∷◌, ◌++◌, map, length, OnOk, if◌then◌else◌};
ghost use Rattle.std.proofs.Common.{ap};
ghost use Rattle.number_laws.specs.Sums.{flag};
ghost use Rattle.blocking_columns.specs.declared.columns.Class.TheVariants.{Indirect, Preemption};
ghost use Rattle.blocking_columns.specs.ColumnDef.{column_seen, is_class};
ghost use Rattle.blocking_columns.specs.Columns.{is_lower_local};
ghost use Rattle.closer_laws.specs.CloserRows.{is_shared_out, requests_where, closer_rows};
ghost use Rattle.closer_laws.specs.CloserRows.{holder_row, other_holder_row, lower_row};
ghost use Rattle.closer_laws.specs.CloserRows.{local_wait_row, local_runner_row};
ghost use Rattle.shared_requests.specs.Held.{AreSharedOut, AreHeldUp};
ghost use Rattle.shared_requests.specs.declared.holders.Holders.TheVariants as holders;
ghost use Rattle.blocking_columns.specs.Given.{AreKnownAt, AreLaidOut};
ghost use Rattle.closer_fmlp.specs.Given.{AreSharedLaidOut};
ghost use Rattle.closer_fmlp.specs.Rows.{holder_rows, other_holder_rows, lower_rows, local_rows};

use fragments::{
    Constraint, EachTask, Fragment, PerRequest, PerTask, RowKind, RowTaker, TaskPlace, TaskRow,
    add_per_lower_task, add_per_request_at, add_per_task, add_row, add_row_limited,
    add_row_of_task, lower_local,
};
use shared_requests::{
    Holders, LocalPreemptionRow, held_up, held_up_of, is_shared_out, requests_shared_out,
    shared_out,
};
use sporadic_model::{ResourceId, TaskId, TaskSet};
use std::alloc::{AllocError, Global};

/// Of a task: each request of the analysed task that its processor may hold up waits for at most one of the task's.
#[derive(Drop)]
struct HolderRow {
    /// By task, how many requests of the analysed task may its processor hold up?
    counts: Vec<u64>,
}

impl TaskRow for HolderRow {
    ghost row_of = { λ k. holder_row };

    ghost fits = { λ k set i bounds. AreHeldUp holders.There set i k.counts.items };

    ghost alone = { λ k set i x c other. ap (λ b. flag (b && not (is_class Preemption c.class))) other };

    fn coefficient(&self, _set: &TaskSet, _i: TaskId, _x: TaskId, column: Fragment) -> u64 {
        if column.class.is_preemption() { 0 } else { 1 }
    }

    fn limit(&self, _set: &TaskSet, _i: TaskId, x: TaskId, _jobs: u64, _bounds: &[u64]) -> u64 {
        self.counts[x.0 as usize]
    }
}

/// Of a task and a resource: each request of the analysed task, of another resource, that another task of its processor may hold up
/// waits for at most one of these.
#[derive(Drop)]
struct OtherHolderRow {
    task: TaskId,
    resource: ResourceId,
}

impl RowKind for OtherHolderRow {
    ghost row_of = { λ k set i. other_holder_row set i k.task.0 k.resource.0 };

    ghost fits = { λ k set. (k.task.0 < length set.tasks) × (k.resource.0 < length set.resources) };

    ghost over = { λ k set i c. (c.task ≡ k.task.0) × (c.resource ≡ k.resource.0) };

    fn coefficient(&self, _set: &TaskSet, _i: TaskId, column: Fragment) -> u64 {
        if column.class.is_indirect() { 1 } else { 0 }
    }
}

/// The rows of other holders of each task and each resource.
#[derive(Drop)]
struct OtherHolderRows<'a> {
    /// By task, how many requests of the analysed task may other tasks of its processor hold up?
    counts: Vec<u64>,
    /// By resource, is it shared out from the analysed task's processor?
    shared: &'a [bool],
}

impl<'a> PerRequest for OtherHolderRows<'a> {
    ghost use Rattle.std.proofs.Common.{refl};

    ghost row_of = { λ k. other_holder_row };

    ghost apart = { λ k set i x q c other. rw other refl };

    ghost fits = { λ k set i bounds. (AreHeldUp holders.Beside set i k.counts.items) × AreSharedOut set i k.shared.now };

    fn add<T: RowTaker>(
        &self,
        alloc: Global,
        taker: &mut T,
        set: &TaskSet,
        i: TaskId,
        x: TaskId,
        q: ResourceId,
        _jobs: u64,
        bounds: &[u64],
        columns: &[Fragment],
        stretch: (usize, usize),
    ) -> Result<(), AllocError> {
        // a set has at most 32 resources, so the slots of a task end before those of the next one
        let _resources = set.resources();
        let row = OtherHolderRow {
            task: x,
            resource: q,
        };
        let own = held_up_of(set, Holders::Beside, i, x, q, self.shared);
        let others = self.counts[x.0 as usize] - own;
        add_row_limited(alloc, taker, &row, set, i, bounds, columns, stretch, others)
    }
}

/// Of a task: from its release on, and behind each of its requests that is shared out, a job of the analysed task is blocked by at most
/// one of the task's requests.
#[derive(Drop)]
struct LowerRow {
    /// How many such intervals a job of the analysed task has.
    intervals: u64,
}

impl TaskRow for LowerRow {
    ghost row_of = { λ k. lower_row };

    ghost fits = { λ k set i bounds. k.intervals ≡ 1 + requests_where set i (is_shared_out set i) };

    ghost alone = { λ k set i x c other. ap flag other };

    fn coefficient(&self, _set: &TaskSet, _i: TaskId, _x: TaskId, _column: Fragment) -> u64 {
        1
    }

    fn limit(&self, _set: &TaskSet, _i: TaskId, _x: TaskId, _jobs: u64, _bounds: &[u64]) -> u64 {
        self.intervals
    }
}

/// The rows of lower tasks, one for each on the analysed task's processor.
#[derive(Drop)]
struct LowerRows(LowerRow);

impl PerTask for LowerRows {
    ghost rows_of = { λ k set i x. if is_lower_local set i x then lower_row set i x ∷ [] else [] };

    ghost fits = { λ k set i bounds. k.0.intervals ≡ 1 + requests_where set i (is_shared_out set i) };

    fn add<T: RowTaker>(
        &self,
        alloc: Global,
        taker: &mut T,
        set: &TaskSet,
        i: TaskId,
        x: TaskId,
        jobs: u64,
        bounds: &[u64],
        columns: &[Fragment],
        stretch: (usize, usize),
    ) -> Result<(), AllocError> {
        if !lower_local(set, i, x) {
            return Ok(());
        }
        add_row_of_task(
            alloc, taker, &self.0, set, i, x, jobs, bounds, columns, stretch,
        )
    }
}

/// No request of what only the analysed task's processor uses is waited for.
#[derive(Drop)]
struct LocalWaitRow;

impl RowKind for LocalWaitRow {
    ghost row_of = { λ k. local_wait_row };

    fn coefficient(&self, set: &TaskSet, i: TaskId, column: Fragment) -> u64 {
        if column.class.is_direct() && !is_shared_out(set, i, column.resource) {
            1
        } else {
            0
        }
    }
}

impl Constraint for LocalWaitRow {
    fn limit(&self, _set: &TaskSet, _i: TaskId, _bounds: &[u64]) -> u64 {
        0
    }
}

/// No request of what only its task's processor uses runs before what the analysed task waits for.
#[derive(Drop)]
struct LocalRunnerRow;

impl RowKind for LocalRunnerRow {
    ghost row_of = { λ k. local_runner_row };

    fn coefficient(&self, set: &TaskSet, _i: TaskId, column: Fragment) -> u64 {
        if column.class.is_indirect() && !is_shared_out(set, column.task, column.resource) {
            1
        } else {
            0
        }
    }
}

impl Constraint for LocalRunnerRow {
    fn limit(&self, _set: &TaskSet, _i: TaskId, _bounds: &[u64]) -> u64 {
        0
    }
}

// Adds the row of holders of each task.
fn add_holder_rows<T: RowTaker>(
    alloc: Global,
    taker: &mut T,
    set: &TaskSet,
    i: TaskId,
    bounds: &[u64],
    columns: &[Fragment],
    places: &[TaskPlace],
    shared: &[bool],
) -> Result<(), AllocError>
    requires { AreSharedLaidOut set.now bounds.now i.0 shared.now columns.now places.now }
    ensures { OnOk result (T.takes taker.old (map column_seen columns.now) (holder_rows set.now i.0) bounds.now taker.new) }
{
    let counts = held_up(alloc, set, Holders::There, i, shared)?;
    let rows = EachTask(HolderRow { counts });
    add_per_task(alloc, taker, &rows, set, i, bounds, columns, places)
}

// Adds the row of other holders of each task and each resource.
fn add_other_holder_rows<T: RowTaker>(
    alloc: Global,
    taker: &mut T,
    set: &TaskSet,
    i: TaskId,
    bounds: &[u64],
    columns: &[Fragment],
    places: &[TaskPlace],
    shared: &[bool],
) -> Result<(), AllocError>
    requires { AreSharedLaidOut set.now bounds.now i.0 shared.now columns.now places.now }
    ensures { OnOk result (T.takes taker.old (map column_seen columns.now) (other_holder_rows set.now i.0) bounds.now taker.new) }
{
    let counts = held_up(alloc, set, Holders::Beside, i, shared)?;
    let rows = OtherHolderRows { counts, shared };
    let tasks = set.tasks();
    add_per_request_at(alloc, taker, &rows, set, tasks, i, bounds, columns, places)
}

// Adds the row of each lower task of the analysed task's processor.
fn add_lower_rows<T: RowTaker>(
    alloc: Global,
    taker: &mut T,
    set: &TaskSet,
    i: TaskId,
    bounds: &[u64],
    columns: &[Fragment],
    places: &[TaskPlace],
    intervals: u64,
) -> Result<(), AllocError>
    requires columns { AreLaidOut set.now bounds.now i.0 columns.now places.now }
    requires intervals { intervals ≡ 1 + requests_where set.now i.0 (is_shared_out set.now i.0) }
    ensures { OnOk result (T.takes taker.old (map column_seen columns.now) (lower_rows set.now i.0) bounds.now taker.new) }
{
    let rows = LowerRows(LowerRow { intervals });
    add_per_lower_task(alloc, taker, &rows, set, i, bounds, columns, places)
}

// Adds the three rows of what only one processor's tasks use.
fn add_local_rows<T: RowTaker>(
    alloc: Global,
    taker: &mut T,
    set: &TaskSet,
    i: TaskId,
    bounds: &[u64],
    columns: &[Fragment],
    intervals: u64,
) -> Result<(), AllocError>
    requires columns { AreKnownAt set.now bounds.now i.0 columns.now }
    requires intervals { intervals ≡ 1 + requests_where set.now i.0 (is_shared_out set.now i.0) }
    ensures { OnOk result (T.takes taker.old (map column_seen columns.now) (local_rows set.now i.0) bounds.now taker.new) }
{
    let all = (0, columns.len());
    add_row_limited(
        alloc,
        taker,
        &LocalPreemptionRow,
        set,
        i,
        bounds,
        columns,
        all,
        intervals,
    )?;
    add_row(alloc, taker, &LocalWaitRow, set, i, bounds, columns)?;
    add_row(alloc, taker, &LocalRunnerRow, set, i, bounds, columns)?;
    Ok(())
}

/// Adds the closer rows, in their order, behind those that the taker has, over any columns that stand in order.
pub(crate) fn add_closer_rows<T: RowTaker>(
    alloc: Global,
    taker: &mut T,
    set: &TaskSet,
    i: TaskId,
    bounds: &[u64],
    columns: &[Fragment],
    places: &[TaskPlace],
) -> Result<(), AllocError>
    requires { AreLaidOut set.now bounds.now i.0 columns.now places.now }
    ensures { OnOk result (T.takes taker.old (map column_seen columns.now) (closer_rows set.now i.0) bounds.now taker.new) }
{
    let shared = shared_out(alloc, set, i)?;
    let intervals = 1 + requests_shared_out(set, i, &shared);
    add_holder_rows(alloc, taker, set, i, bounds, columns, places, &shared)?;
    add_other_holder_rows(alloc, taker, set, i, bounds, columns, places, &shared)?;
    add_lower_rows(alloc, taker, set, i, bounds, columns, places, intervals)?;
    add_local_rows(alloc, taker, set, i, bounds, columns, intervals)?;
    Ok(())
}
