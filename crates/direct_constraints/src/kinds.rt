//! The kinds of rows. Each gives its row for every task, request or resource.

ghost use Rattle.std.specs.Prelude.{◌<◌, ◌+◌, ◌&&◌, [], ◌∷◌, length};
ghost use Rattle.std.proofs.Common.{ap};
ghost use Rattle.number_laws.specs.Sums.{flag, only_if};
ghost use Rattle.sporadic_model.specs.Users.{length_of};
ghost use Rattle.blocking_columns.specs.declared.columns.Class.TheVariants.{Direct};
ghost use Rattle.blocking_columns.specs.ColumnDef.{is_class};
ghost use Rattle.blocking_columns.specs.Stretches.{slot, BeginsAt};
ghost use Rattle.direct_constraints.specs.Asked.{AreAskedFor};
ghost use Rattle.direct_constraints.specs.Rows.{request_row, time_row, turn_row, lower_holder_row};

use fragments::{
    Constraint, Fragment, PerNumber, RequestRow, RowKind, RowTaker, TaskRow, add_row_within, uses,
};
use sporadic_model::{ResourceId, TaskId, TaskSet};
use std::alloc::{AllocError, Global};

/// Of a task and a resource: the task's requests of it, in all classes, are at most as many as the task makes while a job of the analysed
/// task runs.
#[derive(Drop)]
pub(crate) struct Requests;

impl RequestRow for Requests {
    ghost row_of = { λ k. request_row };

    ghost alone = { λ k set i x q c other. ap flag other };

    fn coefficient(
        &self,
        _set: &TaskSet,
        _i: TaskId,
        _x: TaskId,
        _q: ResourceId,
        _column: Fragment,
    ) -> u64 {
        1
    }

    fn limit(
        &self,
        set: &TaskSet,
        _i: TaskId,
        x: TaskId,
        q: ResourceId,
        jobs: u64,
        _bounds: &[u64],
    ) -> u64 {
        set.count(x, q) * jobs
    }
}

/// Of a task: its requests take no longer than its jobs may execute while a job of the analysed task runs.
#[derive(Drop)]
pub(crate) struct Times;

impl TaskRow for Times {
    ghost row_of = { λ k. time_row };

    ghost alone = { λ k set i x c other. ap (λ b. only_if b (length_of set x c.resource)) other };

    fn coefficient(&self, set: &TaskSet, _i: TaskId, x: TaskId, column: Fragment) -> u64 {
        set.length(x, column.resource)
    }

    fn limit(&self, set: &TaskSet, _i: TaskId, x: TaskId, jobs: u64, _bounds: &[u64]) -> u64 {
        set.cost(x) * jobs
    }
}

/// Of a task and a resource: each request of the resource by the analysed task waits for at most one request of the task.
#[derive(Drop)]
pub(crate) struct Turns;

impl RequestRow for Turns {
    ghost row_of = { λ k. turn_row };

    ghost alone = { λ k set i x q c other. ap (λ b. flag (b && is_class Direct c.class)) other };

    fn coefficient(
        &self,
        _set: &TaskSet,
        _i: TaskId,
        _x: TaskId,
        _q: ResourceId,
        column: Fragment,
    ) -> u64 {
        if column.class.is_direct() { 1 } else { 0 }
    }

    fn limit(
        &self,
        set: &TaskSet,
        i: TaskId,
        _x: TaskId,
        q: ResourceId,
        _jobs: u64,
        _bounds: &[u64],
    ) -> u64 {
        set.count(i, q)
    }
}

/// Of a resource: each request of it by the analysed task waits for at most one request of a lower task.
#[derive(Drop)]
struct LowerHolderRow {
    resource: ResourceId,
}

impl RowKind for LowerHolderRow {
    ghost row_of = { λ k set i. lower_holder_row set i k.resource.0 };

    ghost fits = { λ k set. k.resource.0 < length set.resources };

    ghost over = { λ k set i c. i < c.task };

    fn coefficient(&self, _set: &TaskSet, _i: TaskId, column: Fragment) -> u64 {
        if column.class.is_direct() && column.resource == self.resource {
            1
        } else {
            0
        }
    }
}

impl Constraint for LowerHolderRow {
    fn limit(&self, set: &TaskSet, i: TaskId, _bounds: &[u64]) -> u64 {
        set.count(i, self.resource)
    }
}

/// The rows of lower holders of each resource. If the analysed task doesn't use the resource, no column is in its row.
#[derive(Drop)]
pub(crate) struct LowerHolders {
    /// Where the columns of tasks lower than the analysed one begin.
    pub(crate) from: usize,
}

impl PerNumber for LowerHolders {
    ghost rows_of = { λ k set i q. lower_holder_row set i q ∷ [] };

    ghost fits = { λ k set i columns q. (q < length set.resources) × AreAskedFor set i columns × BeginsAt (slot (i + 1) 0) columns k.from };

    fn add<T: RowTaker>(
        &self,
        alloc: Global,
        taker: &mut T,
        set: &TaskSet,
        i: TaskId,
        number: u32,
        bounds: &[u64],
        columns: &[Fragment],
    ) -> Result<(), AllocError> {
        // a set has at most 32 resources, so the slots of a task end before those of the next one
        let _resources = set.resources();
        let resource = ResourceId(number);
        if !uses(set, i, resource) {
            return Ok(());
        }
        let row = LowerHolderRow { resource };
        let lower = (self.from, columns.len());
        add_row_within(alloc, taker, &row, set, i, bounds, columns, lower)
    }
}
