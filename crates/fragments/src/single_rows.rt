//! Kinds of rows that have one row for each task, or one for each task and resource, over its own columns alone.

ghost use Rattle.std.specs.Prelude.{◌≡◌, ℕ, ◌<◌, ◌==◌, ◌&&◌, List, [], ◌∷◌, map, length, OnOk, slice_index};
ghost use Rattle.sporadic_model.specs.SetDef.{SetDef};
ghost use Rattle.blocking_columns.specs.ColumnDef.{column_seen};
ghost use Rattle.fragments.specs.Constraints.{ConstraintDef, CountsOnly};
ghost use Rattle.fragments.specs.Given.{IsColumnOfTask, IsColumnOfRequests, AreJobsOf, AreColumnsOfTask};

use crate::constraints::{RowKind, add_row_limited};
use crate::taking::RowTaker;
use crate::walks::{PerRequest, PerTask};
use blocking_columns::Fragment;
use sporadic_model::{ResourceId, TaskId, TaskSet};
use std::alloc::{AllocError, Global};

/// A kind of rows with one row for each task.
pub trait TaskRow {
    /// The row of a task, for a set and the analysed task.
    ghost row_of: { Self → SetDef → ℕ → ℕ → ConstraintDef };

    /// Do the further numbers that the rows are made of belong to the set and the analysed task at these bounds? Where there are none, a
    /// kind leaves this out.
    ghost fits: { Self → SetDef → ℕ → List ℕ → Type 0 } = { λ k set i bounds. Unit {0} };

    /// The coefficient of a column of task `x` in that task's row.
    fn coefficient(&self, set: &TaskSet, i: TaskId, x: TaskId, column: Fragment) -> u64
        requires column { IsColumnOfTask set.now i.0 x.0 column }
        ensures { result ≡ (row_of self.now set.now i.0 x.0).coefficient (column_seen column) };

    /// The limit of that row's sum at these bounds, where `jobs` jobs of `x` can run within the bound of a job of `i`.
    fn limit(&self, set: &TaskSet, i: TaskId, x: TaskId, jobs: u64, bounds: &[u64]) -> u64
        requires fits { fits self.now set.now i.0 bounds.now }
        requires counted { AreJobsOf set.now bounds.now i.0 x.0 jobs }
        ensures { result ≡ (row_of self.now set.now i.0 x.0).limit (slice_index bounds.now) };

    /// A column of another task has coefficient zero in it.
    ghost alone: { (k : Self) (set : SetDef) (i x : ℕ) → CountsOnly (λ c. c.task == x) (row_of k set i x) };
}

/// The row of one task.
#[derive(Drop)]
struct RowOfTask<'a, K> {
    kind: &'a K,
    task: TaskId,
}

impl<'a, K: TaskRow> RowKind for RowOfTask<'a, K> {
    ghost row_of = { λ r set i. K.row_of r.kind.now set i r.task.0 };

    ghost fits = { λ r set. r.task.0 < length set.tasks };

    ghost over = { λ r set i c. c.task ≡ r.task.0 };

    fn coefficient(&self, set: &TaskSet, i: TaskId, column: Fragment) -> u64 {
        self.kind.coefficient(set, i, self.task, column)
    }
}

/// Adds the row of task `x` to what the taker has, if some column has a coefficient above zero in it. The columns of `x` are those of
/// the stretch. `jobs` jobs of `x` can run within the bound of a job of `i`.
pub fn add_row_of_task<T: RowTaker, K: TaskRow>(
    alloc: Global,
    taker: &mut T,
    kind: &K,
    set: &TaskSet,
    i: TaskId,
    x: TaskId,
    jobs: u64,
    bounds: &[u64],
    columns: &[Fragment],
    stretch: (usize, usize),
) -> Result<(), AllocError>
    requires fits { K.fits kind.now set.now i.0 bounds.now }
    requires columns { AreColumnsOfTask set.now bounds.now i.0 x.0 jobs columns.now stretch.0 stretch.1 }
    ensures { OnOk result (T.takes taker.old (map column_seen columns.now) (K.row_of kind.now set.now i.0 x.0 ∷ []) bounds.now taker.new) }
{
    // a set has at most 32 resources, so the slots of a task end before those of the next one
    let _resources = set.resources();
    // a row without columns needs no limit
    if stretch.0 == stretch.1 {
        return Ok(());
    }
    let row = RowOfTask { kind, task: x };
    let limit = kind.limit(set, i, x, jobs, bounds);
    add_row_limited(alloc, taker, &row, set, i, bounds, columns, stretch, limit)
}

/// The row of each task.
#[derive(Drop)]
pub struct EachTask<K>(pub K);

impl<K: TaskRow> PerTask for EachTask<K> {
    ghost rows_of = { λ r set i x. K.row_of r.0 set i x ∷ [] };

    ghost fits = { λ r. K.fits r.0 };

    fn add<T: RowTaker>(
        &self,
        alloc: Global,
        taker: &mut T,
        set: &TaskSet,
        i: TaskId,
        x: TaskId,
        jobs: u64,
        bounds: &[u64],
        columns: &[Fragment],
        stretch: (usize, usize),
    ) -> Result<(), AllocError> {
        add_row_of_task(
            alloc, taker, &self.0, set, i, x, jobs, bounds, columns, stretch,
        )
    }
}

/// A kind of rows with one row for each task and resource.
pub trait RequestRow {
    /// The row of a task and a resource, for a set and the analysed task.
    ghost row_of: { Self → SetDef → ℕ → ℕ → ℕ → ConstraintDef };

    /// The coefficient, in the row of task `x` and resource `q`, of a column of their requests.
    fn coefficient(
        &self,
        set: &TaskSet,
        i: TaskId,
        x: TaskId,
        q: ResourceId,
        column: Fragment,
    ) -> u64
        requires column { IsColumnOfRequests set.now i.0 x.0 q.0 column }
        ensures { result ≡ (row_of self.now set.now i.0 x.0 q.0).coefficient (column_seen column) };

    /// The limit of that row's sum at these bounds, where `jobs` jobs of `x` can run within the bound of a job of `i`.
    fn limit(
        &self,
        set: &TaskSet,
        i: TaskId,
        x: TaskId,
        q: ResourceId,
        jobs: u64,
        bounds: &[u64],
    ) -> u64
        requires asked { q.0 < length set.now.resources }
        requires counted { AreJobsOf set.now bounds.now i.0 x.0 jobs }
        ensures { result ≡ (row_of self.now set.now i.0 x.0 q.0).limit (slice_index bounds.now) };

    /// A column of another task or resource has coefficient zero in it.
    ghost alone: { (k : Self) (set : SetDef) (i x q : ℕ) → CountsOnly (λ c. (c.task == x) && (c.resource == q)) (row_of k set i x q) };
}

/// The row of one task and resource.
#[derive(Drop)]
struct RowOfRequests<'a, K> {
    kind: &'a K,
    task: TaskId,
    resource: ResourceId,
}

impl<'a, K: RequestRow> RowKind for RowOfRequests<'a, K> {
    ghost row_of = { λ r set i. K.row_of r.kind.now set i r.task.0 r.resource.0 };

    ghost fits = { λ r set. (r.task.0 < length set.tasks) × (r.resource.0 < length set.resources) };

    ghost over = { λ r set i c. (c.task ≡ r.task.0) × (c.resource ≡ r.resource.0) };

    fn coefficient(&self, set: &TaskSet, i: TaskId, column: Fragment) -> u64 {
        self.kind
            .coefficient(set, i, self.task, self.resource, column)
    }
}

/// The row of each task and resource.
#[derive(Drop)]
pub struct EachRequest<K>(pub K);

impl<K: RequestRow> PerRequest for EachRequest<K> {
    ghost row_of = { λ r. K.row_of r.0 };

    ghost apart = { λ r set i x q c other. K.alone r.0 set i x q c other };

    fn add<T: RowTaker>(
        &self,
        alloc: Global,
        taker: &mut T,
        set: &TaskSet,
        i: TaskId,
        x: TaskId,
        q: ResourceId,
        jobs: u64,
        bounds: &[u64],
        columns: &[Fragment],
        stretch: (usize, usize),
    ) -> Result<(), AllocError> {
        // a set has at most 32 resources, so the slots of a task end before those of the next one
        let _resources = set.resources();
        let limit = self.0.limit(set, i, x, q, jobs, bounds);
        let row = RowOfRequests {
            kind: &self.0,
            task: x,
            resource: q,
        };
        add_row_limited(alloc, taker, &row, set, i, bounds, columns, stretch, limit)
    }
}
