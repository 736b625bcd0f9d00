//! Walks over the rows of all tasks or of all requests, each over the stretch of its columns, and over rows by number.

ghost use Rattle.std.specs.Prelude.{◌≡◌, ℕ, ◌<◌, ◌≤◌, ◌+◌, ◌==◌, ◌&&◌, List, [], ◌∷◌, map, length, slice_index, IfOk, OnOk, IfSome, IfNone};
ghost use Rattle.number_laws.specs.Sums.{collect_below};
ghost use Rattle.sporadic_model.specs.SetDef.{SetDef};
ghost use Rattle.blocking_columns.specs.Given.{AreKnownAt, AreInOrderAt, AreLaidOut};
ghost use Rattle.blocking_columns.specs.ColumnDef.{column_seen, AreKnown};
ghost use Rattle.fragments.specs.Constraints.{ConstraintDef, per, per_pair, of_each_task, CountsOnly};
ghost use Rattle.fragments.specs.Given.{AreColumnsOfTask, AreColumnsOfRequests, AreInOrderFrom};
ghost use Rattle.blocking_columns.specs.Stretches.{slot, AreInOrder, BeginsAt, IsNextRequest, ArePast};
ghost use Rattle.blocking_columns.specs.TaskPlaces.{ArePlaces};
ghost use Rattle.blocking_columns.specs.declared.columns.Fragment.{Fragment};

use crate::taking::RowTaker;
use blocking_columns::{Fragment, TaskPlace, jobs, requests_end};
use sporadic_model::{ResourceId, TaskId, TaskSet};
use std::alloc::{AllocError, Global};

/// Kinds of rows in which each row is over the columns of one task alone.
pub trait PerTask {
    /// The rows of a task, for a set and the analysed task.
    ghost rows_of: { Self → SetDef → ℕ → ℕ → List ConstraintDef };

    /// Do the further numbers that the rows are made of belong to the set and the analysed task at these bounds? Where there are none, a
    /// kind leaves this out.
    ghost fits: { Self → SetDef → ℕ → List ℕ → Type 0 } = { λ k set i bounds. Unit {0} };

    /// Adds the rows of task `x`, whose columns are those of the stretch. `jobs` jobs of `x` can run within the bound of a job of `i`.
    fn add<T: RowTaker>(
        &self,
        alloc: Global,
        taker: &mut T,
        set: &TaskSet,
        i: TaskId,
        x: TaskId,
        jobs: u64,
        bounds: &[u64],
        columns: &[Fragment],
        stretch: (usize, usize),
    ) -> Result<(), AllocError>
        requires fits { fits self.now set.now i.0 bounds.now }
        requires columns { AreColumnsOfTask set.now bounds.now i.0 x.0 jobs columns.now stretch.0 stretch.1 }
        ensures { OnOk result (T.takes taker.old (map column_seen columns.now) (rows_of self.now set.now i.0 x.0) bounds.now taker.new) };
}

/// Adds the rows of each task behind those that the taker has. The columns are in order.
pub fn add_per_task<T: RowTaker, R: PerTask>(
    alloc: Global,
    taker: &mut T,
    rows: &R,
    set: &TaskSet,
    i: TaskId,
    bounds: &[u64],
    columns: &[Fragment],
    places: &[TaskPlace],
) -> Result<(), AllocError>
    requires fits { R.fits rows.now set.now i.0 bounds.now }
    requires laid { AreLaidOut set.now bounds.now i.0 columns.now places.now }
    ensures { OnOk result (T.takes taker.old (map column_seen columns.now) (of_each_task set.now i.0 (R.rows_of rows.now)) bounds.now taker.new) }
{
    for x in 0..set.tasks() {
        let place = places[x as usize];
        let end = places[x as usize + 1].from;
        rows.add(
            alloc,
            taker,
            set,
            i,
            TaskId(x),
            place.jobs,
            bounds,
            columns,
            (place.from, end),
        )?;
    }
    Ok(())
}

/// The same for rows that only tasks lower than `i` have. It looks at the columns of these tasks alone.
pub fn add_per_lower_task<T: RowTaker, R: PerTask>(
    alloc: Global,
    taker: &mut T,
    rows: &R,
    set: &TaskSet,
    i: TaskId,
    bounds: &[u64],
    columns: &[Fragment],
    places: &[TaskPlace],
) -> Result<(), AllocError>
    requires fits { R.fits rows.now set.now i.0 bounds.now }
    requires none { (x : ℕ) → x ≤ i.0 → R.rows_of rows.now set.now i.0 x ≡ [] }
    requires laid { AreLaidOut set.now bounds.now i.0 columns.now places.now }
    ensures { OnOk result (T.takes taker.old (map column_seen columns.now) (of_each_task set.now i.0 (R.rows_of rows.now)) bounds.now taker.new) }
{
    let tasks = set.tasks();
    for x in i.0 + 1..tasks {
        let place = places[x as usize];
        let end = places[x as usize + 1].from;
        rows.add(
            alloc,
            taker,
            set,
            i,
            TaskId(x),
            place.jobs,
            bounds,
            columns,
            (place.from, end),
        )?;
    }
    Ok(())
}

/// Kinds of rows with one row for each task and resource, over the columns of these requests alone.
pub trait PerRequest {
    /// The row of a task and a resource, for a set and the analysed task.
    ghost row_of: { Self → SetDef → ℕ → ℕ → ℕ → ConstraintDef };

    /// Do the further numbers that the rows are made of belong to the set and the analysed task at these bounds? Where there are none, a
    /// kind leaves this out.
    ghost fits: { Self → SetDef → ℕ → List ℕ → Type 0 } = { λ k set i bounds. Unit {0} };

    /// Adds the row of task `x` and resource `q`, whose columns are those of the stretch. `jobs` jobs of `x` can run within the bound
    /// of a job of `i`.
    fn add<T: RowTaker>(
        &self,
        alloc: Global,
        taker: &mut T,
        set: &TaskSet,
        i: TaskId,
        x: TaskId,
        q: ResourceId,
        jobs: u64,
        bounds: &[u64],
        columns: &[Fragment],
        stretch: (usize, usize),
    ) -> Result<(), AllocError>
        requires fits { fits self.now set.now i.0 bounds.now }
        requires columns { AreColumnsOfRequests set.now bounds.now i.0 x.0 q.0 jobs columns.now stretch.0 stretch.1 }
        ensures { OnOk result (T.takes taker.old (map column_seen columns.now) (row_of self.now set.now i.0 x.0 q.0 ∷ []) bounds.now taker.new) };

    /// In the row each column of another task or resource has coefficient zero.
    ghost apart: { (k : Self) (set : SetDef) (i x q : ℕ) → CountsOnly (λ c. (c.task == x) && (c.resource == q)) (row_of k set i x q) };
}

// The resource of the column at the place, if there is a column and it is of task `x`.
fn requested_at(set: &TaskSet, columns: &[Fragment], place: usize, x: TaskId) -> Option<ResourceId>
    requires known { AreKnown (length set.now.tasks) (length set.now.resources) columns.now }
    requires order { AreInOrder columns.now }
    ensures some { IfSome result (λ q. IsNextRequest (length set.now.resources) x.0 q.0 columns.now place) }
    ensures none { IfNone result (ArePast (length set.now.resources) x.0 columns.now place) }
{
    // a set has at most 32 resources, so the slots of a task end before those of the next one
    let _resources = set.resources();
    if place >= columns.len() || columns[place].task != x {
        return None;
    }
    Some(columns[place].resource)
}

// Adds the rows of the requests by task `x`, whose columns begin at `from`. `jobs` of its jobs can run within the bound of a job of
// `i`. Answers where these columns end.
fn add_requests_from<T: RowTaker, R: PerRequest>(
    alloc: Global,
    taker: &mut T,
    rows: &R,
    set: &TaskSet,
    i: TaskId,
    x: TaskId,
    jobs: u64,
    bounds: &[u64],
    columns: &[Fragment],
    from: usize,
) -> Result<usize, AllocError>
    requires fits { R.fits rows.now set.now i.0 bounds.now }
    requires ordered { AreInOrderFrom set.now bounds.now i.0 x.0 jobs columns.now from }
    ensures rows { OnOk result (T.takes taker.old (map column_seen columns.now)
        (per (length set.now.resources) (R.row_of rows.now set.now i.0 x.0)) bounds.now taker.new) }
    ensures end { IfOk result (λ n. BeginsAt (slot (x.0 + 1) 0) columns.now n) }
{
    // a set has at most 32 resources, so the slots of a task end before those of the next one
    let _resources = set.resources();
    let mut place = from;
    while let Some(q) = requested_at(set, columns, place, x) {
        let end = requests_end(set, columns, place, x, q);
        rows.add(
            alloc,
            taker,
            set,
            i,
            x,
            q,
            jobs,
            bounds,
            columns,
            (place, end),
        )?;
        place = end;
    }
    Ok(place)
}

/// For each of the first `tasks` tasks and each resource, adds the row behind those that the taker has. The columns are in order.
/// Answers the places of these tasks, and one more place, at which the columns of the last task end.
pub fn add_per_request<T: RowTaker, R: PerRequest>(
    alloc: Global,
    taker: &mut T,
    rows: &R,
    set: &TaskSet,
    tasks: u32,
    i: TaskId,
    bounds: &[u64],
    columns: &[Fragment],
) -> Result<Vec<TaskPlace>, AllocError>
    requires fits { R.fits rows.now set.now i.0 bounds.now }
    requires tasks { tasks ≤ length set.now.tasks }
    requires ordered { AreInOrderAt set.now bounds.now i.0 columns.now }
    ensures rows { OnOk result (T.takes taker.old (map column_seen columns.now)
        (per_pair tasks (length set.now.resources) (R.row_of rows.now set.now i.0)) bounds.now taker.new) }
    ensures places { IfOk result (λ v. ArePlaces set.now (slice_index bounds.now) i.0 tasks columns.now v.items) }
{
    let mut places = Vec::with_capacity(alloc, tasks as usize + 1)?;
    let mut place = 0;
    for x in 0..tasks {
        let jobs = jobs(set, i, TaskId(x), bounds);
        places.push(TaskPlace { from: place, jobs })?;
        place = add_requests_from(
            alloc,
            taker,
            rows,
            set,
            i,
            TaskId(x),
            jobs,
            bounds,
            columns,
            place,
        )?;
    }
    places.push(TaskPlace {
        from: place,
        jobs: 0,
    })?;
    Ok(places)
}

/// The same rows, for places of all tasks that are known.
pub fn add_per_request_at<T: RowTaker, R: PerRequest>(
    alloc: Global,
    taker: &mut T,
    rows: &R,
    set: &TaskSet,
    tasks: u32,
    i: TaskId,
    bounds: &[u64],
    columns: &[Fragment],
    places: &[TaskPlace],
) -> Result<(), AllocError>
    requires fits { R.fits rows.now set.now i.0 bounds.now }
    requires tasks { tasks ≤ length set.now.tasks }
    requires laid { AreLaidOut set.now bounds.now i.0 columns.now places.now }
    ensures { OnOk result (T.takes taker.old (map column_seen columns.now)
        (per_pair tasks (length set.now.resources) (R.row_of rows.now set.now i.0)) bounds.now taker.new) }
{
    for x in 0..tasks {
        let place = places[x as usize];
        let _end = add_requests_from(
            alloc,
            taker,
            rows,
            set,
            i,
            TaskId(x),
            place.jobs,
            bounds,
            columns,
            place.from,
        )?;
    }
    Ok(())
}

/// Kinds of rows by number, such as one for each resource or one for each processor, over any columns.
pub trait PerNumber {
    /// The rows of a number, for a set and the analysed task.
    ghost rows_of: { Self → SetDef → ℕ → ℕ → List ConstraintDef };

    /// Has the set rows of this number, and can they be formed over these columns?
    ghost fits: { Self → SetDef → ℕ → List Fragment → ℕ → Type 0 };

    /// Adds the rows of the number.
    fn add<T: RowTaker>(
        &self,
        alloc: Global,
        taker: &mut T,
        set: &TaskSet,
        i: TaskId,
        number: u32,
        bounds: &[u64],
        columns: &[Fragment],
    ) -> Result<(), AllocError>
        requires fits { fits self.now set.now i.0 columns.now number }
        requires at { AreKnownAt set.now bounds.now i.0 columns.now }
        ensures { OnOk result (T.takes taker.old (map column_seen columns.now) (rows_of self.now set.now i.0 number) bounds.now taker.new) };
}

/// Adds the rows of each number below `count` behind those that the taker has.
pub fn add_per_number<T: RowTaker, R: PerNumber>(
    alloc: Global,
    taker: &mut T,
    rows: &R,
    set: &TaskSet,
    count: u32,
    i: TaskId,
    bounds: &[u64],
    columns: &[Fragment],
) -> Result<(), AllocError>
    requires fits { (n : ℕ) → n < count → R.fits rows.now set.now i.0 columns.now n }
    requires at { AreKnownAt set.now bounds.now i.0 columns.now }
    ensures { OnOk result (T.takes taker.old (map column_seen columns.now)
        (collect_below count (R.rows_of rows.now set.now i.0)) bounds.now taker.new) }
{
    for number in 0..count {
        rows.add(alloc, taker, set, i, number, bounds, columns)?;
    }
    Ok(())
}
