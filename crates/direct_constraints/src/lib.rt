//! The rows that every protocol has, of requests and of time. And those of direct blocking: turns under FMLP+, and lower holders under
//! MPCP.
#![tactic(auto)]

ghost use Rattle.std.specs.Prelude.{◌≡◌, map, length, slice_index, IfOk, OnOk};
ghost use Rattle.program_form.specs.RowBlock.{block_seen};
ghost use Rattle.sporadic_model.specs.declared.ids.Protocol.TheVariants.{Mpcp};
ghost use Rattle.blocking_columns.specs.Given.{AreColumnsAt, AreInOrderAt, AreLaidOut};
ghost use Rattle.blocking_columns.specs.ColumnDef.{column_seen};
ghost use Rattle.blocking_columns.specs.Columns.{columns_of};
ghost use Rattle.fragments.specs.Constraints.{per, per_pair, block_of};
ghost use Rattle.blocking_columns.specs.TaskPlaces.{ArePlaces};
ghost use Rattle.direct_constraints.specs.Asked.{AreAskedFor};
ghost use Rattle.direct_constraints.specs.Rows.{request_row, time_row, turn_row, common_rows, own_rows};

use fragments::{
    EachRequest, EachTask, Fragment, RowTaker, TaskPlace, add_per_number, add_per_request,
    add_per_request_at, add_per_task, columns_stand_in_order, task_places,
};
use kinds::{LowerHolders, Requests, Times, Turns};
use program_form::RowBlock;
use sporadic_model::{Protocol, TaskId, TaskSet};
use std::alloc::{AllocError, Global};

mod kinds;

/// Adds the rows of the requests by each task behind those that the taker has, over any columns in order. Answers the places of all tasks.
pub fn add_request_rows<T: RowTaker>(
    alloc: Global,
    taker: &mut T,
    set: &TaskSet,
    i: TaskId,
    bounds: &[u64],
    columns: &[Fragment],
) -> Result<Vec<TaskPlace>, AllocError>
    requires ordered { AreInOrderAt set.now bounds.now i.0 columns.now }
    ensures rows { OnOk result (T.takes taker.old (map column_seen columns.now)
        (per_pair (length set.now.tasks) (length set.now.resources) (request_row set.now i.0)) bounds.now taker.new) }
    ensures places { IfOk result (λ v. ArePlaces set.now (slice_index bounds.now) i.0 (length set.now.tasks) columns.now v.items) }
{
    add_per_request(
        alloc,
        taker,
        &EachRequest(Requests),
        set,
        set.tasks(),
        i,
        bounds,
        columns,
    )
}

/// Adds the rows of the time of each task behind those that the taker has, over any columns in order.
pub fn add_time_rows<T: RowTaker>(
    alloc: Global,
    taker: &mut T,
    set: &TaskSet,
    i: TaskId,
    bounds: &[u64],
    columns: &[Fragment],
    places: &[TaskPlace],
) -> Result<(), AllocError>
    requires laid { AreLaidOut set.now bounds.now i.0 columns.now places.now }
    ensures { OnOk result (T.takes taker.old (map column_seen columns.now)
        (per (length set.now.tasks) (time_row set.now i.0)) bounds.now taker.new) }
{
    add_per_task(
        alloc,
        taker,
        &EachTask(Times),
        set,
        i,
        bounds,
        columns,
        places,
    )
}

/// Adds the rows of turns with each task behind those that the taker has, over any columns in order.
pub fn add_turn_rows<T: RowTaker>(
    alloc: Global,
    taker: &mut T,
    set: &TaskSet,
    i: TaskId,
    bounds: &[u64],
    columns: &[Fragment],
    places: &[TaskPlace],
) -> Result<(), AllocError>
    requires laid { AreLaidOut set.now bounds.now i.0 columns.now places.now }
    ensures { OnOk result (T.takes taker.old (map column_seen columns.now)
        (per_pair (length set.now.tasks) (length set.now.resources) (turn_row set.now i.0)) bounds.now taker.new) }
{
    add_per_request_at(
        alloc,
        taker,
        &EachRequest(Turns),
        set,
        set.tasks(),
        i,
        bounds,
        columns,
        places,
    )
}

// Adds the rows of lower holders of each resource.
fn add_lower_holder_rows<T: RowTaker>(
    alloc: Global,
    taker: &mut T,
    set: &TaskSet,
    i: TaskId,
    bounds: &[u64],
    columns: &[Fragment],
    places: &[TaskPlace],
) -> Result<(), AllocError>
    requires laid { AreLaidOut set.now bounds.now i.0 columns.now places.now }
    requires asked { AreAskedFor set.now i.0 columns.now }
    ensures { OnOk result (T.takes taker.old (map column_seen columns.now) (own_rows Mpcp set.now i.0) bounds.now taker.new) }
{
    let resources = set.resources();
    let rows = LowerHolders {
        from: places[i.0 as usize + 1].from,
    };
    add_per_number(alloc, taker, &rows, set, resources, i, bounds, columns)
}

/// Adds the rows of every protocol behind those that the taker has, over any columns in order: those of requests, then those of time.
/// Answers the places of all tasks.
pub fn add_common<T: RowTaker>(
    alloc: Global,
    taker: &mut T,
    set: &TaskSet,
    i: TaskId,
    bounds: &[u64],
    columns: &[Fragment],
) -> Result<Vec<TaskPlace>, AllocError>
    requires ordered { AreInOrderAt set.now bounds.now i.0 columns.now }
    ensures rows { OnOk result (T.takes taker.old (map column_seen columns.now) (common_rows set.now i.0) bounds.now taker.new) }
    ensures places { IfOk result (λ v. ArePlaces set.now (slice_index bounds.now) i.0 (length set.now.tasks) columns.now v.items) }
{
    let places = add_request_rows(alloc, taker, set, i, bounds, columns)?;
    add_time_rows(alloc, taker, set, i, bounds, columns, &places)?;
    Ok(places)
}

/// Adds the rows of direct blocking behind those that the taker has: turns under FMLP+, lower holders under MPCP, none under DPCP.
pub fn add_own<T: RowTaker>(
    alloc: Global,
    taker: &mut T,
    set: &TaskSet,
    protocol: Protocol,
    i: TaskId,
    bounds: &[u64],
    columns: &[Fragment],
    places: &[TaskPlace],
) -> Result<(), AllocError>
    requires at { AreColumnsAt protocol set.now bounds.now i.0 columns.now }
    requires places { ArePlaces set.now (slice_index bounds.now) i.0 (length set.now.tasks) columns.now places.now }
    ensures { OnOk result (T.takes taker.old (map column_seen columns.now) (own_rows protocol set.now i.0) bounds.now taker.new) }
{
    columns_stand_in_order(set, protocol, i, columns);
    match protocol {
        Protocol::FmlpPlus => add_turn_rows(alloc, taker, set, i, bounds, columns, places)?,
        Protocol::Mpcp => add_lower_holder_rows(alloc, taker, set, i, bounds, columns, places)?,
        Protocol::Dpcp => {}
    }
    Ok(())
}

/// The rows of every protocol that have a coefficient above zero. First for each task and resource: the task's requests of it are at most
/// as many as it makes while a job of `i` runs. Then for each task: its requests, by their lengths, are at most the ticks that its jobs
/// execute in that time. It fails only for want of memory.
pub fn common(
    alloc: Global,
    set: &TaskSet,
    protocol: Protocol,
    i: TaskId,
    bounds: &[u64],
    columns: &[Fragment],
) -> Result<RowBlock, AllocError>
    requires { AreColumnsAt protocol set.now bounds.now i.0 columns.now }
    ensures { IfOk result (λ b. block_seen b ≡ block_of (columns_of protocol set.now i.0) (common_rows set.now i.0) bounds.now) }
{
    let mut block = RowBlock {
        rows: Vec::new(alloc),
        limits: Vec::new(alloc),
    };
    columns_stand_in_order(set, protocol, i, columns);
    add_common(alloc, &mut block, set, i, bounds, columns)?;
    Ok(block)
}

/// The rows of direct blocking that have a coefficient above zero. Under FMLP+ there is one for each task and resource, under MPCP one for
/// each resource over all lower tasks, and under DPCP none. The limit of each is how often a job of `i` may request the resource. It fails
/// only for want of memory.
pub fn own(
    alloc: Global,
    set: &TaskSet,
    protocol: Protocol,
    i: TaskId,
    bounds: &[u64],
    columns: &[Fragment],
) -> Result<RowBlock, AllocError>
    requires { AreColumnsAt protocol set.now bounds.now i.0 columns.now }
    ensures { IfOk result (λ b. block_seen b ≡ block_of (columns_of protocol set.now i.0) (own_rows protocol set.now i.0) bounds.now) }
{
    let mut block = RowBlock {
        rows: Vec::new(alloc),
        limits: Vec::new(alloc),
    };
    columns_stand_in_order(set, protocol, i, columns);
    let places = task_places(alloc, set, i, bounds, columns)?;
    add_own(
        alloc, &mut block, set, protocol, i, bounds, columns, &places,
    )?;
    Ok(block)
}
