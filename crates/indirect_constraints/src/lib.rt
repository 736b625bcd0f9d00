//! The rows of indirect blocking: queues under FMLP+, holdings under MPCP, homes under DPCP.
#![tactic(auto)]

ghost use Rattle.std.specs.Prelude.{◌≡◌, map, length, slice_index, IfOk, OnOk};
ghost use Rattle.program_form.specs.RowBlock.{block_seen};
ghost use Rattle.sporadic_model.specs.declared.ids.Protocol.TheVariants.{FmlpPlus, Mpcp, Dpcp};
ghost use Rattle.blocking_columns.specs.Given.{AreColumnsAt, AreLaidOut};
ghost use Rattle.blocking_columns.specs.ColumnDef.{column_seen};
ghost use Rattle.blocking_columns.specs.Columns.{columns_of};
ghost use Rattle.fragments.specs.Constraints.{block_of};
ghost use Rattle.blocking_columns.specs.TaskPlaces.{ArePlaces};
ghost use Rattle.indirect_constraints.specs.Asked.{AreAskedAtHome};
ghost use Rattle.indirect_constraints.specs.Rows.{indirect_rows};

use fragments::{
    EachTask, Fragment, RowTaker, TaskPlace, add_per_number, add_per_task, columns_stand_in_order,
    requests_of, task_places,
};
use holdings::holdings_of;
use kinds::{Holdings, Homes, Queues};
use program_form::RowBlock;
use sporadic_model::{Protocol, TaskId, TaskSet};
use std::alloc::{AllocError, Global};

mod holdings;
mod kinds;
mod tables;

// Adds the row of queues of each task.
fn add_queue_rows<T: RowTaker>(
    alloc: Global,
    taker: &mut T,
    set: &TaskSet,
    i: TaskId,
    bounds: &[u64],
    columns: &[Fragment],
    places: &[TaskPlace],
) -> Result<(), AllocError>
    requires laid { AreLaidOut set.now bounds.now i.0 columns.now places.now }
    ensures { OnOk result (T.takes taker.old (map column_seen columns.now) (indirect_rows FmlpPlus set.now i.0) bounds.now taker.new) }
{
    let requests = requests_of(set, i);
    let rows = EachTask(Queues { requests });
    add_per_task(alloc, taker, &rows, set, i, bounds, columns, places)
}

// Adds the row of holdings of each task.
fn add_holding_rows<T: RowTaker>(
    alloc: Global,
    taker: &mut T,
    set: &TaskSet,
    i: TaskId,
    bounds: &[u64],
    columns: &[Fragment],
    places: &[TaskPlace],
) -> Result<(), AllocError>
    requires laid { AreLaidOut set.now bounds.now i.0 columns.now places.now }
    ensures { OnOk result (T.takes taker.old (map column_seen columns.now) (indirect_rows Mpcp set.now i.0) bounds.now taker.new) }
{
    let counts = holdings_of(alloc, set, i, bounds)?;
    let rows = EachTask(Holdings { counts });
    add_per_task(alloc, taker, &rows, set, i, bounds, columns, places)
}

// Adds the row of homes of each processor.
fn add_home_rows<T: RowTaker>(
    alloc: Global,
    taker: &mut T,
    set: &TaskSet,
    i: TaskId,
    bounds: &[u64],
    columns: &[Fragment],
    places: &[TaskPlace],
) -> Result<(), AllocError>
    requires laid { AreLaidOut set.now bounds.now i.0 columns.now places.now }
    requires asked { AreAskedAtHome set.now i.0 columns.now }
    ensures { OnOk result (T.takes taker.old (map column_seen columns.now) (indirect_rows Dpcp set.now i.0) bounds.now taker.new) }
{
    let processors = set.processors();
    let rows = Homes {
        from: places[i.0 as usize + 1].from,
    };
    add_per_number(alloc, taker, &rows, set, processors, i, bounds, columns)
}

/// Adds the rows of indirect blocking behind those that the taker has: queues under FMLP+, holdings under MPCP, homes under DPCP.
pub fn add_rows<T: RowTaker>(
    alloc: Global,
    taker: &mut T,
    set: &TaskSet,
    protocol: Protocol,
    i: TaskId,
    bounds: &[u64],
    columns: &[Fragment],
    places: &[TaskPlace],
) -> Result<(), AllocError>
    requires at { AreColumnsAt protocol set.now bounds.now i.0 columns.now }
    requires places { ArePlaces set.now (slice_index bounds.now) i.0 (length set.now.tasks) columns.now places.now }
    ensures { OnOk result (T.takes taker.old (map column_seen columns.now) (indirect_rows protocol set.now i.0) bounds.now taker.new) }
{
    columns_stand_in_order(set, protocol, i, columns);
    match protocol {
        Protocol::FmlpPlus => add_queue_rows(alloc, taker, set, i, bounds, columns, places),
        Protocol::Mpcp => add_holding_rows(alloc, taker, set, i, bounds, columns, places),
        Protocol::Dpcp => add_home_rows(alloc, taker, set, i, bounds, columns, places),
    }
}

/// The rows of indirect blocking that have a coefficient above zero. It fails only for want of memory.
///
/// - Under FMLP+ there is one for each task. Its requests of direct and indirect blocking are at most as many as a job of `i` makes.
/// - Under MPCP there is one for each task. Its requests of indirect blocking are at most as many as the requests that a job of `i` may
///   wait for and other tasks of its processor hold.
/// - Under DPCP there is one for each processor. The requests of its resources by lower tasks, of direct and indirect blocking, are at most
///   as many as a job of `i` makes of these resources.
pub fn rows(
    alloc: Global,
    set: &TaskSet,
    protocol: Protocol,
    i: TaskId,
    bounds: &[u64],
    columns: &[Fragment],
) -> Result<RowBlock, AllocError>
    requires { AreColumnsAt protocol set.now bounds.now i.0 columns.now }
    ensures { IfOk result (λ b. block_seen b ≡ block_of (columns_of protocol set.now i.0) (indirect_rows protocol set.now i.0) bounds.now) }
{
    let mut block = RowBlock {
        rows: Vec::new(alloc),
        limits: Vec::new(alloc),
    };
    columns_stand_in_order(set, protocol, i, columns);
    let places = task_places(alloc, set, i, bounds, columns)?;
    add_rows(
        alloc, &mut block, set, protocol, i, bounds, columns, &places,
    )?;
    Ok(block)
}
