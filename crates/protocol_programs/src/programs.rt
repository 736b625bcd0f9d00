ghost use Rattle.std.specs.Prelude.{◌≡◌, map, length, slice_index, IfOk, OnOk};
ghost use Rattle.sporadic_model.specs.Homes.{HasHomesFor};
ghost use Rattle.blocking_columns.specs.Given.{AreColumnsAt};
ghost use Rattle.blocking_columns.specs.ColumnDef.{column_seen};
ghost use Rattle.blocking_columns.specs.TaskPlaces.{ArePlaces};
ghost use Rattle.program_laws.specs.Programs.{rows_of, program_of};
ghost use Rattle.protocol_programs.specs.Given.{HasProgramAt};

use crate::{Written, limits_with, program_with, sparse_program_with};
use direct_constraints::{add_common, add_own};
use fragments::{Fragment, RowTaker, TaskPlace, columns_stand_in_order};
use preempt_constraints::add_interval_rows;
use program_form::{Program, SparseProgram};
use sporadic_model::{Protocol, TaskId, TaskSet};
use std::alloc::{AllocError, Global};

/// Adds all rows of the protocol, in their order, behind those that the taker has. Answers the places of all tasks.
pub fn add_rows<T: RowTaker>(
    alloc: Global,
    taker: &mut T,
    set: &TaskSet,
    protocol: Protocol,
    i: TaskId,
    bounds: &[u64],
    columns: &[Fragment],
) -> Result<Vec<TaskPlace>, AllocError>
    requires at { AreColumnsAt protocol set.now bounds.now i.0 columns.now }
    ensures rows { OnOk result (T.takes taker.old (map column_seen columns.now) (rows_of protocol set.now i.0) bounds.now taker.new) }
    ensures places { IfOk result (λ v. ArePlaces set.now (slice_index bounds.now) i.0 (length set.now.tasks) columns.now v.items) }
{
    columns_stand_in_order(set, protocol, i, columns);
    let places = add_common(alloc, taker, set, i, bounds, columns)?;
    add_interval_rows(alloc, taker, set, i, bounds, columns, &places)?;
    add_own(alloc, taker, set, protocol, i, bounds, columns, &places)?;
    indirect_constraints::add_rows(alloc, taker, set, protocol, i, bounds, columns, &places)?;
    Ok(places)
}

/// The blocking program of task `i` under the protocol, at these bounds (in ticks). It fails only for want of memory.
pub fn program(
    alloc: Global,
    set: &TaskSet,
    protocol: Protocol,
    i: TaskId,
    bounds: &[u64],
) -> Result<Program, AllocError>
    requires { HasProgramAt (HasHomesFor protocol) set.now i.0 bounds.now }
    ensures { IfOk result (λ p. p ≡ program_of protocol set.now i.0 bounds.now) }
{
    program_with(alloc, &Written(protocol), set, i, bounds)
}

/// The same program as [`program`], kept by its nonzero coefficients. It fails only for want of memory.
pub fn sparse_program(
    alloc: Global,
    set: &TaskSet,
    protocol: Protocol,
    i: TaskId,
    bounds: &[u64],
) -> Result<SparseProgram, AllocError>
    requires { HasProgramAt (HasHomesFor protocol) set.now i.0 bounds.now }
    ensures { IfOk result (λ p. p ≡ program_of protocol set.now i.0 bounds.now) }
{
    sparse_program_with(alloc, &Written(protocol), set, i, bounds)
}

/// The limits of that program at these bounds, without its coefficients. It fails only for want of memory.
pub fn limits(
    alloc: Global,
    set: &TaskSet,
    protocol: Protocol,
    i: TaskId,
    bounds: &[u64],
) -> Result<Vec<u64>, AllocError>
    requires { HasProgramAt (HasHomesFor protocol) set.now i.0 bounds.now }
    ensures { IfOk result (λ v. v.items ≡ (program_of protocol set.now i.0 bounds.now).limits) }
{
    limits_with(alloc, &Written(protocol), set, i, bounds)
}
