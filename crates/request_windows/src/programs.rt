//! The parts of programs with rows of windows: the columns and rows of DPCP, and after these the rows of windows.

ghost use Rattle.std.specs.Prelude.{◌≡◌, ◌<◌, map, length, IfOk, OnOk};
ghost use Rattle.sporadic_model.specs.Homes.{EachHasHome};
ghost use Rattle.sporadic_model.specs.declared.ids.Protocol.TheVariants as protocol;
ghost use Rattle.sporadic_model.specs.Bounds.{AreWithinDeadlines};
ghost use Rattle.blocking_columns.specs.ColumnDef.{column_seen};
ghost use Rattle.blocking_columns.specs.Columns.{columns_of};
ghost use Rattle.window_laws.specs.WindowRows.{windowed_rows, windowed_program};
ghost use Rattle.window_laws.proofs.Programs.{windowed_is_program};
ghost use Rattle.request_windows.specs.Served.{IsServed};

use crate::rows::add_window_rows;
use fragments::{Fragment, RowTaker, columns_stand_in_order, fragments};
use program_form::Program;
use protocol_programs::{ProgramParts, program_with};
use sporadic_model::{Protocol, TaskId, TaskSet};
use std::alloc::{AllocError, Global};

/// Adds the rows of DPCP, and then those of windows, behind those that the taker has.
fn add_rows<T: RowTaker>(
    alloc: Global,
    taker: &mut T,
    set: &TaskSet,
    i: TaskId,
    bounds: &[u64],
    columns: &[Fragment],
) -> Result<(), AllocError>
    requires served { IsServed set.now i.0 bounds.now }
    requires columns { map column_seen columns.now ≡ columns_of protocol.Dpcp set.now i.0 }
    ensures { OnOk result (T.takes taker.old (map column_seen columns.now) (windowed_rows set.now i.0) bounds.now taker.new) }
{
    columns_stand_in_order(set, Protocol::Dpcp, i, columns);
    let places = protocol_programs::add_rows(
        alloc,
        taker,
        set,
        Protocol::Dpcp,
        i,
        bounds,
        columns,
    )?;
    add_window_rows(alloc, taker, set, i, bounds, columns, &places)?;
    Ok(())
}

/// The columns of DPCP, and its rows with those of windows behind them.
#[derive(Clone, Copy, Debug, PartialEq, Eq)]
pub struct DpcpWindowRows;

impl ProgramParts for DpcpWindowRows {
    ghost serves = { λ p. EachHasHome };

    ghost columns = { λ p. columns_of protocol.Dpcp };

    ghost rows = { λ p. windowed_rows };

    fn take_rows<T: RowTaker>(
        &self,
        alloc: Global,
        taker: &mut T,
        set: &TaskSet,
        i: TaskId,
        bounds: &[u64],
    ) -> Result<Vec<Fragment>, AllocError> {
        let columns = fragments(alloc, set, Protocol::Dpcp, i)?;
        columns_stand_in_order(set, Protocol::Dpcp, i, &columns);
        add_rows(alloc, taker, set, i, bounds, &columns)?;
        Ok(columns)
    }

    ghost is_program = { λ p set i r served accepted here within. windowed_is_program set i r accepted here within };
}

/// The blocking program of task `i` at these bounds (in ticks): the columns and rows of DPCP, and after these the rows of windows. It fails
/// only for want of memory.
pub fn program(
    alloc: Global,
    set: &TaskSet,
    i: TaskId,
    bounds: &[u64],
) -> Result<Program, AllocError>
    requires task { i.0 < length set.now.tasks }
    requires suits { EachHasHome set.now }
    requires within { AreWithinDeadlines set.now bounds.now }
    ensures { IfOk result (λ p. p ≡ windowed_program set.now i.0 bounds.now) }
{
    program_with(alloc, &DpcpWindowRows, set, i, bounds)
}
