//! What programs of the closer analysis are made of: the columns of MPCP, its rows of requests, of time and of lower holders, and the closer
//! rows behind them.

ghost use Rattle.std.specs.Prelude.{◌≡◌, ◌<◌, map, length, IfOk, OnOk};
ghost use Rattle.sporadic_model.specs.declared.ids.Protocol.TheVariants as protocol;
ghost use Rattle.sporadic_model.specs.Bounds.{AreWithinDeadlines};
ghost use Rattle.schedule_model.specs.Protocols.{EachSetSuits};
ghost use Rattle.blocking_columns.specs.ColumnDef.{column_seen};
ghost use Rattle.blocking_columns.specs.Columns.{columns_of};
ghost use Rattle.blocking_columns.specs.Given.{AreColumnsAt};
ghost use Rattle.mpcp_window_laws.specs.WaitRows.{mpcp_closer_rows, mpcp_closer_program};
ghost use Rattle.mpcp_window_laws.proofs.Programs.{mpcp_closer_is_program};

use crate::rows::add_closer_rows;
use direct_constraints::{add_common, add_own};
use fragments::{Fragment, RowTaker, columns_stand_in_order, fragments};
use program_form::Program;
use protocol_programs::{ProgramParts, program_with};
use sporadic_model::{Protocol, TaskId, TaskSet};
use std::alloc::{AllocError, Global};

/// Adds the rows of requests, of time and of lower holders, and behind them the closer rows, behind those that the taker has.
fn add_rows<T: RowTaker>(
    alloc: Global,
    taker: &mut T,
    set: &TaskSet,
    i: TaskId,
    bounds: &[u64],
    columns: &[Fragment],
) -> Result<(), AllocError>
    requires { AreColumnsAt protocol.Mpcp set.now bounds.now i.0 columns.now }
    ensures { OnOk result (T.takes taker.old (map column_seen columns.now) (mpcp_closer_rows set.now i.0) bounds.now taker.new) }
{
    columns_stand_in_order(set, Protocol::Mpcp, i, columns);
    let places = add_common(alloc, taker, set, i, bounds, columns)?;
    add_own(
        alloc,
        taker,
        set,
        Protocol::Mpcp,
        i,
        bounds,
        columns,
        &places,
    )?;
    add_closer_rows(alloc, taker, set, i, bounds, columns, &places)?;
    Ok(())
}

/// The columns of MPCP; its rows of requests, of time and of lower holders; and the closer rows behind them.
#[derive(Clone, Copy, Debug, PartialEq, Eq)]
pub struct CloserMpcpRows;

impl ProgramParts for CloserMpcpRows {
    ghost serves = { λ p. EachSetSuits };

    ghost columns = { λ p. columns_of protocol.Mpcp };

    ghost rows = { λ p. mpcp_closer_rows };

    fn take_rows<T: RowTaker>(
        &self,
        alloc: Global,
        taker: &mut T,
        set: &TaskSet,
        i: TaskId,
        bounds: &[u64],
    ) -> Result<Vec<Fragment>, AllocError> {
        let columns = fragments(alloc, set, Protocol::Mpcp, i)?;
        columns_stand_in_order(set, Protocol::Mpcp, i, &columns);
        add_rows(alloc, taker, set, i, bounds, &columns)?;
        Ok(columns)
    }

    ghost is_program = { λ p set i r served accepted here within. mpcp_closer_is_program set i r accepted here within };
}

/// The blocking program of task `i`, where these are the bounds, in ticks: the columns of MPCP, its rows of requests, of time and of lower
/// holders, and behind them the closer rows. It refuses for want of memory alone.
pub fn program(
    alloc: Global,
    set: &TaskSet,
    i: TaskId,
    bounds: &[u64],
) -> Result<Program, AllocError>
    requires task { i.0 < length set.now.tasks }
    requires within { AreWithinDeadlines set.now bounds.now }
    ensures { IfOk result (λ p. p ≡ mpcp_closer_program set.now i.0 bounds.now) }
{
    program_with(alloc, &CloserMpcpRows, set, i, bounds)
}
