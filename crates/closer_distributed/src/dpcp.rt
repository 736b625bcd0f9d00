//! DPCP with windows of requests, and the closer rows behind its own.

ghost use Rattle.std.specs.Prelude.{◌≡◌, map, refl, OnOk};
ghost use Rattle.sporadic_model.specs.Homes.{EachHasHome};
ghost use Rattle.sporadic_model.specs.declared.ids.Protocol.TheVariants as protocol;
ghost use Rattle.blocking_columns.specs.ColumnDef.{column_seen};
ghost use Rattle.blocking_columns.specs.Columns.{columns_of as written_columns};
ghost use Rattle.closer_distributed_laws.specs.CloserRows.{lower_wait_row, dpcp_closer_rows, dpcp_closer_source};
ghost use Rattle.closer_distributed_laws.proofs.Points.{dpcp_closer_point};
ghost use Rattle.closer_distributed_laws.proofs.Programs.{dpcp_closer_covered, dpcp_closer_rises, dpcp_closer_is_program};
ghost use Rattle.blocking_columns.specs.Given.{AreInOrderAt};
ghost use Rattle.closer_distributed.specs.Rows.{dpcp_further_rows};

use crate::rows::add_home_rows;
use dpcp_rules::Dpcp;
use fragments::{Constraint, Fragment, RowKind, RowTaker, add_row, columns_stand_in_order, home};
use further_rows::{Closer, FurtherRows};
use protocol_programs::ProgramParts;
use request_windows::DpcpWindowRows;
use sporadic_model::{Protocol, TaskId, TaskSet};
use std::alloc::{AllocError, Global};

/// A job never waits on its own processor for a request of a lower task.
#[derive(Drop)]
struct LowerWaits;

impl RowKind for LowerWaits {
    ghost row_of = { λ k set i. lower_wait_row set i };

    fn coefficient(&self, set: &TaskSet, i: TaskId, column: Fragment) -> u64 {
        let here = home(set, column.resource) == set.processor(i);
        if i < column.task && !column.class.is_preemption() && here {
            1
        } else {
            0
        }
    }
}

impl Constraint for LowerWaits {
    fn limit(&self, _set: &TaskSet, _i: TaskId, _bounds: &[u64]) -> u64 {
        0
    }
}

/// Adds the closer rows behind those that the taker has, over any columns that stand in order.
fn add_rows<T: RowTaker>(
    alloc: Global,
    taker: &mut T,
    set: &TaskSet,
    i: TaskId,
    bounds: &[u64],
    columns: &[Fragment],
) -> Result<(), AllocError>
    requires { AreInOrderAt set.now bounds.now i.0 columns.now }
    ensures { OnOk result (T.takes taker.old (map column_seen columns.now) (dpcp_further_rows set.now i.0) bounds.now taker.new) }
{
    add_home_rows(alloc, taker, set, i, bounds, columns)?;
    add_row(alloc, taker, &LowerWaits, set, i, bounds, columns)
}

/// The columns of DPCP, and its rows with those of windows and the closer rows behind them.
#[derive(Clone, Copy, Debug, PartialEq, Eq)]
pub struct CloserDpcpRows;

impl ProgramParts for CloserDpcpRows {
    ghost serves = { λ p. EachHasHome };

    ghost columns = { λ p. written_columns protocol.Dpcp };

    ghost rows = { λ p. dpcp_closer_rows };

    fn take_rows<T: RowTaker>(
        &self,
        alloc: Global,
        taker: &mut T,
        set: &TaskSet,
        i: TaskId,
        bounds: &[u64],
    ) -> Result<Vec<Fragment>, AllocError> {
        let columns = DpcpWindowRows.take_rows(alloc, taker, set, i, bounds)?;
        columns_stand_in_order(set, Protocol::Dpcp, i, &columns);
        add_rows(alloc, taker, set, i, bounds, &columns)?;
        Ok(columns)
    }

    ghost is_program = { λ p set i r served accepted here within. dpcp_closer_is_program set i r accepted here within };
}

/// The distributed priority ceiling protocol, with its closer analysis: with windows of requests, and the closer rows. It suits task sets in
/// which each resource has a home.
pub type CloserDpcp = Closer<Dpcp, CloserDpcpRows>;

/// The protocol as a value.
pub const CLOSER_DPCP: CloserDpcp = Closer {
    plain: Dpcp,
    rows: CloserDpcpRows,
};

impl FurtherRows<Dpcp> for CloserDpcpRows {
    ghost source = { λ r. dpcp_closer_source };

    ghost served = { λ r p set suits. suits };

    ghost plain_columns = { λ r p set i. refl };

    ghost further = { λ r p set. refl };

    ghost covers = { λ r p set i bounds c suits here within. dpcp_closer_covered set i bounds c within };

    ghost rises = { λ r p set i low high suits here most. dpcp_closer_rises set i low high here most };

    ghost meets_rows = { λ r p w bounds n j suits within keeps. dpcp_closer_point w bounds n j within keeps };
}
