//! The distributed FIFO protocol, and the closer rows behind its own.

ghost use Rattle.std.specs.Prelude.{◌≡◌, ◌<◌, ◌≤◌, map, length, refl, OnOk};
ghost use Rattle.sporadic_model.specs.Homes.{EachHasHome};
ghost use Rattle.blocking_columns.specs.ColumnDef.{column_seen};
ghost use Rattle.blocking_columns.specs.Stretches.{AreInOrder};
ghost use Rattle.dflp_laws.specs.Programs.{dflp_columns};
ghost use Rattle.closer_distributed_laws.specs.CloserRows.{dflp_closer_rows, dflp_closer_source};
ghost use Rattle.closer_distributed_laws.proofs.Points.{dflp_closer_point};
ghost use Rattle.closer_distributed_laws.proofs.Programs.{dflp_closer_covered, dflp_closer_rises, dflp_closer_is_program};

use crate::rows::add_home_rows;
use dflp_protocol::Dflp;
use fragments::{Fragment, RowTaker};
use further_rows::{Closer, FurtherRows};
use protocol_programs::{ProgramParts, keeps_jobs};
use sporadic_model::{TaskId, TaskSet};
use std::alloc::{AllocError, Global};

// The columns of a task stand in order. This says so, and does nothing.
fn columns_stand_in_order(set: &TaskSet, i: TaskId, columns: &[Fragment])
    requires columns { map column_seen columns.now ≡ dflp_columns set.now i.0 }
    ensures { AreInOrder columns.now }
{
    // a set has at most 32 resources, so the slots of a task end before those of the next one
    let _resources = set.resources();
}

/// The columns of the distributed FIFO protocol, and its rows with the closer rows behind them.
#[derive(Clone, Copy, Debug, PartialEq, Eq)]
pub struct CloserDflpRows;

impl ProgramParts for CloserDflpRows {
    ghost serves = { λ p. EachHasHome };

    ghost columns = { λ p. dflp_columns };

    ghost rows = { λ p. dflp_closer_rows };

    fn take_rows<T: RowTaker>(
        &self,
        alloc: Global,
        taker: &mut T,
        set: &TaskSet,
        i: TaskId,
        bounds: &[u64],
    ) -> Result<Vec<Fragment>, AllocError> {
        let columns = Dflp.take_rows(alloc, taker, set, i, bounds)?;
        columns_stand_in_order(set, i, &columns);
        add_home_rows(alloc, taker, set, i, bounds, &columns)?;
        Ok(columns)
    }

    ghost is_program = { λ p set i r served accepted here within. dflp_closer_is_program set i r accepted here within };
}

/// The distributed FIFO protocol, with its closer analysis. It suits task sets in which each resource has a home.
pub type CloserDflp = Closer<Dflp, CloserDflpRows>;

/// The protocol as a value.
pub const CLOSER_DFLP: CloserDflp = Closer {
    plain: Dflp,
    rows: CloserDflpRows,
};

impl FurtherRows<Dflp> for CloserDflpRows {
    ghost source = { λ r. dflp_closer_source };

    fn keeps_limits(&self, set: &TaskSet, i: TaskId, earlier: &[u64], bounds: &[u64]) -> bool {
        keeps_jobs(set, i, earlier, bounds)
    }

    ghost served = { λ r p set suits. suits };

    ghost plain_columns = { λ r p set i. refl };

    ghost further = { λ r p set. refl };

    ghost covers = { λ r p set i bounds c suits here within. dflp_closer_covered set i bounds c within };

    ghost rises = { λ r p set i low high suits here most. dflp_closer_rises set i low high here most };

    ghost meets_rows = { λ r p w bounds n j suits within keeps. dflp_closer_point w bounds n j within keeps };
}
