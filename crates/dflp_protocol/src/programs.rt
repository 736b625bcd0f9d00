//! The protocol's programs. So its sets can be analysed, and its certificates checked.

ghost use Rattle.std.specs.Prelude.{map, OnOk};
ghost use Rattle.sporadic_model.specs.Homes.{EachHasHome};
ghost use Rattle.blocking_columns.specs.ColumnDef.{column_seen};
ghost use Rattle.blocking_columns.specs.Asked.{AreAskedBeside};
ghost use Rattle.dflp_laws.specs.Programs.{is_dflp_column, dflp_columns, dflp_rows, dflp_source};
ghost use Rattle.dflp_laws.proofs.Programs.{dflp_covered, dflp_rises, dflp_is_program};
ghost use Rattle.blocking_columns.specs.Given.{AreInOrderAt};

use crate::Dflp;
use crate::queues::add_queues;
use direct_constraints::{add_common, add_turn_rows};
use fragments::{
    ColumnTest, Fragment, RowTaker, asked_beside, blocks_at_home, fragments_where,
    passing_stand_in_order,
};
use preempt_constraints::add_interval_rows;
use program_form::{Program, SparseProgram};
use program_sources::ProgramSource;
use protocol_programs::{
    ProgramParts, interference, keeps_jobs, limits_with, program_with, sparse_program_with,
};
use sporadic_model::{Protocol, TaskId, TaskSet};
use std::alloc::{AllocError, Global};

/// The test of a task's columns. It has a table that says of each resource whether the task requests another one of its home.
#[derive(Drop)]
struct DflpColumns {
    beside: Vec<bool>,
}

impl ColumnTest for DflpColumns {
    ghost use Rattle.blocking_columns.specs.Requested.{columns_are_requests};
    ghost use Rattle.blocking_columns.specs.Columns.{blocks_at_home};

    ghost passes = { λ k set i c. is_dflp_column set i c };

    ghost requests = { λ k set i. columns_are_requests (λ x. blocks_at_home set i) set i };

    ghost fits = { λ k set i x. AreAskedBeside set i k.beside.items };

    fn test(&self, set: &TaskSet, i: TaskId, column: Fragment) -> bool {
        column.task != i && blocks_at_home(set, i, column, &self.beside)
    }
}

/// Adds the rows of the protocol, in their order, behind those that the taker has.
fn add_rows<T: RowTaker>(
    alloc: Global,
    taker: &mut T,
    set: &TaskSet,
    i: TaskId,
    bounds: &[u64],
    columns: &[Fragment],
) -> Result<(), AllocError>
    requires { AreInOrderAt set.now bounds.now i.0 columns.now }
    ensures { OnOk result (T.takes taker.old (map column_seen columns.now) (dflp_rows set.now i.0) bounds.now taker.new) }
{
    let places = add_common(alloc, taker, set, i, bounds, columns)?;
    add_interval_rows(alloc, taker, set, i, bounds, columns, &places)?;
    add_turn_rows(alloc, taker, set, i, bounds, columns, &places)?;
    add_queues(alloc, taker, set, i, bounds, columns, &places)?;
    Ok(())
}

impl ProgramParts for Dflp {
    ghost serves = { λ p. EachHasHome };

    ghost columns = { λ p. dflp_columns };

    ghost rows = { λ p. dflp_rows };

    fn take_rows<T: RowTaker>(
        &self,
        alloc: Global,
        taker: &mut T,
        set: &TaskSet,
        i: TaskId,
        bounds: &[u64],
    ) -> Result<Vec<Fragment>, AllocError> {
        let test = DflpColumns {
            beside: asked_beside(alloc, set, i)?,
        };
        let columns = fragments_where(alloc, &test, set, i)?;
        passing_stand_in_order(set, &test, i, &columns);
        add_rows(alloc, taker, set, i, bounds, &columns)?;
        Ok(columns)
    }

    ghost is_program = { λ p set i r served accepted here within. dflp_is_program set i r accepted here within };
}

impl ProgramSource for Dflp {
    ghost serves = { λ p. EachHasHome };

    ghost source = { λ p. dflp_source };

    ghost covers = { λ p set i r c served here within. dflp_covered set i r c within };

    ghost rises = { λ p set i r s served here most. dflp_rises set i r s here most };

    ghost is_program = { λ p set i r served accepted here within. dflp_is_program set i r accepted here within };

    ghost least = { λ p set h served here numbers. numbers.local_from };

    ghost most = { λ p set h served here numbers. numbers.local_to };

    fn program(
        &self,
        alloc: Global,
        set: &TaskSet,
        i: TaskId,
        bounds: &[u64],
    ) -> Result<Program, AllocError> {
        program_with(alloc, self, set, i, bounds)
    }

    fn sparse_program(
        &self,
        alloc: Global,
        set: &TaskSet,
        i: TaskId,
        bounds: &[u64],
    ) -> Result<SparseProgram, AllocError> {
        sparse_program_with(alloc, self, set, i, bounds)
    }

    fn limits(
        &self,
        alloc: Global,
        set: &TaskSet,
        i: TaskId,
        bounds: &[u64],
    ) -> Result<Vec<u64>, AllocError> {
        limits_with(alloc, self, set, i, bounds)
    }

    fn keeps_limits(&self, set: &TaskSet, i: TaskId, earlier: &[u64], bounds: &[u64]) -> bool {
        keeps_jobs(set, i, earlier, bounds)
    }

    /// A job interferes as under DPCP: for its local limit.
    fn interference(&self, set: &TaskSet, i: TaskId, bounds: &[u64]) -> u64 {
        interference(set, Protocol::Dpcp, i, bounds)
    }
}
