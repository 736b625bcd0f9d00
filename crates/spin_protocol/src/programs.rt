//! The parts of the protocol's programs: their columns and rows.

ghost use Rattle.std.specs.Prelude.{◌≡◌, ◌<◌, ◌+◌, ◌&&◌, ◌==◌, not, length, map, [], ◌∷◌, IfOk, OnOk};
ghost use Rattle.schedule_model.specs.Protocols.{EachSetSuits};
ghost use Rattle.blocking_columns.specs.ColumnDef.{column_seen, AreKnown};
ghost use Rattle.blocking_columns.specs.Stretches.{AreInOrder};
ghost use Rattle.blocking_columns.specs.Given.{AreInOrderAt};
ghost use Rattle.blocking_columns.specs.Columns.{have_one_processor};
ghost use Rattle.fragments.specs.Constraints.{per_pair};
ghost use Rattle.spin_charging.specs.SpinPrograms.{is_used_beside, is_spin_column};
ghost use Rattle.spin_charging.specs.SpinPrograms.{spin_columns, lower_request_row, own_spinning_row, spin_rows};
ghost use Rattle.spin_charging.proofs.SpinPrograms.{spin_is_program};
ghost use Rattle.spin_protocol.specs.SpinRows.{rows_of_kind};
ghost use Rattle.blocking_columns.specs.Given.{AreKnownAt};
ghost use Rattle.spin_protocol.specs.Given.{AreTwoTasks};
ghost use Rattle.spin_protocol.specs.Used.{AreUsedBeside};

use crate::Spin;
use crate::origins::origins_of;
use crate::rows::{LowerRequestRow, Spinning, SpinningRows};
use crate::tables::{ResourceTest, table_of};
use direct_constraints::add_common;
use fragments::{
    Class, ColumnTest, Fragment, RowTaker, add_per_number, add_row, fragments_where, lower_local,
    passing_stand_in_order, share_processor, uses,
};
use protocol_programs::ProgramParts;
use sporadic_model::{ResourceId, TaskId, TaskSet};
use std::alloc::{AllocError, Global};

/// Is `z` another task of `i`'s processor?
fn is_beside(set: &TaskSet, i: TaskId, z: TaskId) -> bool
    requires { AreTwoTasks set.now i.0 z.0 }
    ensures { result ≡ (not (z.0 == i.0) && have_one_processor set.now z.0 i.0) }
{
    z != i && share_processor(set, z, i)
}

/// Does another task of `i`'s processor use the resource?
#[derive(Drop)]
struct UsedBeside;

impl ResourceTest for UsedBeside {
    ghost fits = { λ t set i. i < length set.tasks };

    ghost passes = { λ t. is_used_beside };

    fn test(&self, set: &TaskSet, i: TaskId, q: ResourceId) -> bool {
        let users = set.users(q);
        for z in users {
            if is_beside(set, i, *z) {
                return true;
            }
        }
        false
    }
}

/// The test of a task's columns. It has a table that says of each resource whether another task of its processor uses it.
#[derive(Drop)]
struct SpinColumns {
    used: Vec<bool>,
}

impl ColumnTest for SpinColumns {
    ghost use Rattle.blocking_columns.specs.Requested.{columns_are_requests};
    ghost use Rattle.spin_charging.specs.SpinPrograms.{blocks_by_spinning};

    ghost passes = { λ k set i. is_spin_column set i };

    ghost requests = { λ k set i. columns_are_requests (blocks_by_spinning set i) set i };

    ghost fits = { λ k set i x. AreUsedBeside set i k.used.items };

    fn test(&self, set: &TaskSet, i: TaskId, column: Fragment) -> bool {
        if column.task == i {
            return false;
        }
        match column.class {
            Class::Direct => {
                !share_processor(set, column.task, i) && uses(set, i, column.resource)
            }
            Class::Indirect => {
                !share_processor(set, column.task, i) && self.used[column.resource.0 as usize]
            }
            Class::Preemption => lower_local(set, i, column.task),
        }
    }
}

/// Adds the rows of this kind, for each processor, behind those that the taker has, over the columns of the task's program.
fn add_spinning_rows<T: RowTaker>(
    alloc: Global,
    taker: &mut T,
    set: &TaskSet,
    spinning: Spinning,
    i: TaskId,
    bounds: &[u64],
    columns: &[Fragment],
) -> Result<(), AllocError>
    requires at { AreKnownAt set.now bounds.now i.0 columns.now }
    requires columns { map column_seen columns.now ≡ spin_columns set.now i.0 }
    ensures { OnOk result (T.takes taker.old (map column_seen columns.now) (rows_of_kind spinning set.now i.0) bounds.now taker.new) }
{
    let processors = set.processors();
    let origins = origins_of(alloc, set, columns)?;
    let rows = SpinningRows {
        spinning,
        origins: &origins,
    };
    add_per_number(alloc, taker, &rows, set, processors, i, bounds, columns)
}

/// Adds the rows of own spinning behind those that the taker has, over the columns of the task's program: each request of a resource by
/// the analysed task spins for at most one request of each processor.
pub fn add_own_spinning<T: RowTaker>(
    alloc: Global,
    taker: &mut T,
    set: &TaskSet,
    i: TaskId,
    bounds: &[u64],
    columns: &[Fragment],
) -> Result<(), AllocError>
    requires at { AreKnownAt set.now bounds.now i.0 columns.now }
    requires columns { map column_seen columns.now ≡ spin_columns set.now i.0 }
    ensures { OnOk result (T.takes taker.old (map column_seen columns.now)
        (per_pair set.now.processors (length set.now.resources) (λ k q. own_spinning_row set.now i.0 (k + 1) q)) bounds.now taker.new) }
{
    add_spinning_rows(alloc, taker, set, Spinning::Own, i, bounds, columns)
}

/// Adds the row of lower requests behind those that the taker has: one request of the lower tasks of the analysed task's processor
/// blocks by preemption.
pub fn add_lower_requests<T: RowTaker>(
    alloc: Global,
    taker: &mut T,
    set: &TaskSet,
    i: TaskId,
    bounds: &[u64],
    columns: &[Fragment],
) -> Result<(), AllocError>
    requires { AreKnownAt set.now bounds.now i.0 columns.now }
    ensures { OnOk result (T.takes taker.old (map column_seen columns.now) (lower_request_row ∷ []) bounds.now taker.new) }
{
    add_row(alloc, taker, &LowerRequestRow, set, i, bounds, columns)
}

/// Adds all rows, in their order, behind those that the taker has, over the columns of the task's program.
fn add_rows<T: RowTaker>(
    alloc: Global,
    taker: &mut T,
    set: &TaskSet,
    i: TaskId,
    bounds: &[u64],
    columns: &[Fragment],
) -> Result<(), AllocError>
    requires ordered { AreInOrderAt set.now bounds.now i.0 columns.now }
    requires columns { map column_seen columns.now ≡ spin_columns set.now i.0 }
    ensures { OnOk result (T.takes taker.old (map column_seen columns.now) (spin_rows set.now i.0) bounds.now taker.new) }
{
    add_common(alloc, taker, set, i, bounds, columns)?;
    add_lower_requests(alloc, taker, set, i, bounds, columns)?;
    add_spinning_rows(alloc, taker, set, Spinning::All, i, bounds, columns)?;
    add_own_spinning(alloc, taker, set, i, bounds, columns)?;
    Ok(())
}

/// The columns of task `i`'s program. It refuses for want of memory alone.
pub fn spin_fragments(alloc: Global, set: &TaskSet, i: TaskId) -> Result<Vec<Fragment>, AllocError>
    requires { i.0 < length set.now.tasks }
    ensures columns { IfOk result (λ v. map column_seen v.items ≡ spin_columns set.now i.0) }
    ensures known { IfOk result (λ v. AreKnown (length set.now.tasks) (length set.now.resources) v.items) }
    ensures order { IfOk result (λ v. AreInOrder v.items) }
{
    let test = SpinColumns {
        used: table_of(alloc, set, i, &UsedBeside)?,
    };
    let columns = fragments_where(alloc, &test, set, i)?;
    passing_stand_in_order(set, &test, i, &columns);
    Ok(columns)
}

impl ProgramParts for Spin {
    ghost serves = { λ p. EachSetSuits };

    ghost columns = { λ p. spin_columns };

    ghost rows = { λ p. spin_rows };

    fn take_rows<T: RowTaker>(
        &self,
        alloc: Global,
        taker: &mut T,
        set: &TaskSet,
        i: TaskId,
        bounds: &[u64],
    ) -> Result<Vec<Fragment>, AllocError> {
        let columns = spin_fragments(alloc, set, i)?;
        add_rows(alloc, taker, set, i, bounds, &columns)?;
        Ok(columns)
    }

    ghost is_program = { λ p set i r served accepted here within. spin_is_program set i r accepted here within };
}
