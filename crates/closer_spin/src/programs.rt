//! What the closer programs are made of: the columns of spin locks, and rows that say more.

ghost use Rattle.std.specs.Prelude.{◌≡◌, ◌<◌, ◌++◌, map, OnOk};
ghost use Rattle.schedule_model.specs.Protocols.{EachSetSuits};
ghost use Rattle.blocking_columns.specs.ColumnDef.{column_seen};
ghost use Rattle.spin_charging.specs.SpinPrograms.{spin_columns};
ghost use Rattle.closer_spin_laws.specs.CloserSpinRows.{together_rows, closer_spinning_rows, lone_spinning_rows, spin_closer_rows};
ghost use Rattle.closer_spin_laws.proofs.Programs.{spin_closer_is_program};
ghost use Rattle.blocking_columns.specs.Given.{AreInOrderAt, AreKnownAt};
ghost use Rattle.closer_spin.specs.Closer.{CanMakeRows};

use crate::groups::{Group, Pairing, spun_everywhere};
use crate::rows::{Analysed, add_closer_rows, add_groups, add_pairs};
use crate::tables::{UsedAbove, UsedBelow, requests_above};
use direct_constraints::add_common;
use fragments::{Fragment, RowTaker};
use protocol_programs::ProgramParts;
use spin_protocol::{add_lower_requests, add_own_spinning, origins_of, spin_fragments, table_of};
use sporadic_model::{TaskId, TaskSet};
use std::alloc::{AllocError, Global};

/// Adds the rows of several resources together behind those that the taker has.
fn add_together_rows<T: RowTaker>(
    alloc: Global,
    taker: &mut T,
    task: &Analysed<'_>,
) -> Result<(), AllocError>
    requires { CanMakeRows task.now }
    ensures { OnOk result (T.takes taker.old (map column_seen task.now.columns.now) (together_rows task.now.set.now task.now.i.0)
        task.now.bounds.now taker.new) }
{
    let all = Group::All;
    add_groups(alloc, taker, task, all)?;
    let others = Pairing::Others;
    add_pairs(alloc, taker, task, others)?;
    let lone = Pairing::Lone;
    add_pairs(alloc, taker, task, lone)?;
    Ok(())
}

/// Adds the rows of several resources together, those of resources for which only lower tasks may spin, and those of spinning, behind
/// those that the taker has.
fn add_closer_part<T: RowTaker>(
    alloc: Global,
    taker: &mut T,
    set: &TaskSet,
    i: TaskId,
    bounds: &[u64],
    columns: &[Fragment],
) -> Result<(), AllocError>
    requires { AreKnownAt set.now bounds.now i.0 columns.now }
    ensures { OnOk result (T.takes taker.old (map column_seen columns.now)
        (together_rows set.now i.0 ++ (lone_spinning_rows set.now i.0 ++ closer_spinning_rows set.now i.0)) bounds.now taker.new) }
{
    let below = table_of(alloc, set, i, &UsedBelow)?;
    let above = table_of(alloc, set, i, &UsedAbove)?;
    let everywhere = spun_everywhere(alloc, set, i, &below, &above)?;
    let requests = requests_above(alloc, set, i, bounds)?;
    let origins = origins_of(alloc, set, columns)?;
    let task = Analysed {
        set,
        i,
        bounds,
        columns,
        everywhere: &everywhere,
        below: &below,
        requests: &requests,
        origins: &origins,
    };
    add_together_rows(alloc, taker, &task)?;
    add_groups(alloc, taker, &task, Group::Lone)?;
    add_closer_rows(alloc, taker, &task)?;
    Ok(())
}

/// Adds all rows, in their order, behind those that the taker has.
fn add_rows<T: RowTaker>(
    alloc: Global,
    taker: &mut T,
    set: &TaskSet,
    i: TaskId,
    bounds: &[u64],
    columns: &[Fragment],
) -> Result<(), AllocError>
    requires ordered { AreInOrderAt set.now bounds.now i.0 columns.now }
    requires columns { map column_seen columns.now ≡ spin_columns set.now i.0 }
    ensures { OnOk result (T.takes taker.old (map column_seen columns.now) (spin_closer_rows set.now i.0) bounds.now taker.new) }
{
    add_common(alloc, taker, set, i, bounds, columns)?;
    add_lower_requests(alloc, taker, set, i, bounds, columns)?;
    add_own_spinning(alloc, taker, set, i, bounds, columns)?;
    add_closer_part(alloc, taker, set, i, bounds, columns)?;
    Ok(())
}

/// The columns of spin locks, and rows that say more than theirs.
#[derive(Clone, Copy, Debug, PartialEq, Eq)]
pub struct CloserSpinRows;

impl ProgramParts for CloserSpinRows {
    ghost serves = { λ p. EachSetSuits };

    ghost columns = { λ p. spin_columns };

    ghost rows = { λ p. spin_closer_rows };

    fn take_rows<T: RowTaker>(
        &self,
        alloc: Global,
        taker: &mut T,
        set: &TaskSet,
        i: TaskId,
        bounds: &[u64],
    ) -> Result<Vec<Fragment>, AllocError> {
        let columns = spin_fragments(alloc, set, i)?;
        add_rows(alloc, taker, set, i, bounds, &columns)?;
        Ok(columns)
    }

    ghost is_program = { λ p set i r served accepted here within. spin_closer_is_program set i r accepted here within };
}
