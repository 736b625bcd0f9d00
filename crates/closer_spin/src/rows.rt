//! The rows in which the closer analysis differs from that of spin locks.

ghost use Rattle.std.specs.Prelude.{◌≡◌, ◌<◌, ◌+◌, [], ◌∷◌, false, map, length, OnOk};
ghost use Rattle.blocking_columns.specs.ColumnDef.{column_seen};
ghost use Rattle.fragments.specs.Constraints.{per, per_pair};
ghost use Rattle.closer_spin_laws.specs.CloserSpinRows.{is_spun_below, is_left_out, closer_spinning_row, closer_spinning_rows};
ghost use Rattle.closer_spin.specs.Groups.{HasGroup};
ghost use Rattle.closer_spin.specs.Closer.{CanMakeRows, CanAddThere, CanAddOne, CanAddSeveral};
ghost use Rattle.closer_spin.specs.Together.{row_together, paired, AreTold};

use crate::groups::{Group, InGroup, Pairing, SpunThere, is_paired, least_above, paired};
use crate::tables::{how_many, sum_passing};
use fragments::{Fragment, RowKind, RowTaker, add_row_limited};
use spin_protocol::{is_from, is_origin, one_if, table_of};
use sporadic_model::{ResourceId, TaskId, TaskSet};
use std::alloc::{AllocError, Global};

/// How many requests of lower tasks are open at a job's release.
const LOWER_REQUESTS: u64 = 1;

/// Of a processor, counted from 1, and a resource: each request of it from the analysed task's processor spins for at most one from
/// there. Where lower tasks may spin so, a lower request of another resource stands in the place of theirs.
#[derive(Drop)]
struct CloserSpinningRow {
    processor: u32,
    resource: ResourceId,
    is_spun_below: bool,
}

impl RowKind for CloserSpinningRow {
    ghost row_of = { λ k set i. closer_spinning_row set i k.processor k.resource.0 };

    ghost fits = { λ k set. k.resource.0 < length set.resources };

    ghost over = { λ k set i c. (k.is_spun_below ≡ is_spun_below set i k.processor k.resource.0)
        × (is_left_out set i k.processor k.resource.0 ≡ false) };

    fn coefficient(&self, set: &TaskSet, _i: TaskId, column: Fragment) -> u64 {
        if column.class.is_preemption() {
            one_if(self.is_spun_below && column.resource != self.resource)
        } else {
            one_if(is_from(set, self.processor, self.resource, column))
        }
    }
}

/// The columns of task `i` at bounds, and what its rows are formed from: for which resources lower tasks may spin on each processor, which
/// ones lower tasks use, how many requests of each `i` and higher tasks make, and where the columns come from.
#[derive(Clone, Copy)]
pub(crate) struct Analysed<'a> {
    pub(crate) set: &'a TaskSet,
    pub(crate) i: TaskId,
    pub(crate) bounds: &'a [u64],
    pub(crate) columns: &'a [Fragment],
    pub(crate) everywhere: &'a [SpunThere],
    pub(crate) below: &'a [bool],
    pub(crate) requests: &'a [u64],
    pub(crate) origins: &'a [bool],
}

/// Adds the row of spinning of a processor and a resource behind those that the taker has.
fn add_closer<T: RowTaker>(
    alloc: Global,
    taker: &mut T,
    task: &Analysed<'_>,
    there: &SpunThere,
    q: u32,
) -> Result<(), AllocError>
    requires { CanAddOne task.now there.now q }
    ensures { OnOk result (T.takes taker.old (map column_seen task.now.columns.now)
        (closer_spinning_row task.now.set.now task.now.i.0 there.now.processor q ∷ []) task.now.bounds.now taker.new) }
{
    let is_spun_below = there.spun[q as usize];
    if there.leaves_out && there.lone[q as usize] {
        return Ok(());
    }
    let resource = ResourceId(q);
    // the tasks of most processors use few of the resources
    if !is_spun_below && !is_origin(task.origins, there.processor, resource) {
        return Ok(());
    }
    let row = CloserSpinningRow {
        processor: there.processor,
        resource,
        is_spun_below,
    };
    let limit = task.requests[q as usize] + one_if(task.below[q as usize]);
    let all = (0, task.columns.len());
    add_row_limited(
        alloc,
        taker,
        &row,
        task.set,
        task.i,
        task.bounds,
        task.columns,
        all,
        limit,
    )
}

/// The same of each resource.
fn add_closer_there<T: RowTaker>(
    alloc: Global,
    taker: &mut T,
    task: &Analysed<'_>,
    there: &SpunThere,
) -> Result<(), AllocError>
    requires { CanAddThere task.now there.now }
    ensures { OnOk result (T.takes taker.old (map column_seen task.now.columns.now)
        (per (length task.now.set.now.resources) (closer_spinning_row task.now.set.now task.now.i.0 there.now.processor))
        task.now.bounds.now taker.new) }
{
    for q in 0..task.set.resources() {
        add_closer(alloc, taker, task, there, q)?;
    }
    Ok(())
}

/// The same of each processor.
pub(crate) fn add_closer_rows<T: RowTaker>(
    alloc: Global,
    taker: &mut T,
    task: &Analysed<'_>,
) -> Result<(), AllocError>
    requires { CanMakeRows task.now }
    ensures { OnOk result (T.takes taker.old (map column_seen task.now.columns.now) (closer_spinning_rows task.now.set.now task.now.i.0)
        task.now.bounds.now taker.new) }
{
    for there in task.everywhere {
        add_closer_there(alloc, taker, task, there)?;
    }
    Ok(())
}

/// Of a processor and several resources of a table: their requests from the analysed task's processor each spin for at most one from
/// there, of lower tasks one of these or of another resource.
#[derive(Drop)]
struct TogetherRow {
    processor: u32,
    group: Group,
    table: Vec<bool>,
}

impl RowKind for TogetherRow {
    ghost row_of = { λ k set i. row_together set i k.processor k.group };

    ghost over = { λ k set i c. AreTold set i k.processor k.group k.table.items };

    fn coefficient(&self, set: &TaskSet, _i: TaskId, column: Fragment) -> u64 {
        let q = column.resource.0 as usize;
        if column.class.is_preemption() {
            one_if(!self.table[q])
        } else {
            // most columns are of other processors
            one_if(set.processor(column.task) == self.processor && self.table[q])
        }
    }
}

/// Adds the row of these resources behind those that the taker has, if they are several.
fn add_several<T: RowTaker>(
    alloc: Global,
    taker: &mut T,
    task: &Analysed<'_>,
    row: &TogetherRow,
) -> Result<(), AllocError>
    requires { CanAddSeveral task.now row.now }
    ensures { OnOk result (T.takes taker.old (map column_seen task.now.columns.now)
        (row_together task.now.set.now task.now.i.0 row.now.processor row.now.group ∷ []) task.now.bounds.now taker.new) }
{
    // a set has at most 32 resources
    let _resources = task.set.resources();
    if how_many(&row.table) <= 1 {
        return Ok(());
    }
    let limit = LOWER_REQUESTS + sum_passing(&row.table, task.requests);
    let all = (0, task.columns.len());
    add_row_limited(
        alloc,
        taker,
        row,
        task.set,
        task.i,
        task.bounds,
        task.columns,
        all,
        limit,
    )
}

/// Adds the row of the group behind those that the taker has, if its resources are several, and enough of them are used above.
fn add_group<T: RowTaker>(
    alloc: Global,
    taker: &mut T,
    task: &Analysed<'_>,
    there: &SpunThere,
    group: Group,
) -> Result<(), AllocError>
    requires there { CanAddThere task.now there.now }
    requires group { HasGroup task.now.set.now group }
    ensures { OnOk result (T.takes taker.old (map column_seen task.now.columns.now)
        (row_together task.now.set.now task.now.i.0 there.now.processor group ∷ []) task.now.bounds.now taker.new) }
{
    if there.above < least_above(group) {
        return Ok(());
    }
    let row = TogetherRow {
        processor: there.processor,
        group,
        table: table_of(alloc, task.set, task.i, &InGroup { there, group })?,
    };
    add_several(alloc, taker, task, &row)
}

/// Adds the row of each processor of a group that names no resource.
pub(crate) fn add_groups<T: RowTaker>(
    alloc: Global,
    taker: &mut T,
    task: &Analysed<'_>,
    group: Group,
) -> Result<(), AllocError>
    requires rows { CanMakeRows task.now }
    requires group { HasGroup task.now.set.now group }
    ensures { OnOk result (T.takes taker.old (map column_seen task.now.columns.now)
        (per task.now.set.now.processors (λ k. row_together task.now.set.now task.now.i.0 (k + 1) group)) task.now.bounds.now taker.new) }
{
    for there in task.everywhere {
        add_group(alloc, taker, task, there, group)?;
    }
    Ok(())
}

/// Adds the row of a resource behind those that the taker has, with what is taken beside it or in its place.
fn add_paired<T: RowTaker>(
    alloc: Global,
    taker: &mut T,
    task: &Analysed<'_>,
    there: &SpunThere,
    pairing: Pairing,
    q: u32,
) -> Result<(), AllocError>
    requires there { CanAddThere task.now there.now }
    requires resource { q < length task.now.set.now.resources }
    ensures { OnOk result (T.takes taker.old (map column_seen task.now.columns.now)
        (row_together task.now.set.now task.now.i.0 there.now.processor (paired pairing q) ∷ []) task.now.bounds.now taker.new) }
{
    // lower tasks spin for few resources
    if !is_paired(task.set, task.i, there, pairing, q) {
        return Ok(());
    }
    let group = paired(pairing, q);
    add_group(alloc, taker, task, there, group)
}

/// The same of each resource.
fn add_pairs_there<T: RowTaker>(
    alloc: Global,
    taker: &mut T,
    task: &Analysed<'_>,
    there: &SpunThere,
    pairing: Pairing,
) -> Result<(), AllocError>
    requires { CanAddThere task.now there.now }
    ensures { OnOk result (T.takes taker.old (map column_seen task.now.columns.now)
        (per (length task.now.set.now.resources) (λ q. row_together task.now.set.now task.now.i.0 there.now.processor (paired pairing q)))
        task.now.bounds.now taker.new) }
{
    for q in 0..task.set.resources() {
        add_paired(alloc, taker, task, there, pairing, q)?;
    }
    Ok(())
}

/// The same of each processor.
pub(crate) fn add_pairs<T: RowTaker>(
    alloc: Global,
    taker: &mut T,
    task: &Analysed<'_>,
    pairing: Pairing,
) -> Result<(), AllocError>
    requires { CanMakeRows task.now }
    ensures { OnOk result (T.takes taker.old (map column_seen task.now.columns.now)
        (per_pair task.now.set.now.processors (length task.now.set.now.resources)
        (λ k q. row_together task.now.set.now task.now.i.0 (k + 1) (paired pairing q))) task.now.bounds.now taker.new) }
{
    for there in task.everywhere {
        add_pairs_there(alloc, taker, task, there, pairing)?;
    }
    Ok(())
}
