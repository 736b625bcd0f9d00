ghost use Rattle.std.specs.Prelude.{◌≡◌, ◌+◌, ◌≤◌, OnOk};
ghost use Rattle.sporadic_model.specs.declared.limits.TheConstants.{MOST_TICKS};
ghost use Rattle.schedule_model.specs.Fitting.{with_run};
ghost use Rattle.schedule_model.specs.Seen.{row_seen, run_seen};
ghost use Rattle.sim_engine.specs.Writing.{CanEnd, AddsRows};

use crate::places::{copy_of, is_same_row};
use schedule_model::{Row, RowList, RowRefusal, RowRun};
use std::alloc::{AllocError, Global};
use std::mem;

/// Puts a run at the end of the list, which refuses it only for want of memory.
pub(crate) fn push_run(rows: &mut RowList, run: RowRun) -> Result<(), AllocError>
    requires { CanEnd rows.old (run_seen run) }
    ensures { OnOk result (rows.new ≡ with_run rows.old (run_seen run)) }
{
    match rows.push(run) {
        Ok(()) => Ok(()),
        Err(RowRefusal::Memory) => Err(AllocError),
        Err(_) => unreachable!(),
    }
}

/// Writes the row for this many ticks. If the last run has this row, it goes on. Else it ends, and a run of this row begins.
pub(crate) fn add_rows(
    alloc: Global,
    rows: &mut RowList,
    last: &mut RowRun,
    row: &Row,
    ticks: u64,
) -> Result<(), AllocError>
    requires ends { CanEnd rows.old (run_seen last.old) }
    requires room { last.old.ticks + ticks ≤ MOST_TICKS }
    ensures { OnOk result (AddsRows rows.old (run_seen last.old) (row_seen row.now) ticks rows.new (run_seen last.new)) }
{
    if is_same_row(&last.row, row) {
        last.ticks += ticks;
        return Ok(());
    }
    let next = RowRun {
        ticks,
        row: copy_of(alloc, row)?,
    };
    push_run(rows, mem::replace(last, next))
}
