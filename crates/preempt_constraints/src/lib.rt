//! The rows of preemption blocking: how often requests of lower tasks can preempt a job of the analysed task on its processor.
#![tactic(auto)]

ghost use Rattle.std.specs.Prelude.{◌≡◌, ◌+◌, map, IfOk, OnOk, [], ◌∷◌, if◌then◌else◌, ◌&&◌};
ghost use Rattle.std.proofs.Common.{ap};
ghost use Rattle.number_laws.specs.Sums.{flag};
ghost use Rattle.program_form.specs.RowBlock.{block_seen};
ghost use Rattle.blocking_columns.specs.declared.columns.Class.TheVariants.{Preemption};
ghost use Rattle.blocking_columns.specs.Given.{AreColumnsAt, AreLaidOut};
ghost use Rattle.blocking_columns.specs.ColumnDef.{column_seen, is_class};
ghost use Rattle.blocking_columns.specs.Columns.{columns_of, is_lower_local};
ghost use Rattle.blocking_columns.specs.Windows.{all_requests};
ghost use Rattle.fragments.specs.Constraints.{block_of};
ghost use Rattle.preempt_constraints.specs.Rows.{interval_row, preemption_rows};

use fragments::{
    Fragment, PerTask, RowTaker, TaskPlace, TaskRow, add_per_lower_task, add_row_of_task,
    columns_stand_in_order, lower_local, requests_of, task_places,
};
use program_form::RowBlock;
use sporadic_model::{Protocol, TaskId, TaskSet};
use std::alloc::{AllocError, Global};

// Of one task: in each interval in which a job of the analysed task can be preempted, at most one of the task's requests preempts it.
#[derive(Drop)]
struct Interval {
    // How many intervals a job of the analysed task has: one begins at its release, and one at the end of each request.
    intervals: u64,
}

impl TaskRow for Interval {
    ghost row_of = { λ k. interval_row };

    ghost fits = { λ k set i bounds. k.intervals ≡ 1 + all_requests set i };

    ghost alone = { λ k set i x c other. ap (λ b. flag (b && is_class Preemption c.class)) other };

    fn coefficient(&self, _set: &TaskSet, _i: TaskId, _x: TaskId, column: Fragment) -> u64 {
        if column.class.is_preemption() { 1 } else { 0 }
    }

    fn limit(&self, _set: &TaskSet, _i: TaskId, _x: TaskId, _jobs: u64, _bounds: &[u64]) -> u64 {
        self.intervals
    }
}

// The rows of intervals, one for each lower task on the analysed task's processor.
#[derive(Drop)]
struct Intervals(Interval);

impl PerTask for Intervals {
    ghost rows_of = { λ k set i x. if is_lower_local set i x then interval_row set i x ∷ [] else [] };

    ghost fits = { λ k set i bounds. k.0.intervals ≡ 1 + all_requests set i };

    fn add<T: RowTaker>(
        &self,
        alloc: Global,
        taker: &mut T,
        set: &TaskSet,
        i: TaskId,
        x: TaskId,
        jobs: u64,
        bounds: &[u64],
        columns: &[Fragment],
        stretch: (usize, usize),
    ) -> Result<(), AllocError> {
        if !lower_local(set, i, x) {
            return Ok(());
        }
        add_row_of_task(
            alloc, taker, &self.0, set, i, x, jobs, bounds, columns, stretch,
        )
    }
}

/// Adds the rows of preemption blocking behind those that the taker has, over any columns in order. There is one for each lower task on
/// `i`'s processor that has a column of preemption. Its limit is one more than the requests that a job of `i` can make.
pub fn add_interval_rows<T: RowTaker>(
    alloc: Global,
    taker: &mut T,
    set: &TaskSet,
    i: TaskId,
    bounds: &[u64],
    columns: &[Fragment],
    places: &[TaskPlace],
) -> Result<(), AllocError>
    requires laid { AreLaidOut set.now bounds.now i.0 columns.now places.now }
    ensures { OnOk result (T.takes taker.old (map column_seen columns.now) (preemption_rows set.now i.0) bounds.now taker.new) }
{
    let rows = Intervals(Interval {
        intervals: 1 + requests_of(set, i),
    });
    add_per_lower_task(alloc, taker, &rows, set, i, bounds, columns, places)
}

/// The rows of preemption blocking, the same under every protocol. It fails only for want of memory.
pub fn rows(
    alloc: Global,
    set: &TaskSet,
    protocol: Protocol,
    i: TaskId,
    bounds: &[u64],
    columns: &[Fragment],
) -> Result<RowBlock, AllocError>
    requires { AreColumnsAt protocol set.now bounds.now i.0 columns.now }
    ensures { IfOk result (λ b. block_seen b ≡ block_of (columns_of protocol set.now i.0) (preemption_rows set.now i.0) bounds.now) }
{
    let mut block = RowBlock {
        rows: Vec::new(alloc),
        limits: Vec::new(alloc),
    };
    columns_stand_in_order(set, protocol, i, columns);
    let places = task_places(alloc, set, i, bounds, columns)?;
    add_interval_rows(alloc, &mut block, set, i, bounds, columns, &places)?;
    Ok(block)
}
