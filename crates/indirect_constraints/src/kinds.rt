//! The kinds of rows. Each gives its row for every task or processor.

ghost use Rattle.std.specs.Prelude.{◌≡◌, ◌<◌, ◌≤◌, ◌+◌, ◌&&◌, not, [], ◌∷◌, slice_index};
ghost use Rattle.std.proofs.Common.{ap};
ghost use Rattle.number_laws.specs.Sums.{flag};
ghost use Rattle.blocking_columns.specs.declared.columns.Class.TheVariants.{Indirect, Preemption};
ghost use Rattle.blocking_columns.specs.ColumnDef.{is_class};
ghost use Rattle.blocking_columns.specs.Stretches.{slot, BeginsAt};
ghost use Rattle.blocking_columns.specs.Windows.{all_requests};
ghost use Rattle.indirect_constraints.specs.Asked.{AreAskedAtHome};
ghost use Rattle.indirect_constraints.specs.Rows.{queue_row, holding_row, home_row};
ghost use Rattle.indirect_constraints.specs.Tables.{AreHoldings};

use fragments::{
    Fragment, PerNumber, RowKind, RowTaker, TaskRow, add_row_limited, home, requests_at,
};
use sporadic_model::{TaskId, TaskSet};
use std::alloc::{AllocError, Global};

/// Of a task: each request of the analysed task waits for at most one request of the task.
#[derive(Drop)]
pub(crate) struct Queues {
    /// How many requests a job of the analysed task can make.
    pub(crate) requests: u64,
}

impl TaskRow for Queues {
    ghost row_of = { λ k. queue_row };

    ghost fits = { λ k set i bounds. k.requests ≡ all_requests set i };

    ghost alone = { λ k set i x c other. ap (λ b. flag (b && not (is_class Preemption c.class))) other };

    fn coefficient(&self, _set: &TaskSet, _i: TaskId, _x: TaskId, column: Fragment) -> u64 {
        if column.class.is_preemption() { 0 } else { 1 }
    }

    fn limit(&self, _set: &TaskSet, _i: TaskId, _x: TaskId, _jobs: u64, _bounds: &[u64]) -> u64 {
        self.requests
    }
}

/// Of a task: while another task of its processor holds a resource that the analysed task waits for, it runs at most one request.
#[derive(Drop)]
pub(crate) struct Holdings {
    /// For each task: how many requests that a job of the analysed task may wait for can others hold on its processor.
    pub(crate) counts: Vec<u64>,
}

impl TaskRow for Holdings {
    ghost row_of = { λ k. holding_row };

    ghost fits = { λ k set i bounds. AreHoldings set (slice_index bounds) i k.counts.items };

    ghost alone = { λ k set i x c other. ap (λ b. flag (b && is_class Indirect c.class)) other };

    fn coefficient(&self, _set: &TaskSet, _i: TaskId, _x: TaskId, column: Fragment) -> u64 {
        if column.class.is_indirect() { 1 } else { 0 }
    }

    fn limit(&self, _set: &TaskSet, _i: TaskId, x: TaskId, _jobs: u64, _bounds: &[u64]) -> u64 {
        self.counts[x.0 as usize]
    }
}

/// Of a processor: each request of the analysed task that runs there waits for at most one request of a lower task.
#[derive(Drop)]
struct HomeRow {
    processor: u32,
}

impl RowKind for HomeRow {
    ghost row_of = { λ k set i. home_row set i k.processor };

    ghost fits = { λ k set. k.processor ≤ set.processors };

    ghost over = { λ k set i c. i < c.task };

    fn coefficient(&self, set: &TaskSet, _i: TaskId, column: Fragment) -> u64 {
        if !column.class.is_preemption() && home(set, column.resource) == self.processor {
            1
        } else {
            0
        }
    }
}

/// The rows of homes, one for each processor. If the analysed task requests none of its resources, no column is in its row.
#[derive(Drop)]
pub(crate) struct Homes {
    /// Where the columns of tasks lower than the analysed one begin.
    pub(crate) from: usize,
}

impl PerNumber for Homes {
    ghost rows_of = { λ k set i n. home_row set i (n + 1) ∷ [] };

    ghost fits = { λ k set i columns n. (n < set.processors) × AreAskedAtHome set i columns × BeginsAt (slot (i + 1) 0) columns k.from };

    fn add<T: RowTaker>(
        &self,
        alloc: Global,
        taker: &mut T,
        set: &TaskSet,
        i: TaskId,
        number: u32,
        bounds: &[u64],
        columns: &[Fragment],
    ) -> Result<(), AllocError> {
        // a set has at most 32 resources, so the slots of a task end before those of the next one
        let _resources = set.resources();
        // processors are numbered from 1, and a set has few
        let _processors = set.processors();
        let processor = number + 1;
        let asked = requests_at(set, i, processor);
        if asked == 0 {
            return Ok(());
        }
        let row = HomeRow { processor };
        let lower = (self.from, columns.len());
        add_row_limited(alloc, taker, &row, set, i, bounds, columns, lower, asked)
    }
}
