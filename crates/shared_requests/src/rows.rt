//! A closer row that several protocols have.

ghost use Rattle.std.specs.Prelude.{◌≡◌};
ghost use Rattle.closer_laws.specs.CloserRows.{local_preemption_row};

use crate::sharing::is_shared_out;
use fragments::{Fragment, RowKind};
use sporadic_model::{TaskId, TaskSet};

/// In so many intervals at most one request of what only the analysed task's processor uses preempts its job.
#[derive(Drop)]
pub struct LocalPreemptionRow;

impl RowKind for LocalPreemptionRow {
    ghost row_of = { λ k. local_preemption_row };

    fn coefficient(&self, set: &TaskSet, i: TaskId, column: Fragment) -> u64 {
        if column.class.is_preemption() && !is_shared_out(set, i, column.resource) {
            1
        } else {
            0
        }
    }
}
