//! The window of a request.

ghost use Rattle.std.specs.Prelude.{slice_index};
ghost use Rattle.closer_mpcp.specs.Given.{IsRequestAt};
ghost use Rattle.closer_mpcp.specs.Steady.{AllJobsStay};
ghost use Rattle.closer_mpcp.specs.Tables.{AreHolders};
ghost use Rattle.closer_mpcp.specs.Windows.{IsWindow};

use crate::lower_holders::{OtherHolders, other_holders};
use crate::ticks::ticks_held;
use sporadic_model::{ResourceId, TaskId, TaskSet};

/// Within how many ticks of its issue is a request of `q` by `i` granted under MPCP at these bounds? It is the least number, from 1 on, that
/// is at least as long as other tasks may hold `q` in that many ticks. None exactly if no such number is within the deadline of `i`. The
/// search goes up: if a number isn't enough, no number is that is less than the ticks for which `q` may be held in that many. These are
/// enough themselves if as many jobs of each task can run in them as in one tick, so up to `steady` ticks. It takes no memory.
pub(crate) fn window_with(
    set: &TaskSet,
    i: TaskId,
    q: ResourceId,
    bounds: &[u64],
    steady: u64,
    holders: &OtherHolders,
) -> Option<u64>
    requires request { IsRequestAt set.now bounds.now i.0 q.0 }
    requires steady { AllJobsStay set.now (slice_index bounds.now) steady }
    requires holders { AreHolders set.now i.0 q.0 holders.now }
    ensures { IsWindow set.now (slice_index bounds.now) i.0 q.0 result }
{
    let deadline = set.deadline(i);
    let steady = steady.min(deadline);
    let mut span = 1u64;
    while span <= deadline {
        let held = ticks_held(set, i, q, bounds, holders, span);
        let within = steady.max(span);
        if held <= u128::from(within) {
            let window = span.max(held as u64);
            return Some(window);
        }
        span = held.min(u128::from(deadline) + 1) as u64;
    }
    None
}

/// The same, where it isn't known yet what others may do with `q`.
pub(crate) fn wait_window(
    set: &TaskSet,
    i: TaskId,
    q: ResourceId,
    bounds: &[u64],
    steady: u64,
) -> Option<u64>
    requires request { IsRequestAt set.now bounds.now i.0 q.0 }
    requires steady { AllJobsStay set.now (slice_index bounds.now) steady }
    ensures { IsWindow set.now (slice_index bounds.now) i.0 q.0 result }
{
    window_with(set, i, q, bounds, steady, &other_holders(set, i, q))
}
