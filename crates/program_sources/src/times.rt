ghost use Rattle.std.specs.Prelude.{◌≡◌, ◌<◌, ◌^◌, length};
ghost use Rattle.sporadic_model.specs.Bounds.{AreWithinDeadlines, AreFromCostsAbove};
ghost use Rattle.program_sources.specs.Recurrence.{source_at, response_with};

use crate::source::ProgramSource;
use sporadic_model::{TaskId, TaskSet};

/// The response time of task `i` at these bounds, if its job is blocked for this long. All are in ticks.
pub fn response<P: ProgramSource>(
    set: &TaskSet,
    protocol: &P,
    i: TaskId,
    bounds: &[u64],
    blocking: u64,
) -> u64
    requires serves { P.serves protocol.now set.now }
    requires task { i.0 < length set.now.tasks }
    requires within { AreWithinDeadlines set.now bounds.now }
    requires from_costs { AreFromCostsAbove set.now bounds.now i.0 }
    requires most { blocking < 2 ^ 63 }
    ensures { result ≡ response_with (source_at (P.source protocol.now) set.now) bounds.now i.0 blocking }
{
    // a set has at most 64 tasks and no cost is large, so the sum fits
    set.keeps_the_model();
    set.cost(i) + blocking + protocol.interference(set, i, bounds)
}
