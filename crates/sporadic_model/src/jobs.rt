ghost use Rattle.std.specs.Prelude.{◌≡◌, ℕ, ◌+◌, ◌*◌, ◌<◌, ◌≤◌};
ghost use Rattle.sporadic_model.specs.SetDef.{jobs_within};

use crate::limits::MOST_TICKS;

/// How many jobs of a task with this bound and this period can run in a window of this many ticks. It is the least number of periods that
/// covers the window and the bound together.
pub fn jobs_in(window: u64, bound: u64, period: u64) -> u64
    requires window { window ≤ MOST_TICKS }
    requires bound { bound ≤ MOST_TICKS }
    requires period { 1 ≤ period }
    ensures value { result ≡ jobs_within window bound period }
    ensures covers { window + bound ≤ result * period }
    ensures least { (k : ℕ) → window + bound ≤ k * period → result ≤ k }
    ensures most { result ≤ 2 * MOST_TICKS }
{
    (window + bound).div_ceil(period)
}
