//! Up to how many ticks as many jobs of each task can run as in one tick. In all spans up to that one others can hold a resource equally long.

ghost use Rattle.std.specs.Prelude.{slice_index};
ghost use Rattle.sporadic_model.specs.Bounds.{AreWithinDeadlines};
ghost use Rattle.closer_mpcp.specs.Given.{IsTaskAt, AreTwoBounds, IsTaskAtTwoBounds};
ghost use Rattle.closer_mpcp.specs.Steady.{IsSteady, AllJobsStay, IsCommonOf, AreCommon};

use sporadic_model::{MOST_TICKS, TaskId, TaskSet, jobs_in};

/// The jobs of a task that can run in one tick.
#[derive(Drop)]
pub(crate) struct Steady {
    /// How many there are.
    pub(crate) jobs: u64,
    /// Up to how many ticks no more can run.
    pub(crate) ticks: u64,
}

// Those of `x` at these bounds.
fn steady_of(set: &TaskSet, bounds: &[u64], x: TaskId) -> Steady
    requires { IsTaskAt set.now bounds.now x.0 }
    ensures { IsSteady set.now (slice_index bounds.now) x.0 result }
{
    // no bound and jitter together are above the deadline of their task, which is within the limits of every set
    let _tasks = set.tasks();
    let bound = bounds[x.0 as usize] + set.jitter(x);
    let period = set.period(x);
    let jobs = jobs_in(1, bound, period);
    let ticks = jobs * period - bound;
    Steady { jobs, ticks }
}

/// Up to how many ticks can as many jobs of each task run as in one tick?
pub(crate) fn steady_ticks(set: &TaskSet, bounds: &[u64]) -> u64
    requires { AreWithinDeadlines set.now bounds.now }
    ensures { AllJobsStay set.now (slice_index bounds.now) result }
{
    // no deadline is longer
    let mut ticks = MOST_TICKS;
    for x in 0..set.tasks() {
        ticks = steady_of(set, bounds, TaskId(x)).ticks.min(ticks);
    }
    ticks
}

// Up to how many ticks do as many jobs of `x` run as in one tick, equally many at both bounds?
fn common_ticks_of(set: &TaskSet, earlier: &[u64], bounds: &[u64], x: TaskId) -> u64
    requires { IsTaskAtTwoBounds set.now earlier.now bounds.now x.0 }
    ensures { IsCommonOf set.now (slice_index earlier.now) (slice_index bounds.now) x.0 result }
{
    let before = steady_of(set, earlier, x);
    let now = steady_of(set, bounds, x);
    if before.jobs == now.jobs {
        before.ticks.min(now.ticks)
    } else {
        0
    }
}

/// Up to how many ticks is that so of each task?
pub(crate) fn common_ticks(set: &TaskSet, earlier: &[u64], bounds: &[u64]) -> u64
    requires { AreTwoBounds set.now earlier.now bounds.now }
    ensures { AreCommon set.now (slice_index earlier.now) (slice_index bounds.now) result }
{
    let mut ticks = MOST_TICKS;
    for x in 0..set.tasks() {
        ticks = common_ticks_of(set, earlier, bounds, TaskId(x)).min(ticks);
    }
    ticks
}
