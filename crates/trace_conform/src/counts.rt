ghost use Rattle.std.specs.Prelude.{◌≡◌, ℕ, Bool, length, IfOk};
ghost use Rattle.schedule_model.specs.RowDef.{Trace, row_in};
ghost use Rattle.phase_machine.specs.MachineDef.{under};
ghost use Rattle.trace_conform.specs.Counts.{counted_at, CanCountJob, CanCountIn, CanCountTicks, CountsJob, AddsTicks, AreCounts};

use phase_machine::{Judge, Machine};
use schedule_model::{JobId, RowReader};
use sporadic_model::TaskId;
use std::alloc::{AllocError, Global};

/// What is counted of a job while its schedule is judged.
#[derive(Clone, Copy, Debug, PartialEq, Eq)]
pub struct JobCount {
    /// The ticks so far at which it was blocked.
    pub blocked: u64,
    /// The tick after the last one so far at which it was active, and 0 before the first.
    pub end: u64,
}

/// The counts of this many jobs before the first row: nothing is counted yet.
pub fn no_counts(alloc: Global, jobs: u32) -> Result<Vec<JobCount>, AllocError>
    ensures { IfOk result (λ v. (interferes : Trace → ℕ → ℕ → Bool) (w : Trace) → length w.jobs ≡ jobs → AreCounts interferes w 0 v.items) }
{
    let mut counts = Vec::with_capacity(alloc, jobs as usize)?;
    for _ in 0..jobs {
        counts.push(JobCount { blocked: 0, end: 0 })?;
    }
    Ok(counts)
}

/// The count of an active job after this many ticks from the machine's tick on, in a row that keeps the rules. The job is blocked at each
/// of them, or at none.
fn count_on<P: Judge, R: RowReader>(
    protocol: &P,
    rows: &R,
    machine: &Machine,
    ticks: u64,
    j: JobId,
    count: JobCount,
) -> JobCount
    requires { CanCountJob (P.suits protocol.now) (P.keeps protocol.now) (R.rows rows.now) (R.at rows.now) machine.now j.0 ticks count }
    ensures { result ≡ counted_at (P.interferes protocol.now) machine.now (R.rows rows.now).runs j.0 ticks count }
{
    let end = machine.tick() + ticks;
    if protocol.blocked(machine, &rows.run().row, j) {
        return JobCount {
            blocked: count.blocked + ticks,
            end,
        };
    }
    JobCount {
        blocked: count.blocked,
        end,
    }
}

/// Counts the ticks for the active job.
fn count_job<P: Judge, R: RowReader>(
    protocol: &P,
    rows: &R,
    machine: &Machine,
    ticks: u64,
    j: JobId,
    counts: &mut [JobCount],
)
    requires { CanCountIn (P.suits protocol.now) (P.keeps protocol.now) (R.rows rows.now) (R.at rows.now) machine.now j.0 ticks counts.old }
    ensures { CountsJob (P.interferes protocol.now) machine.now (R.rows rows.now).runs j.0 ticks counts.old counts.new }
{
    counts[j.0 as usize] = count_on(protocol, rows, machine, ticks, j, counts[j.0 as usize]);
}

/// How many tasks are there?
pub(crate) fn tasks_of(machine: &Machine) -> u32
    ensures { result ≡ length machine.now.list.set.tasks }
{
    machine.jobs().set().tasks()
}

/// Counts this many ticks like the one at the machine's position, in a row that keeps the rules. At most one job of each task is active.
pub(crate) fn count_ticks<P: Judge, R: RowReader>(
    protocol: &P,
    rows: &R,
    machine: &Machine,
    ticks: u64,
    counts: &mut [JobCount],
)
    requires { CanCountTicks (P.suits protocol.now) (P.keeps protocol.now) (R.rows rows.now) (R.at rows.now) machine.now ticks counts.old }
    ensures { AddsTicks (P.interferes protocol.now) (under machine.now (row_in (R.rows rows.now).runs)) machine.now.tick ticks
        counts.old counts.new }
{
    for x in 0..tasks_of(machine) {
        if let Some(j) = machine.current(TaskId(x)) {
            count_job(protocol, rows, machine, ticks, j, counts);
        }
    }
}
