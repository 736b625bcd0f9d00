ghost use Rattle.std.specs.Prelude.{◌≡◌, ℕ, ◌<◌, Bool, length, IfOk};
ghost use Rattle.schedule_model.specs.RowDef.{Trace, jobs_of};
ghost use Rattle.phase_machine.specs.Shows.{Shows};
ghost use Rattle.schedule_answers.specs.Conforming.{AreMeasures};
ghost use Rattle.schedule_answers.specs.TaskAnswers.{measure_seen};
ghost use Rattle.trace_conform.specs.Counts.{AreCounts};
ghost use Rattle.trace_conform.specs.Measured.{counts_now, response_now, blocking_now, measures_now, HasCount, MeasuresEach};

use crate::counts::JobCount;
use phase_machine::{Machine, Phase};
use schedule_answers::{Measured, TaskMeasure};
use schedule_model::JobId;
use sporadic_model::TaskId;
use std::alloc::{AllocError, Global};

/// Is the job one of the task, and finished?
#[tactic(auto, unfolding(crate::specs::Measured::counts_now))]
fn is_finished_job(machine: &Machine, x: TaskId, j: JobId) -> bool
    requires { j.0 < length machine.now.list.jobs }
    ensures { result ≡ counts_now machine.now x.0 j.0 }
{
    machine.jobs().job(j).task == x && machine.phase(j) == Phase::Finished
}

/// How long the job took, if it is of the task and finished, and else 0.
#[tactic(auto, unfolding(crate::specs::Measured::response_now))]
fn response_for(machine: &Machine, counts: &[JobCount], x: TaskId, j: JobId) -> u64
    requires { HasCount machine.now counts.now j.0 }
    ensures { result ≡ response_now machine.now counts.now x.0 j.0 }
{
    if is_finished_job(machine, x, j) {
        return counts[j.0 as usize]
            .end
            .saturating_sub(machine.jobs().job(j).release);
    }
    0
}

/// At how many ticks the job was blocked, if it is of the task, and else 0.
#[tactic(auto, unfolding(crate::specs::Measured::blocking_now))]
fn blocking_for(machine: &Machine, counts: &[JobCount], x: TaskId, j: JobId) -> u64
    requires { HasCount machine.now counts.now j.0 }
    ensures { result ≡ blocking_now machine.now counts.now x.0 j.0 }
{
    if machine.jobs().job(j).task == x {
        return counts[j.0 as usize].blocked;
    }
    0
}

/// The measures of the task, after all rows were taken and counted.
#[tactic(auto, unfolding(crate::specs::Measured::measures_now))]
fn measure_task(machine: &Machine, counts: &[JobCount], x: TaskId) -> TaskMeasure
    requires size { length counts.now ≡ length machine.now.list.jobs }
    ensures { measure_seen result ≡ measures_now machine.now counts.now x.0 }
{
    let mut finished = 0;
    let mut response: u64 = 0;
    let mut blocking: u64 = 0;
    for j in 0..machine.jobs().len() {
        if is_finished_job(machine, x, JobId(j)) {
            finished += 1;
        }
        response = response.max(response_for(machine, counts, x, JobId(j)));
        blocking = blocking.max(blocking_for(machine, counts, x, JobId(j)));
    }
    TaskMeasure {
        finished,
        response: if finished == 0 { None } else { Some(response) },
        blocking,
    }
}

/// The measures of all tasks, after all rows were taken and counted.
fn measure_all(
    alloc: Global,
    machine: &Machine,
    counts: &[JobCount],
) -> Result<Vec<TaskMeasure>, AllocError>
    requires size { length counts.now ≡ length machine.now.list.jobs }
    ensures { IfOk result (λ v. MeasuresEach machine.now counts.now v.items) }
{
    let tasks = machine.jobs().set().tasks();
    let mut measures = Vec::with_capacity(alloc, tasks as usize)?;
    for x in 0..tasks {
        measures.push(measure_task(machine, counts, TaskId(x)))?;
    }
    Ok(measures)
}

/// What a schedule did to each task, from the machine that has taken its rows and the counts of its jobs.
pub fn measures_of(
    alloc: Global,
    machine: &Machine,
    counts: &[JobCount],
) -> Result<Measured, AllocError>
    requires size { length counts.now ≡ length machine.now.list.jobs }
    ensures { IfOk result (λ measures. (interferes : Trace → ℕ → ℕ → Bool) (w : Trace) → machine.now.list ≡ jobs_of w
        → Shows machine.now w.row → AreCounts interferes w machine.now.tick counts.now
        → AreMeasures interferes w machine.now.tick measures) }
{
    let tasks = measure_all(alloc, machine, counts)?;
    Ok(Measured { tasks })
}
