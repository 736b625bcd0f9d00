ghost use Rattle.std.specs.Prelude.{◌≡◌, IfOk};
ghost use Rattle.audit_figures.specs.Beside.{figures_from};
ghost use Rattle.audit_figures.specs.Given.{AreBeside, ArePutTogether, AreOfJobs, AreFiguresOf};

use crate::sums::{ClassSums, sums_of_tasks};
use charge::ChargeTable;
use schedule_answers::{Measured, TaskFigures, TaskMeasure};
use schedule_model::JobList;
use std::alloc::{AllocError, Global};

/// The figures of a task, put together.
fn task_figures(measure: TaskMeasure, bound: u64, value: u64, sums: ClassSums) -> TaskFigures
    ensures { result ≡ figures_from measure bound value sums }
{
    TaskFigures {
        response: measure.response,
        bound,
        blocking: measure.blocking,
        value,
        direct: sums.direct,
        indirect: sums.indirect,
        preemption: sums.preemption,
    }
}

/// The figures of each task, put together.
fn put_together(
    alloc: Global,
    measures: &[TaskMeasure],
    bounds: &[u64],
    values: &[u64],
    sums: &[ClassSums],
) -> Result<Vec<TaskFigures>, AllocError>
    requires { AreBeside measures.now bounds.now values.now sums.now }
    ensures { IfOk result (λ v. ArePutTogether measures.now bounds.now values.now sums.now v.items) }
{
    let mut figures = Vec::with_capacity(alloc, measures.len())?;
    for x in 0..measures.len() {
        figures.push(task_figures(measures[x], bounds[x], values[x], sums[x]))?;
    }
    Ok(figures)
}

/// The figures of each task. They come from what was measured of a schedule, the bounds and values that were proved, and the schedule's
/// table of charges. It fails only if memory runs out.
pub(crate) fn figures(
    alloc: Global,
    jobs: &JobList,
    measured: &Measured,
    bounds: &[u64],
    values: &[u64],
    table: &ChargeTable,
) -> Result<Vec<TaskFigures>, AllocError>
    requires { AreOfJobs jobs.now measured.now bounds.now values.now table.now.charges.items }
    ensures { IfOk result (λ v. AreFiguresOf jobs.now measured.now bounds.now values.now table.now.charges.items v.items) }
{
    jobs.keeps_its_rules();
    let sums = sums_of_tasks(alloc, jobs, table)?;
    put_together(alloc, &measured.tasks, bounds, values, &sums)
}
