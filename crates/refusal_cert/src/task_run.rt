ghost use Rattle.std.specs.Prelude.{◌≡◌, nat_lt, pos, ◌≤ℤ◌, All, IfSome};
ghost use Rattle.program_sources.specs.Recurrence.{source_at};
ghost use Rattle.response_fixpoint.specs.Given.{IsTaskServedAt};
ghost use Rattle.response_fixpoint.specs.Solutions.{IsAhead};
ghost use Rattle.refusal_cert.specs.Answers.{GivesPointRun, WritesPoint, WritesStep, seen};

use fraction128::{Frac, Scaled, ScalingError, scale};
use program_form::Dual;
use program_sources::ProgramSource;
use refusal_laws::RefusalStep;
use response_fixpoint::{Solution, TaskRun};
use simplex::{SolveStop, SparseProgram};
use sporadic_model::{TaskId, TaskSet};
use std::alloc::Global;

/// The best point of a run over its least common denominator.
fn scaled_point(alloc: Global, best: &[Frac]) -> Result<Dual, SolveStop>
    requires { All (λ f. pos 0 ≤ℤ f.num) best.now }
    ensures { WritesPoint result best.now }
{
    match scale(alloc, best) {
        Ok(Scaled { den, num }) => Ok(Dual { den, num }),
        Err(ScalingError::Memory) => Err(SolveStop::Memory),
        Err(ScalingError::Wide) => Err(SolveStop::Wide),
    }
}

/// Does a task give a step? It does if its value is above the bound that it had.
fn gives_step(bound: u64, value: u64) -> bool
    ensures { result ≡ nat_lt bound value }
{
    value > bound
}

/// Writes the step of a task behind these steps, if the task's value is above the bound that it had.
fn write_step(
    alloc: Global,
    steps: &mut Vec<RefusalStep>,
    task: TaskId,
    bound: u64,
    value: u64,
    best: &[Frac],
) -> Result<(), SolveStop>
    requires { All (λ f. pos 0 ≤ℤ f.num) best.now }
    ensures { WritesStep result (seen steps.old.items) (seen steps.new.items) bound task.0 value best.now }
{
    if !gives_step(bound, value) {
        return Ok(());
    }
    let point = match scaled_point(alloc, best) {
        Ok(point) => point,
        Err(stop) => return Err(stop),
    };
    let task = task.0 as u64 + 1;
    match steps.push(RefusalStep { task, value, point }) {
        Ok(()) => Ok(()),
        Err(_) => Err(SolveStop::Memory),
    }
}

/// The run of task `i`'s program in its place of a round, with the units that are left there. It gives the task's response time, and
/// writes its step behind these steps. `ahead` is what the program is known to give, if it keeps its solution.
pub fn run_task<P: ProgramSource>(
    alloc: Global,
    set: &TaskSet,
    protocol: &P,
    i: TaskId,
    bounds: &[u64],
    program: &SparseProgram,
    left: u64,
    ahead: Option<Result<Solution, SolveStop>>,
    steps: &mut Vec<RefusalStep>,
) -> Result<TaskRun, SolveStop>
    requires served { IsTaskServedAt (P.serves protocol.now) set.now bounds.now i.0 }
    requires program { program.now ≡ (P.source protocol.now set.now).program i.0 bounds.now }
    requires ahead { IfSome ahead (λ o. IsAhead program.now left o) }
    ensures { GivesPointRun result (source_at (P.source protocol.now) set.now) bounds.now i.0 left (seen steps.old.items) (seen steps.new.items) }
{
    let ran = response_fixpoint::run_task(alloc, set, protocol, i, bounds, program, left, ahead);
    let run = match ran {
        Ok(run) => run,
        Err(stop) => return Err(stop),
    };
    let bound = bounds[i.0 as usize];
    match write_step(alloc, steps, i, bound, run.value, &run.solution.best) {
        Ok(()) => Ok(run),
        Err(stop) => Err(stop),
    }
}
