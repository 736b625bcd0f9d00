ghost use Rattle.std.specs.Prelude.{◌≡◌, ◌<◌, ◌/◌, ◌^◌, ◌*◌, ◌+◌, length, unsigned_abs, IfOk, IfSome};
ghost use Rattle.sporadic_model.specs.Bounds.{IsInRange};
ghost use Rattle.program_sources.specs.Recurrence.{response_with, source_at};
ghost use Rattle.response_fixpoint.specs.Solutions.{IsSolution, GivesSolution, IsAhead};
ghost use Rattle.response_fixpoint.specs.Answers.{GivesRun};

use fraction128::Frac;
use program_form::Dual;
use program_sources::{ProgramSource, response};
use simplex::{SolveStop, SparseProgram, solve_sparse};
use sporadic_model::{TaskId, TaskSet};
use std::alloc::Global;

/// What solving a program gives.
#[derive(Debug, Drop)]
pub struct Solution {
    /// The units that its run takes.
    pub used: u64,
    /// The whole part of its optimum, in ticks.
    pub blocking: u64,
    /// Its best point.
    pub best: Vec<Frac>,
    /// Its dual.
    pub dual: Dual,
}

/// What the run of a task's program gives in a round.
#[derive(Debug, Drop)]
pub struct TaskRun {
    pub solution: Solution,
    /// The task's response time, in ticks.
    pub value: u64,
}

/// The whole part of an optimum: the number of whole ticks for which a job is blocked.
fn whole_part(optimum: Frac) -> u64
    ensures value { result ≡ unsigned_abs optimum.num / unsigned_abs optimum.den }
    ensures most { result < 2 ^ 63 }
{
    optimum.num().unsigned_abs() / optimum.den().unsigned_abs()
}

/// Solves a program with these units.
pub fn solve_program(
    alloc: Global,
    program: &SparseProgram,
    units: u64,
) -> Result<Solution, SolveStop>
    ensures { GivesSolution result program.now units }
{
    // the lists of a program are one
    let _rows = program.rows();
    match solve_sparse(alloc, program, units) {
        Ok(solved) => Ok(Solution {
            used: solved.exchanges + 1,
            blocking: whole_part(solved.value),
            best: solved.primal,
            dual: solved.dual,
        }),
        Err(stop) => Err(stop),
    }
}

/// What a program gives in its place of a round, with the units that are left there.
///
/// `ahead` is what it has given ahead of this place with at least as many units, if it was solved then. If it was wide, it is solved
/// again: it may need more units than are left before it comes to a wide number.
fn solve_here(
    alloc: Global,
    program: &SparseProgram,
    left: u64,
    ahead: Option<Result<Solution, SolveStop>>,
) -> Result<Solution, SolveStop>
    requires ahead { IfSome ahead (λ o. IsAhead program.now left o) }
    ensures { GivesSolution result program.now left }
{
    match ahead {
        Some(Ok(solution)) => Ok(solution),
        Some(Err(SolveStop::Units)) => Err(SolveStop::Units),
        Some(Err(SolveStop::Memory)) => Err(SolveStop::Memory),
        Some(Err(SolveStop::Wide)) | None => solve_program(alloc, program, left),
    }
}

/// The run of task `i`'s program in its place of a round, with the units that are left there, and the task's response time.
/// `ahead` is as for `solve_here`.
pub fn run_task<P: ProgramSource>(
    alloc: Global,
    set: &TaskSet,
    protocol: &P,
    i: TaskId,
    bounds: &[u64],
    program: &SparseProgram,
    left: u64,
    ahead: Option<Result<Solution, SolveStop>>,
) -> Result<TaskRun, SolveStop>
    requires serves { P.serves protocol.now set.now }
    requires range { IsInRange set.now bounds.now }
    requires task { i.0 < length set.now.tasks }
    requires program { program.now ≡ (P.source protocol.now set.now).program i.0 bounds.now }
    requires ahead { IfSome ahead (λ o. IsAhead program.now left o) }
    ensures { GivesRun result (source_at (P.source protocol.now) set.now) bounds.now i.0 left }
{
    let solution = match solve_here(alloc, program, left, ahead) {
        Ok(solution) => solution,
        Err(stop) => return Err(stop),
    };
    if solution.used > left {
        return Err(SolveStop::Units);
    }
    let value = response(set, protocol, i, bounds, solution.blocking);
    Ok(TaskRun { solution, value })
}
