//! What a round begins with: the tasks' programs at its bounds, and the solutions that some of them have already.

ghost use Rattle.std.specs.Prelude.{ℕ, length, IfOk};
ghost use Rattle.program_form.specs.Program.{IsProgram};
ghost use Rattle.sporadic_model.specs.Bounds.{IsInRange};
ghost use Rattle.program_sources.specs.Recurrence.{source_at};
ghost use Rattle.response_fixpoint.specs.Solutions.{with_limits, IsPlannedFrom, IsPlanned, IsPlan, AreKept};
ghost use Rattle.response_fixpoint.specs.Given.{IsTaskServedAt, IsKeptFrom};

use crate::task_run::Solution;
use program_sources::ProgramSource;
use simplex::{SolveStop, SparseProgram};
use sporadic_model::{TaskId, TaskSet};
use std::alloc::{AllocError, Global};

/// A task's program at the bounds of a round, and its solution there.
#[derive(Debug, Drop)]
pub struct Kept {
    pub program: SparseProgram,
    pub solution: Solution,
}

/// A task's program at the bounds of a round that begins.
#[derive(Debug, Drop)]
pub struct Planned {
    pub program: SparseProgram,
    /// What it gave ahead of its place in the round, if it was solved then or keeps its solution from the round before.
    pub ahead: Option<Result<Solution, SolveStop>>,
    /// How much work its run is likely to be, counted in rows gone through, if that is known.
    pub work: u64,
}

/// The program with its solution, both kept.
fn take_over(kept: Kept) -> Planned
    ensures { IsPlannedFrom kept kept.program result }
{
    let Kept { program, solution } = kept;
    Planned {
        program,
        ahead: Some(Ok(solution)),
        work: 0,
    }
}

/// The program with these limits. If they are the old ones, it keeps its solution. If not, its run is likely to be as much work as the
/// last one.
fn renew(kept: Kept, limits: Vec<u64>) -> Planned
    requires { IsProgram (with_limits kept.program limits.items) }
    ensures { IsPlannedFrom kept (with_limits kept.program limits.items) result }
{
    if kept.program.limits() == limits.as_slice() {
        return take_over(kept);
    }
    let Kept {
        mut program,
        solution,
    } = kept;
    let work = solution.used.saturating_mul(limits.len() as u64);
    program.renew(limits);
    Planned {
        program,
        ahead: None,
        work,
    }
}

/// Task `i`'s program at these bounds, from its program and solution at the earlier ones. Limits that the source says are kept aren't
/// computed.
fn planned_after<P: ProgramSource>(
    alloc: Global,
    set: &TaskSet,
    protocol: &P,
    i: TaskId,
    earlier: &[u64],
    bounds: &[u64],
    kept: Kept,
) -> Result<Planned, AllocError>
    requires served { IsTaskServedAt (P.serves protocol.now) set.now bounds.now i.0 }
    requires before { IsKeptFrom (source_at (P.source protocol.now) set.now) earlier.now i.0 kept }
    ensures { IfOk result (λ p. (left : ℕ) → IsPlanned (source_at (P.source protocol.now) set.now) bounds.now left i.0 p) }
{
    // the lists of a set at bounds within its deadlines are a program
    let _tasks = set.tasks();
    if protocol.keeps_limits(set, i, earlier, bounds) {
        return Ok(take_over(kept));
    }
    let limits = protocol.limits(alloc, set, i, bounds)?;
    Ok(renew(kept, limits))
}

/// The plan of the round at these bounds. It takes the programs of the round before, at the earlier bounds, and renews the limits that
/// change.
pub fn next_plan<P: ProgramSource>(
    alloc: Global,
    set: &TaskSet,
    protocol: &P,
    earlier: &[u64],
    bounds: &[u64],
    kept: Vec<Kept>,
) -> Result<Vec<Planned>, AllocError>
    requires serves { P.serves protocol.now set.now }
    requires earlier { IsInRange set.now earlier.now }
    requires range { IsInRange set.now bounds.now }
    requires kept { AreKept (source_at (P.source protocol.now) set.now) earlier.now (length set.now.tasks) kept.items }
    ensures { IfOk result (λ v. (left : ℕ) → IsPlan (source_at (P.source protocol.now) set.now) bounds.now left v.items) }
{
    // a set has at most 64 tasks, so their numbers fit
    let _tasks = set.tasks();
    let mut plan = Vec::new(alloc);
    for last in kept {
        let task = TaskId(plan.len() as u32);
        let planned = planned_after(alloc, set, protocol, task, earlier, bounds, last)?;
        plan.push(planned)?;
    }
    Ok(plan)
}
