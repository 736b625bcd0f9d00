//! Solves the programs of a later round side by side: those with other limits than in the round before.

ghost use Rattle.std.specs.Prelude.{◌≡◌, ◌-◌, ◌<◌, ◌^◌, length, min, IfOk};
ghost use Rattle.program_sources.specs.Recurrence.{source_at};
ghost use Rattle.response_fixpoint.specs.Places.{GivesPlaced, GivesParts};
ghost use Rattle.response_fixpoint.specs.Sharing.{IsShare, due_in, work_in};
ghost use Rattle.response_fixpoint.specs.Solutions.{IsOutcome, IsPlan, AreAhead};
ghost use Rattle.response_fixpoint.specs.Given.{BeginsRound};

use crate::places::{Placed, in_places};
use crate::plan::Planned;
use crate::sharing::{Share, goes_on, is_in, later_threads};
use crate::task_run::{Solution, solve_program};
use program_sources::ProgramSource;
use simplex::SolveStop;
use sporadic_model::{TaskId, TaskSet};
use std::alloc::{AllocError, Global};
use std::thread::{Threads, map_indices};

/// How many programs of a plan have no solution yet.
fn due_in(plan: &[Planned]) -> usize
    ensures { result ≡ due_in plan.now }
{
    let mut due = 0;
    for planned in plan {
        if planned.ahead.is_none() {
            due += 1;
        }
    }
    due
}

/// How much work the runs of a plan are likely to be, counted in rows gone through.
fn work_in(plan: &[Planned]) -> u64
    ensures { result ≡ min (work_in plan.now) (2 ^ 64 - 1) }
{
    let mut work = 0u64;
    for planned in plan {
        work = work.saturating_add(planned.work);
    }
    work
}

/// Solves the program of task `i` ahead of its place.
fn solve_planned<P: ProgramSource>(
    alloc: Global,
    set: &TaskSet,
    protocol: &P,
    bounds: &[u64],
    left: u64,
    plan: &[Planned],
    i: TaskId,
) -> Result<Solution, SolveStop>
    requires task { i.0 < length set.now.tasks }
    requires plan { IsPlan (source_at (P.source protocol.now) set.now) bounds.now left plan.now }
    ensures { IsOutcome (source_at (P.source protocol.now) set.now) bounds.now left i.0 result }
{
    solve_program(alloc, &plan[i.0 as usize].program, left)
}

/// Solves the programs of a thread's share of those that have no solution yet, up to the first that ends the rounds.
fn solve_some<P: ProgramSource>(
    alloc: Global,
    set: &TaskSet,
    protocol: &P,
    bounds: &[u64],
    left: u64,
    plan: &[Planned],
    share: Share,
) -> Result<Vec<Placed<Result<Solution, SolveStop>>>, AllocError>
    requires round { BeginsRound (P.serves protocol.now) (source_at (P.source protocol.now) set.now) bounds.now left plan.now }
    requires share { IsShare share }
    ensures { GivesPlaced (IsOutcome (source_at (P.source protocol.now) set.now) bounds.now left) (length set.now.tasks) result }
{
    let mut found = Vec::new(alloc);
    let mut due = 0usize;
    for i in 0..set.tasks() {
        if plan[i as usize].ahead.is_some() {
            continue;
        }
        let number = due;
        due = due.saturating_add(1);
        if !is_in(share, number) {
            continue;
        }
        let task = TaskId(i);
        let outcome = solve_planned(alloc, set, protocol, bounds, left, plan, task);
        let is_on = goes_on(set, protocol, task, bounds, &outcome);
        found.push(Placed {
            task,
            found: outcome,
        })?;
        if !is_on {
            return Ok(found);
        }
    }
    Ok(found)
}

/// Solves the programs that have no solution yet, in this many threads.
fn solve_beside<R: Threads + Sync, P: ProgramSource + Sync>(
    rt: &R,
    alloc: Global,
    set: &TaskSet,
    protocol: &P,
    bounds: &[u64],
    left: u64,
    plan: &[Planned],
    threads: usize,
) -> Result<Vec<Result<Vec<Placed<Result<Solution, SolveStop>>>, AllocError>>, AllocError>
    requires { BeginsRound (P.serves protocol.now) (source_at (P.source protocol.now) set.now) bounds.now left plan.now }
    ensures { GivesParts (IsOutcome (source_at (P.source protocol.now) set.now) bounds.now left) (length set.now.tasks) result }
{
    map_indices(
        rt,
        alloc,
        threads,
        &|thread: usize| {
            solve_some(
                alloc,
                set,
                protocol,
                bounds,
                left,
                plan,
                Share { thread, threads },
            )
        },
    )
}

/// Solves side by side the programs of a plan that have no solution yet, if they are worth threads. Each may take all units that are
/// left at the start of the round. Behind a task that ends the rounds some may stay unsolved.
pub fn solve_ahead<R: Threads + Sync, P: ProgramSource + Sync>(
    rt: &R,
    alloc: Global,
    set: &TaskSet,
    protocol: &P,
    bounds: &[u64],
    left: u64,
    plan: &[Planned],
) -> Result<Vec<Option<Result<Solution, SolveStop>>>, AllocError>
    requires { BeginsRound (P.serves protocol.now) (source_at (P.source protocol.now) set.now) bounds.now left plan.now }
    ensures { IfOk result (λ v. AreAhead (source_at (P.source protocol.now) set.now) bounds.now left 0 v.items) }
{
    let threads = later_threads(rt, work_in(plan), due_in(plan));
    let parts = solve_beside(rt, alloc, set, protocol, bounds, left, plan, threads)?;
    in_places(alloc, plan.len(), parts)
}
