//! The plan of the first round. The threads that solve a task's program form it too, once.

ghost use Rattle.std.specs.Prelude.{◌<◌, length, IfOk, IfSome};
ghost use Rattle.sporadic_model.specs.Bounds.{IsInRange};
ghost use Rattle.program_sources.specs.Recurrence.{source_at};
ghost use Rattle.response_fixpoint.specs.Places.{AreEachFound, GivesPlaced, GivesParts};
ghost use Rattle.response_fixpoint.specs.Sharing.{IsShare};
ghost use Rattle.response_fixpoint.specs.Solutions.{IsPlanned, IsPlan};
ghost use Rattle.response_fixpoint.specs.Given.{IsServedAt, IsTaskServedAt};

use crate::places::{Placed, in_places};
use crate::plan::Planned;
use crate::sharing::{Share, first_threads, goes_on, is_in};
use crate::task_run::solve_program;
use program_sources::ProgramSource;
use sporadic_model::{TaskId, TaskSet};
use std::alloc::{AllocError, Global};
use std::thread::{Threads, map_indices};

/// Forms the program of task `i` at these bounds. Solves it with these units if that is wanted.
fn begin_task<P: ProgramSource>(
    alloc: Global,
    set: &TaskSet,
    protocol: &P,
    i: TaskId,
    bounds: &[u64],
    left: u64,
    is_solved: bool,
) -> Result<Planned, AllocError>
    requires { IsTaskServedAt (P.serves protocol.now) set.now bounds.now i.0 }
    ensures { IfOk result (λ p. IsPlanned (source_at (P.source protocol.now) set.now) bounds.now left i.0 p) }
{
    let program = protocol.sparse_program(alloc, set, i, bounds)?;
    let ahead = if is_solved {
        Some(solve_program(alloc, &program, left))
    } else {
        None
    };
    Ok(Planned {
        program,
        ahead,
        work: 0,
    })
}

/// Forms the programs of a thread's share. Solves them up to the first that ends the rounds.
pub fn begin_some<P: ProgramSource>(
    alloc: Global,
    set: &TaskSet,
    protocol: &P,
    bounds: &[u64],
    left: u64,
    share: Share,
) -> Result<Vec<Placed<Planned>>, AllocError>
    requires served { IsServedAt (P.serves protocol.now) set.now bounds.now }
    requires share { IsShare share }
    ensures { GivesPlaced (IsPlanned (source_at (P.source protocol.now) set.now) bounds.now left) (length set.now.tasks) result }
{
    let mut begun = Vec::new(alloc);
    let mut is_on = true;
    for i in 0..set.tasks() {
        if !is_in(share, i as usize) {
            continue;
        }
        let task = TaskId(i);
        let planned = begin_task(alloc, set, protocol, task, bounds, left, is_on)?;
        is_on = match &planned.ahead {
            Some(outcome) => goes_on(set, protocol, task, bounds, outcome),
            None => false,
        };
        begun.push(Placed {
            task,
            found: planned,
        })?;
    }
    Ok(begun)
}

/// Forms and solves the programs in this many threads.
fn begin_beside<R: Threads + Sync, P: ProgramSource + Sync>(
    rt: &R,
    alloc: Global,
    set: &TaskSet,
    protocol: &P,
    bounds: &[u64],
    left: u64,
    threads: usize,
) -> Result<Vec<Result<Vec<Placed<Planned>>, AllocError>>, AllocError>
    requires { IsServedAt (P.serves protocol.now) set.now bounds.now }
    ensures { GivesParts (IsPlanned (source_at (P.source protocol.now) set.now) bounds.now left) (length set.now.tasks) result }
{
    map_indices(
        rt,
        alloc,
        threads,
        &|thread: usize| {
            begin_some(
                alloc,
                set,
                protocol,
                bounds,
                left,
                Share { thread, threads },
            )
        },
    )
}

/// The program of task `i` as it was begun. If it wasn't begun, it is formed now.
pub fn planned_program<P: ProgramSource>(
    alloc: Global,
    set: &TaskSet,
    protocol: &P,
    i: TaskId,
    bounds: &[u64],
    left: u64,
    begun: Option<Planned>,
) -> Result<Planned, AllocError>
    requires serves { P.serves protocol.now set.now }
    requires range { IsInRange set.now bounds.now }
    requires task { i.0 < length set.now.tasks }
    requires begun { IfSome begun (λ p. IsPlanned (source_at (P.source protocol.now) set.now) bounds.now left i.0 p) }
    ensures { IfOk result (λ p. IsPlanned (source_at (P.source protocol.now) set.now) bounds.now left i.0 p) }
{
    match begun {
        Some(planned) => Ok(planned),
        None => begin_task(alloc, set, protocol, i, bounds, left, false),
    }
}

/// The plan of what the threads have begun. A program that none has formed is formed now.
fn in_order<P: ProgramSource>(
    alloc: Global,
    set: &TaskSet,
    protocol: &P,
    bounds: &[u64],
    left: u64,
    places: Vec<Option<Planned>>,
) -> Result<Vec<Planned>, AllocError>
    requires served { IsServedAt (P.serves protocol.now) set.now bounds.now }
    requires places { AreEachFound (IsPlanned (source_at (P.source protocol.now) set.now) bounds.now left) 0 places.items }
    ensures { IfOk result (λ v. IsPlan (source_at (P.source protocol.now) set.now) bounds.now left v.items) }
{
    let mut plan = Vec::new(alloc);
    let mut begun = places.into_iter();
    for i in 0..set.tasks() {
        let place = begun.next().flatten();
        let planned = planned_program(alloc, set, protocol, TaskId(i), bounds, left, place)?;
        plan.push(planned)?;
    }
    Ok(plan)
}

/// The plan of the first round, at these bounds and with these units. Each task's program is formed and solved, side by side if that is
/// worth threads. Behind a task that ends the rounds a program may be formed without being solved.
pub fn first_plan<R: Threads + Sync, P: ProgramSource + Sync>(
    rt: &R,
    alloc: Global,
    set: &TaskSet,
    protocol: &P,
    bounds: &[u64],
    left: u64,
) -> Result<Vec<Planned>, AllocError>
    requires { IsServedAt (P.serves protocol.now) set.now bounds.now }
    ensures { IfOk result (λ v. IsPlan (source_at (P.source protocol.now) set.now) bounds.now left v.items) }
{
    let threads = first_threads(rt, set);
    let parts = begin_beside(rt, alloc, set, protocol, bounds, left, threads)?;
    let places = in_places(alloc, set.tasks() as usize, parts)?;
    in_order(alloc, set, protocol, bounds, left, places)
}
