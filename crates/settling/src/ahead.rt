//! Searches the programs of a round side by side, ahead of their places in it.

ghost use Rattle.std.specs.Prelude.{◌≡◌, ℕ, ◌<◌, ◌≤◌, ◌^◌, length, slice_get, Some, IfOk, IfErr, IfSome};
ghost use Rattle.sporadic_model.specs.Bounds.{IsInRange};
ghost use Rattle.program_sources.specs.Recurrence.{source_at};
ghost use Rattle.response_fixpoint.specs.Sharing.{IsShare};
ghost use Rattle.settling.specs.Rising.{AreFoundInPlaces, AreFoundWithTasks, IsBegun, IsFoundAt, StopsAt};

use crate::answer::SettleStop;
use crate::finding::Points;
use crate::reached::{Reached, reach_task};
use crate::rounds::next_bound;
use program_sources::ProgramSource;
use response_fixpoint::{Placed, Share, first_threads, in_places, is_in};
use sporadic_model::{TaskId, TaskSet};
use std::alloc::{AllocError, Global};
use std::thread::{Threads, map_indices};

/// Does the round go on behind a task of which this was found? A thread asks only to spare work.
fn goes_on<P: ProgramSource>(
    set: &TaskSet,
    protocol: &P,
    task: TaskId,
    bounds: &[u64],
    ticks: u64,
) -> bool
    requires serves { P.serves protocol.now set.now }
    requires task { task.0 < length set.now.tasks }
    requires range { IsInRange set.now bounds.now }
    requires small { ticks < 2 ^ 63 }
{
    next_bound(set, protocol, task, bounds, ticks) <= set.latest_bound(task)
}

/// Searches the programs of a thread's share, up to the first that ends the round. Each search may take this many units.
fn reach_some<P: ProgramSource>(
    alloc: Global,
    set: &TaskSet,
    protocol: &P,
    points: Points,
    bounds: &[u64],
    before: &[Reached],
    left: u64,
    share: Share,
) -> Result<Vec<Placed<Reached>>, AllocError>
    requires serves { P.serves protocol.now set.now }
    requires begun { IsBegun points (source_at (P.source protocol.now) set.now) bounds.now before.now }
    requires share { IsShare share }
    ensures { IfOk result (λ v. AreFoundWithTasks points (source_at (P.source protocol.now) set.now) bounds.now v.items) }
{
    let mut found = Vec::new(alloc);
    for i in 0..set.tasks() {
        if !is_in(share, i as usize) {
            continue;
        }
        let task = TaskId(i);
        let reached = match reach_task(alloc, set, protocol, points, task, bounds, before, left) {
            Ok(reached) => reached,
            // the round asks again in the task's place
            Err(_) => return Ok(found),
        };
        let is_on = goes_on(set, protocol, task, bounds, reached.ticks);
        found.push(Placed {
            task,
            found: reached,
        })?;
        if !is_on {
            return Ok(found);
        }
    }
    Ok(found)
}

/// The same in this many threads, each with its share.
fn reach_beside<R: Threads + Sync, P: ProgramSource + Sync>(
    rt: &R,
    alloc: Global,
    set: &TaskSet,
    protocol: &P,
    points: Points,
    bounds: &[u64],
    before: &[Reached],
    left: u64,
    threads: usize,
) -> Result<Vec<Result<Vec<Placed<Reached>>, AllocError>>, AllocError>
    requires serves { P.serves protocol.now set.now }
    requires begun { IsBegun points (source_at (P.source protocol.now) set.now) bounds.now before.now }
    ensures { IfOk result (λ v. (k : ℕ) (part : _) → slice_get v.items k ≡ Some part
        → IfOk part (λ found. AreFoundWithTasks points (source_at (P.source protocol.now) set.now) bounds.now found.items)) }
{
    map_indices(
        rt,
        alloc,
        threads,
        &|thread: usize| {
            reach_some(
                alloc,
                set,
                protocol,
                points,
                bounds,
                before,
                left,
                Share { thread, threads },
            )
        },
    )
}

/// What searches side by side find of the programs of a round, each at its task's place. Each may take all units that are left at the start
/// of the round. Behind a task that ends the round some may stay unsearched. If no thread is worth its start, nothing is found.
pub(crate) fn reach_ahead<R: Threads + Sync, P: ProgramSource + Sync>(
    rt: &R,
    alloc: Global,
    set: &TaskSet,
    protocol: &P,
    points: Points,
    bounds: &[u64],
    before: &[Reached],
    left: u64,
) -> Result<Vec<Option<Reached>>, AllocError>
    requires serves { P.serves protocol.now set.now }
    requires begun { IsBegun points (source_at (P.source protocol.now) set.now) bounds.now before.now }
    ensures { IfOk result (λ v. AreFoundInPlaces points (source_at (P.source protocol.now) set.now) bounds.now v.items) }
{
    let threads = first_threads(rt, set);
    let parts = reach_beside(
        rt, alloc, set, protocol, points, bounds, before, left, threads,
    )?;
    in_places(alloc, set.tasks() as usize, parts)
}

/// What is found of the program of task `i`, with this many units: what was found ahead, if that took no more. Else it is searched now.
pub(crate) fn reach_in_place<P: ProgramSource>(
    alloc: Global,
    set: &TaskSet,
    protocol: &P,
    points: Points,
    i: TaskId,
    bounds: &[u64],
    before: &[Reached],
    units: u64,
    ahead: Option<Reached>,
) -> Result<Reached, SettleStop>
    requires serves { P.serves protocol.now set.now }
    requires task { i.0 < length set.now.tasks }
    requires begun { IsBegun points (source_at (P.source protocol.now) set.now) bounds.now before.now }
    requires ahead { IfSome ahead (IsFoundAt points (source_at (P.source protocol.now) set.now) bounds.now i.0) }
    ensures found { IfOk result (IsFoundAt points (source_at (P.source protocol.now) set.now) bounds.now i.0) }
    ensures within { IfOk result (λ reached. reached.used ≤ units) }
    ensures stops { IfErr result (StopsAt points (source_at (P.source protocol.now) set.now) bounds.now i.0 units) }
{
    if let Some(reached) = ahead {
        if reached.used <= units {
            return Ok(reached);
        }
    }
    reach_task(alloc, set, protocol, points, i, bounds, before, units)
}
