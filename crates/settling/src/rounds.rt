//! One round of a walk.

ghost use Rattle.std.specs.Prelude.{◌≡◌, ℕ, ◌+◌, ◌<◌, ◌^◌, ◌++◌, ◌∷◌, [], max, slice_index, length, OnOk};
ghost use Rattle.program_form.specs.Certificate.{dual_seen};
ghost use Rattle.sporadic_model.specs.Bounds.{IsInRange};
ghost use Rattle.program_sources.specs.Recurrence.{source_at, response_with};
ghost use Rattle.response_fixpoint.specs.Rounds.{with_task};
ghost use Rattle.settling.specs.Rising.{AreFoundInPlaces, IsBegun};
ghost use Rattle.settling.specs.WalkRounds.{found_of, GivesRound, LeadThere};

use crate::ahead::{reach_ahead, reach_in_place};
use crate::answer::SettleStop;
use crate::finding::Points;
use crate::reached::Reached;
use crate::steps::Steps;
use program_sources::{ProgramSource, response};
use sporadic_model::{TaskId, TaskSet};
use std::alloc::{AllocError, Global};
use std::thread::Threads;

/// What a round has found: its units, the next bounds in ticks, and what was found of each task's program.
#[derive(Drop)]
pub(crate) struct Round {
    pub used: u64,
    pub next: Vec<u64>,
    pub reached: Vec<Reached>,
}

/// The response time of task `i` with these ticks as blocking, or its bound if that is greater.
pub(crate) fn next_bound<P: ProgramSource>(
    set: &TaskSet,
    protocol: &P,
    i: TaskId,
    bounds: &[u64],
    ticks: u64,
) -> u64
    requires serves { P.serves protocol.now set.now }
    requires task { i.0 < length set.now.tasks }
    requires range { IsInRange set.now bounds.now }
    requires small { ticks < 2 ^ 63 }
    ensures { result ≡ max (response_with (source_at (P.source protocol.now) set.now) bounds.now i.0 ticks) (slice_index bounds.now i.0) }
{
    response(set, protocol, i, bounds, ticks).max(bounds[i.0 as usize])
}

/// Takes a task, whose next bound is given, into the round.
fn take_task(round: &mut Round, reached: Reached, bound: u64) -> Result<(), AllocError>
    requires { round.old.used + reached.used < 2 ^ 64 }
    ensures found { OnOk result (found_of round.new ≡ with_task (found_of round.old) reached.used bound (dual_seen reached.dual)) }
    ensures reached { OnOk result (round.new.reached.items ≡ round.old.reached.items ++ reached ∷ []) }
{
    let used = reached.used;
    round.next.push(bound)?;
    round.reached.push(reached)?;
    round.used += used;
    Ok(())
}

/// One round at `bounds`: what is found of each task's program, and the task's next bound, task by task. Each program may take the units
/// that the tasks before it have left. `before` is what was found at other bounds. `steps` gets a step for each bound that rises. None if
/// a task's value passes its latest bound. Then the last step is that task's.
///
/// `ahead` has what was found ahead, at the tasks' places.
fn take_in_order<P: ProgramSource>(
    alloc: Global,
    set: &TaskSet,
    protocol: &P,
    points: Points,
    bounds: &[u64],
    before: &[Reached],
    left: u64,
    ahead: Vec<Option<Reached>>,
    steps: &mut Steps,
) -> Result<Option<Round>, SettleStop>
    requires serves { P.serves protocol.now set.now }
    requires begun { IsBegun points (source_at (P.source protocol.now) set.now) bounds.now before.now }
    requires ahead { AreFoundInPlaces points (source_at (P.source protocol.now) set.now) bounds.now ahead.items }
    requires steps { LeadThere points (source_at (P.source protocol.now) set.now) bounds.now steps.old }
    ensures { GivesRound result points (source_at (P.source protocol.now) set.now) bounds.now left steps.new }
{
    let mut round = Round {
        used: 0,
        next: Vec::new(alloc),
        reached: Vec::new(alloc),
    };
    let mut ahead = ahead.into_iter();
    for i in 0..set.tasks() {
        let task = TaskId(i);
        let here = left - round.used;
        let first = ahead.next().flatten();
        let reached = match reach_in_place(
            alloc, set, protocol, points, task, bounds, before, here, first,
        ) {
            Ok(reached) => reached,
            Err(stop) => return Err(stop),
        };
        let bound = next_bound(set, protocol, task, bounds, reached.ticks);
        steps.add(alloc, task, bounds[i as usize], bound, &reached.point)?;
        if bound > set.latest_bound(task) {
            return Ok(None);
        }
        take_task(&mut round, reached, bound)?;
    }
    Ok(Some(round))
}

/// The same. The programs are searched side by side, ahead of their places, if that is worth threads. Each may take all units that are left
/// at the start of the round.
pub(crate) fn take_round<R: Threads + Sync, P: ProgramSource + Sync>(
    rt: &R,
    alloc: Global,
    set: &TaskSet,
    protocol: &P,
    points: Points,
    bounds: &[u64],
    before: &[Reached],
    left: u64,
    steps: &mut Steps,
) -> Result<Option<Round>, SettleStop>
    requires serves { P.serves protocol.now set.now }
    requires begun { IsBegun points (source_at (P.source protocol.now) set.now) bounds.now before.now }
    requires steps { LeadThere points (source_at (P.source protocol.now) set.now) bounds.now steps.old }
    ensures { GivesRound result points (source_at (P.source protocol.now) set.now) bounds.now left steps.new }
{
    let ahead = reach_ahead(rt, alloc, set, protocol, points, bounds, before, left)?;
    take_in_order(
        alloc, set, protocol, points, bounds, before, left, ahead, steps,
    )
}
