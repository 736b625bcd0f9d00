//! Batches of steps. Threads test the points of a batch at the same time.

ghost use Rattle.std.specs.Prelude.{◌≡◌, ◌+◌, ◌<◌, ◌^◌, length, map, slice_get, Some, IfOk};
ghost use Rattle.program_sources.specs.Recurrence.{source_at};
ghost use Rattle.refusal_laws.specs.Seen.{step_seen};
ghost use Rattle.refusal_confirm.specs.Walks.{HasComeToStep};
ghost use Rattle.refusal_confirm.specs.Batches.{IsBatch, SaysOf, AreAllTested, IsFirstFault};
ghost use Rattle.refusal_confirm.specs.Given.{IsTestable, AreTestable};

use crate::fault::{Fault, Part, fault_of};
use crate::points::fault_of_point;
use crate::walk::{Walk, enter, take};
use program_sources::ProgramSource;
use refusal_laws::RefusalStep;
use sporadic_model::{TaskId, TaskSet};
use std::alloc::{AllocError, Global};
use std::thread::{Threads, map_indices};

/// How many steps' points are tested at the same time, at most.
const BATCH: usize = 64;

/// A step that passed the tests that need no program: its task, and the bounds before it.
#[derive(Drop)]
pub(crate) struct Trial {
    pub task: TaskId,
    pub bounds: Vec<u64>,
}

/// Steps that passed the tests that need no program. And the test that the step after them fails, if it stopped them.
#[derive(Drop)]
pub(crate) struct Batch {
    pub trials: Vec<Trial>,
    pub stop: Option<Part>,
}

/// A trial of the task at these bounds.
fn trial_of(alloc: Global, task: TaskId, bounds: &[u64]) -> Result<Trial, AllocError>
    ensures { IfOk result (λ t. (t.task ≡ task) × (t.bounds.items ≡ bounds.now)) }
{
    let bounds = Vec::from_slice(alloc, bounds)?;
    Ok(Trial { task, bounds })
}

/// The next batch. The walk goes on to the step after it. Each value is put among the bounds at once.
pub(crate) fn next_batch(
    alloc: Global,
    set: &TaskSet,
    walk: &mut Walk,
    steps: &[RefusalStep],
    start: usize,
) -> Result<Batch, AllocError>
    requires { HasComeToStep set.now (map step_seen steps.now) start walk.old.bounds.items walk.old.is_over }
    ensures { IfOk result (λ b. IsBatch set.now (map step_seen steps.now) start b.trials.items b.stop
        walk.new.bounds.items walk.new.is_over) }
{
    let end = steps.len().min(start.saturating_add(BATCH));
    let mut trials = Vec::new(alloc);
    for k in start..end {
        let step = &steps[k];
        let task = match enter(set, walk, step) {
            Ok(task) => task,
            Err(part) => {
                return Ok(Batch {
                    trials,
                    stop: Some(part),
                });
            }
        };
        let trial = trial_of(alloc, task, &walk.bounds)?;
        trials.push(trial)?;
        take(walk, set, task, step.value);
    }
    Ok(Batch { trials, stop: None })
}

/// What the tests of step `k`'s point find.
fn test_trial<P: ProgramSource>(
    alloc: Global,
    set: &TaskSet,
    protocol: &P,
    steps: &[RefusalStep],
    k: usize,
    trial: &Trial,
) -> Result<Option<Part>, AllocError>
    requires serves { P.serves protocol.now set.now }
    requires trial { IsTestable set.now (map step_seen steps.now) k trial.now }
    ensures { SaysOf result (source_at (P.source protocol.now) set.now) (map step_seen steps.now) k }
{
    fault_of_point(alloc, set, protocol, trial.task, &trial.bounds, &steps[k])
}

/// The trial of a batch's step number `j`, with the bounds before that step.
fn trial_at(trials: &[Trial], j: usize) -> &Trial
    requires { j < length trials.now }
    ensures { slice_get trials.now j ≡ Some result.now }
{
    &trials[j]
}

/// What the tests of the point of a batch's step number `j` find.
fn test_at<P: ProgramSource>(
    alloc: Global,
    set: &TaskSet,
    protocol: &P,
    steps: &[RefusalStep],
    start: usize,
    trials: &[Trial],
    j: usize,
) -> Result<Option<Part>, AllocError>
    requires serves { P.serves protocol.now set.now }
    requires place { j < length trials.now }
    requires trials { AreTestable set.now (map step_seen steps.now) start trials.now }
    ensures { SaysOf result (source_at (P.source protocol.now) set.now) (map step_seen steps.now) (start + j) }
{
    test_trial(alloc, set, protocol, steps, start + j, trial_at(trials, j))
}

/// Tests the points of a batch, several at the same time. The call for a step makes the program at the bounds before that step.
pub(crate) fn test_batch<R: Threads + Sync, P: ProgramSource + Sync>(
    rt: &R,
    alloc: Global,
    set: &TaskSet,
    protocol: &P,
    steps: &[RefusalStep],
    start: usize,
    trials: &[Trial],
) -> Result<Vec<Result<Option<Part>, AllocError>>, AllocError>
    requires serves { P.serves protocol.now set.now }
    requires trials { AreTestable set.now (map step_seen steps.now) start trials.now }
    ensures { IfOk result (λ v.
        AreAllTested (source_at (P.source protocol.now) set.now) (map step_seen steps.now) start (length trials.now) v.items) }
{
    map_indices(
        rt,
        alloc,
        trials.len(),
        &|j: usize| test_at(alloc, set, protocol, steps, start, trials, j),
    )
}

/// The first fault of a batch from step `start` on, given what the tests of the points found.
pub(crate) fn first_fault(
    tested: &[Result<Option<Part>, AllocError>],
    start: usize,
) -> Result<(), Fault>
    requires { start + length tested.now < 2 ^ 64 }
    ensures { IsFirstFault result tested.now start }
{
    for j in 0..tested.len() {
        match tested[j] {
            Ok(None) => {}
            Ok(Some(part)) => return Err(fault_of(part, (start + j) as u64 + 1)),
            Err(AllocError) => return Err(Fault::Memory),
        }
    }
    Ok(())
}
