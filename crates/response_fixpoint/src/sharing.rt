//! How the programs of a round are shared among threads, and when a thread stops.

ghost use Rattle.std.specs.Prelude.{◌≡◌, ◌<◌, ◌≤◌, ◌/◌, ◌^◌, ◌↔◌, length, IsTrue, IfOk};
ghost use Rattle.program_sources.specs.Recurrence.{source_at};
ghost use Rattle.response_fixpoint.specs.Sharing.{IsShare, IsShared, entries_at, entries_in, worth_of, threads_on, AreThreads, GoesOn};
ghost use Rattle.response_fixpoint.specs.Given.{IsTaskServedAt};

use crate::task_run::Solution;
use program_sources::{ProgramSource, response};
use simplex::SolveStop;
use sporadic_model::{ResourceId, TaskId, TaskSet};
use std::thread::{Threads, available_parallelism};

/// How much work makes a thread worth its start, counted in rows gone through. A thread costs about as long as 2,000 to 4,000 of these.
/// Most of that is spent in the kernel: its stack, its memory, its end.
const WORTH_A_THREAD: u64 = 4_000;

/// How many processors to assume if the system doesn't say.
const USUAL_PROCESSORS: usize = 4;

/// The share of one thread: each `threads`-th program of a list, from number `thread` on. So no thread has to know what another one
/// does.
#[derive(Clone, Copy, Debug)]
pub struct Share {
    pub thread: usize,
    pub threads: usize,
}

/// Is the program of this number in the share?
pub fn is_in(share: Share, number: usize) -> bool
    requires { IsShare share }
    ensures { IsTrue result ↔ IsShared share number }
{
    number % share.threads == share.thread
}

/// How many entries of requests a task has.
fn entries_of(set: &TaskSet, x: TaskId) -> u64
    requires { x.0 < length set.now.tasks }
    ensures value { result ≡ entries_at set.now x.0 }
    ensures few { result ≤ 64 }
{
    let mut entries = 0;
    for q in 0..set.resources() {
        if set.count(x, ResourceId(q)) > 0 {
            entries += 1;
        }
    }
    entries
}

/// How many entries of requests all tasks have.
fn entries_in(set: &TaskSet) -> u64
    ensures value { result ≡ entries_in set.now }
    ensures few { result ≤ 4096 }
{
    let mut entries = 0;
    for x in 0..set.tasks() {
        entries += entries_of(set, TaskId(x));
    }
    entries
}

/// How many threads are worth starting for the first round. Nothing is known of its programs yet. Each has about as many rows as the
/// set has entries, and its run makes about as many exchanges. If some task requests a resource, two programs may have columns. They
/// get two threads whatever their size.
fn first_worth(set: &TaskSet) -> u64
    ensures { result ≡ worth_of (entries_in set.now) (length set.now.tasks) }
{
    let entries = entries_in(set);
    if entries == 0 {
        return 0;
    }
    (entries * entries * set.tasks() as u64 / WORTH_A_THREAD).max(2)
}

/// How many threads are started for this many programs, where so many threads are worth it, on so many processors.
fn threads_on(processors: usize, worth: u64, programs: usize) -> usize
    ensures { result ≡ threads_on processors worth programs }
{
    let worth = worth.min(programs as u64);
    if worth < 2 {
        return 0;
    }
    processors.max(2).min(worth as usize)
}

/// How many processors there are, as the system says.
fn processors<R: Threads>(rt: &R) -> usize {
    match available_parallelism(rt) {
        Ok(count) => count.get(),
        Err(_) => USUAL_PROCESSORS,
    }
}

/// As many threads as are worth starting for this many programs: at most one for each program, and at most as many as processors, or
/// two. The answer of a round is the same with any number.
fn threads_for<R: Threads>(rt: &R, worth: u64, programs: usize) -> usize
    ensures { AreThreads worth programs result }
{
    threads_on(processors(rt), worth, programs)
}

/// How many threads the first round gets.
pub fn first_threads<R: Threads>(rt: &R, set: &TaskSet) -> usize
    ensures { AreThreads (worth_of (entries_in set.now) (length set.now.tasks)) (length set.now.tasks) result }
{
    threads_for(rt, first_worth(set), set.tasks() as usize)
}

/// How many threads a later round gets that has to solve this many programs, with runs of so much likely work together.
pub fn later_threads<R: Threads>(rt: &R, work: u64, programs: usize) -> usize
    ensures { AreThreads (work / WORTH_A_THREAD) programs result }
{
    threads_for(rt, work / WORTH_A_THREAD, programs)
}

/// Do the rounds go on behind a task whose program gave this? A thread asks only to spare work. The answer is decided by the round's
/// own loop.
pub fn goes_on<P: ProgramSource>(
    set: &TaskSet,
    protocol: &P,
    task: TaskId,
    bounds: &[u64],
    outcome: &Result<Solution, SolveStop>,
) -> bool
    requires served { IsTaskServedAt (P.serves protocol.now) set.now bounds.now task.0 }
    requires blocking { IfOk outcome.now (λ s. s.blocking < 2 ^ 63) }
    ensures { IsTrue result ↔ GoesOn outcome.now (source_at (P.source protocol.now) set.now) bounds.now task.0 }
{
    match outcome {
        Ok(solution) => {
            response(set, protocol, task, bounds, solution.blocking) <= set.latest_bound(task)
        }
        Err(_) => false,
    }
}
