ghost use Rattle.std.specs.Prelude.{◌≡◌, ◌≤◌, IfOk};
ghost use Rattle.sporadic_model.specs.Accepted.{IsAccepted};
ghost use Rattle.sporadic_model.specs.Homes.{HasHomesFor};
ghost use Rattle.sporadic_model.specs.Seen.{parts_seen};
ghost use Rattle.study_gen.specs.Sets.{set_made};
ghost use Rattle.study_gen.specs.Counts.{IsStudy};
ghost use Rattle.study_gen.specs.Tallies.{IsOutcome, HasRoom, HaveRoom, tally_with, Adds, AddsSet, IsStepTally};

use crate::parts::make_set;
use response_fixpoint::{Stop, Verdict, analyse};
use sporadic_model::{ModelRefusal, Parts, Protocol, TaskSet, refusals_are_exact};
use std::alloc::{AllocError, Global};
use std::thread::Threads;

/// The units that each analysis may take.
const ALLOWANCE: u64 = 1_000_000;

const STEPS: u32 = 8;

/// What a study has counted.
#[derive(Debug, Drop)]
pub struct StudyCounts {
    /// For each step: how many of its sets are schedulable under MPCP, FMLP+ and DPCP.
    pub counts: Vec<[u64; 3]>,
    /// How many analyses stopped, since a program was too wide or the units ran out.
    pub stopped: u64,
}

/// How an analysis ended.
#[derive(Clone, Copy, Debug)]
pub enum Outcome {
    Shown,
    NotShown,
    Stopped,
}

/// How many analyses under one protocol ended in each way.
#[derive(Clone, Copy, Debug)]
pub struct Tally {
    pub shown: u64,
    pub stopped: u64,
}

/// The counts of the sets of a step, and the state after them.
#[derive(Clone, Copy, Debug)]
pub struct StepTally {
    pub mpcp: Tally,
    pub fmlp: Tally,
    pub dpcp: Tally,
    pub state: u64,
}

const NOTHING: Tally = Tally {
    shown: 0,
    stopped: 0,
};

/// Analyses the set under a protocol.
fn outcome_of<R: Threads + Sync>(
    rt: &R,
    alloc: Global,
    set: &TaskSet,
    protocol: Protocol,
) -> Result<Outcome, AllocError>
    requires suits { HasHomesFor protocol set.now }
    ensures { IfOk result (λ o. IsOutcome o protocol set.now) }
{
    match analyse(rt, alloc, set, protocol, ALLOWANCE) {
        Ok(Verdict::Schedulable(_)) => Ok(Outcome::Shown),
        Ok(Verdict::NotShown { .. }) => Ok(Outcome::NotShown),
        Err(Stop::Wide(_)) => Ok(Outcome::Stopped),
        Err(Stop::Allowance) => Ok(Outcome::Stopped),
        Err(Stop::Memory) => Err(AllocError),
    }
}

/// The tally with one more analysis.
fn with_outcome(tally: Tally, outcome: Outcome) -> Tally
    requires { HasRoom tally }
    ensures { result ≡ tally_with tally outcome }
{
    match outcome {
        Outcome::Shown => Tally {
            shown: tally.shown + 1,
            stopped: tally.stopped,
        },
        Outcome::NotShown => tally,
        Outcome::Stopped => Tally {
            shown: tally.shown,
            stopped: tally.stopped + 1,
        },
    }
}

/// Analyses the set, and adds the outcome to the tally of the protocol.
fn tally_set<R: Threads + Sync>(
    rt: &R,
    alloc: Global,
    set: &TaskSet,
    protocol: Protocol,
    tally: Tally,
) -> Result<Tally, AllocError>
    requires suits { HasHomesFor protocol set.now }
    requires room { HasRoom tally }
    ensures { IfOk result (λ after. Adds tally after protocol set.now) }
{
    let outcome = outcome_of(rt, alloc, set, protocol)?;
    Ok(with_outcome(tally, outcome))
}

/// The set of parts that are accepted. So it fails only for want of memory.
fn set_of(alloc: Global, parts: Parts) -> Result<TaskSet, AllocError>
    requires { IsAccepted (parts_seen parts) }
    ensures { IfOk result (λ set. set ≡ parts_seen parts) }
{
    refusals_are_exact();
    match TaskSet::new(alloc, parts) {
        Ok(set) => Ok(set),
        Err(ModelRefusal::Memory) => Err(AllocError),
        Err(_) => unreachable!(),
    }
}

/// Makes and analyses one more set of a step.
fn study_set<R: Threads + Sync>(
    rt: &R,
    alloc: Global,
    step: u32,
    before: StepTally,
) -> Result<StepTally, AllocError>
    requires step { (1 ≤ step) × (step ≤ 8) }
    requires room { HaveRoom before }
    ensures { IfOk result (λ after. AddsSet before after (set_made step before.state)) }
{
    let (parts, state) = make_set(alloc, before.state, step)?;
    let set = set_of(alloc, parts)?;
    Ok(StepTally {
        mpcp: tally_set(rt, alloc, &set, Protocol::Mpcp, before.mpcp)?,
        fmlp: tally_set(rt, alloc, &set, Protocol::FmlpPlus, before.fmlp)?,
        dpcp: tally_set(rt, alloc, &set, Protocol::Dpcp, before.dpcp)?,
        state,
    })
}

/// Makes and analyses the sets of a step, from this state on.
fn study_step<R: Threads + Sync>(
    rt: &R,
    alloc: Global,
    state: u64,
    step: u32,
    sets: u32,
) -> Result<StepTally, AllocError>
    requires step { (1 ≤ step) × (step ≤ 8) }
    requires sets { sets ≤ 1000 }
    ensures { IfOk result (λ after. IsStepTally step state sets after) }
{
    let mut tally = StepTally {
        mpcp: NOTHING,
        fmlp: NOTHING,
        dpcp: NOTHING,
        state,
    };
    for _ in 0..sets {
        tally = study_set(rt, alloc, step, tally)?;
    }
    Ok(tally)
}

/// Counts, for steps 1 to 8, how many of this many generated sets are schedulable under each protocol.
///
/// `sets` is from 1 to 1000. The sets of all steps are made one after another, beginning with the seed. Each is analysed under MPCP, FMLP+
/// and DPCP with 1,000,000 units.
pub fn study<R: Threads + Sync>(
    rt: &R,
    alloc: Global,
    seed: u64,
    sets: u32,
) -> Result<StudyCounts, AllocError>
    requires from { 1 ≤ sets }
    requires to { sets ≤ 1000 }
    ensures { IfOk result (λ counts. IsStudy seed sets counts) }
{
    let mut counts = Vec::new(alloc);
    let mut stopped = 0;
    let mut state = seed;
    for i in 0..STEPS {
        let step = study_step(rt, alloc, state, i + 1, sets)?;
        counts.push([step.mpcp.shown, step.fmlp.shown, step.dpcp.shown])?;
        stopped += step.mpcp.stopped + step.fmlp.stopped + step.dpcp.stopped;
        state = step.state;
    }
    Ok(StudyCounts { counts, stopped })
}
