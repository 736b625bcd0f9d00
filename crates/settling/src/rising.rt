//! The walk: bounds rise from the costs by points that are tested, until none rises or one passes its task's latest bound.

ghost use Rattle.std.specs.Prelude.{IfOk, IfErr};
ghost use Rattle.program_sources.specs.Recurrence.{source_at};
ghost use Rattle.settling.specs.Rising.{Rises, StopsWalk};

use crate::answer::SettleStop;
use crate::finding::Points;
use crate::reached::Reached;
use crate::rounds::{Round, take_round};
use crate::steps::Steps;
use least_laws::{costs_are_below_all_fitting, reached_responses_are_below_all_fitting};
use program_sources::ProgramSource;
use refusal_laws::Refusal;
use response_fixpoint::costs;
use sporadic_model::TaskSet;
use std::alloc::Global;
use std::thread::Threads;

/// Where a walk ends.
#[derive(Drop)]
pub(crate) enum Risen {
    /// No bound rises any more: the bounds, and what was found at them.
    Fixed(Vec<u64>, Vec<Reached>),
    /// A value passes its task's latest bound, so nothing fits: the refusal of the steps that led there, if all are written in 63 bits.
    Late(Option<Refusal>),
}

/// Raises bounds from the costs, with so many units: one for each task of a round, and one more for each exchange of its program's run.
pub(crate) fn rise<R: Threads + Sync, P: ProgramSource + Sync>(
    rt: &R,
    alloc: Global,
    set: &TaskSet,
    protocol: &P,
    points: Points,
    allowance: u64,
) -> Result<Risen, SettleStop>
    requires serves { P.serves protocol.now set.now }
    ensures rises { IfOk result (Rises points (source_at (P.source protocol.now) set.now) allowance) }
    ensures stops { IfErr result (StopsWalk points (source_at (P.source protocol.now) set.now) allowance) }
{
    costs_are_below_all_fitting();
    reached_responses_are_below_all_fitting::<P>();
    // a set has a task, so each round takes a unit, and the walk ends
    let _tasks = set.tasks();
    let mut bounds = costs(alloc, set)?;
    let mut before = Vec::new(alloc);
    let mut steps = Steps::new(alloc);
    let mut spent = 0;
    loop {
        let left = allowance - spent;
        let round = take_round(
            rt, alloc, set, protocol, points, &bounds, &before, left, &mut steps,
        );
        let Round {
            used,
            next,
            reached,
        } = match round {
            Ok(Some(round)) => round,
            Ok(None) => return Ok(Risen::Late(steps.refusal())),
            Err(stop) => return Err(stop),
        };
        if next == bounds {
            return Ok(Risen::Fixed(bounds, reached));
        }
        spent += used;
        before = reached;
        bounds = next;
    }
}
