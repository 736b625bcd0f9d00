//! Refusals by the steps of walks.

ghost use Rattle.std.specs.Prelude.{◌<◌, ◌≤◌, IfOk, IfSome, IsTrue, length};
ghost use Rattle.program_sources.specs.Recurrence.{source_at};
ghost use Rattle.refusal_laws.specs.Seen.{steps_seen};
ghost use Rattle.settling.specs.Answers.{Has64Bits, IsAnswered, IsRefusedSo, IsToRefuse};
ghost use Rattle.settling.specs.Trails.{HasSmallPoints, IsRefusal};

use crate::answer::{SettleStop, Settled};
use crate::certificates::is_small;
use crate::finding::Points;
use crate::rising::{Risen, rise};
use crate::shortening::shorten;
use program_sources::ProgramSource;
use refusal_confirm::{Fault, confirm, has_denominators};
use refusal_laws::{Refusal, RefusalStep, refusals_are_right};
use sporadic_model::{TaskId, TaskSet};
use std::alloc::{AllocError, Global};
use std::thread::Threads;

/// Does each point have only numbers of 63 bits?
fn has_small_points(refusal: &Refusal) -> bool
    ensures { IsTrue result → HasSmallPoints (steps_seen refusal.now) }
{
    for k in 0..refusal.steps.len() {
        if !is_small(&refusal.steps[k].point) {
            return false;
        }
    }
    true
}

/// The greater of a step's task and value.
fn greater_number(step: &RefusalStep) -> u64
    ensures task { step.now.task ≤ result }
    ensures value { step.now.value ≤ result }
{
    step.task.max(step.value)
}

/// The tasks and values of a refusal have 64 bits. This reads each, and does nothing else.
pub(crate) fn keeps_64_bits(refusal: &Refusal)
    ensures { Has64Bits (steps_seen refusal.now) }
{
    for k in 0..refusal.steps.len() {
        let _most = greater_number(&refusal.steps[k]);
    }
}

/// Does the refusal hold, with small points? This confirms it.
fn is_confirmed<R: Threads + Sync, P: ProgramSource + Sync>(
    rt: &R,
    alloc: Global,
    set: &TaskSet,
    protocol: &P,
    refusal: &Refusal,
) -> Result<bool, AllocError>
    requires serves { P.serves protocol.now set.now }
    ensures { IfOk result (λ yes. IsTrue yes → IsRefusal (source_at (P.source protocol.now) set.now) (steps_seen refusal.now)) }
{
    if !has_denominators(refusal) || !has_small_points(refusal) {
        return Ok(false);
    }
    match confirm(rt, alloc, set, protocol, refusal) {
        Ok(()) => Ok(true),
        Err(Fault::Memory) => Err(AllocError),
        Err(_) => Ok(false),
    }
}

/// The refusal without steps that its last one doesn't need, if what is left is confirmed.
fn confirmed_shorter<R: Threads + Sync, P: ProgramSource + Sync>(
    rt: &R,
    alloc: Global,
    set: &TaskSet,
    protocol: &P,
    refusal: &Refusal,
) -> Result<Option<Refusal>, AllocError>
    requires serves { P.serves protocol.now set.now }
    ensures { IfOk result (λ o. IfSome o (λ r. IsRefusal (source_at (P.source protocol.now) set.now) (steps_seen r))) }
{
    let shorter = shorten(alloc, set, protocol, refusal)?;
    if is_confirmed(rt, alloc, set, protocol, &shorter)? {
        return Ok(Some(shorter));
    }
    Ok(None)
}

/// Answers a refusal that holds, without steps that its last one doesn't need. If that isn't confirmed, or memory runs out over it, the
/// whole one is answered.
pub(crate) fn answer_refusal<R: Threads + Sync, P: ProgramSource + Sync>(
    rt: &R,
    alloc: Global,
    set: &TaskSet,
    protocol: &P,
    refusal: Refusal,
) -> Settled
    requires serves { P.serves protocol.now set.now }
    requires holds { IsRefusal (source_at (P.source protocol.now) set.now) (steps_seen refusal) }
    ensures { IsRefusedSo (source_at (P.source protocol.now) set.now) result }
{
    refusals_are_right::<P>();
    let answered = match confirmed_shorter(rt, alloc, set, protocol, &refusal) {
        Ok(Some(shorter)) => shorter,
        Ok(None) => refusal,
        Err(AllocError) => refusal,
    };
    keeps_64_bits(&answered);
    Settled::Refused(answered)
}

/// A refusal by points that are rounded down. If they lead to none, settling stops at this task.
pub(crate) fn refuse_by_rounded_points<R: Threads + Sync, P: ProgramSource + Sync>(
    rt: &R,
    alloc: Global,
    set: &TaskSet,
    protocol: &P,
    task: TaskId,
    allowance: u64,
) -> Result<Settled, SettleStop>
    requires serves { P.serves protocol.now set.now }
    requires task { task.0 < length set.now.tasks }
    requires left { IsToRefuse (source_at (P.source protocol.now) set.now) allowance }
    ensures { IsAnswered (source_at (P.source protocol.now) set.now) allowance result }
{
    match rise(rt, alloc, set, protocol, Points::Rounded, allowance) {
        Ok(Risen::Late(Some(refusal))) => Ok(answer_refusal(rt, alloc, set, protocol, refusal)),
        Ok(Risen::Late(None)) => unreachable!(),
        Ok(Risen::Fixed(..)) => Err(SettleStop::Wide(task)),
        Err(stop) => Err(stop),
    }
}
