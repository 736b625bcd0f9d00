//! The works on refusals.

ghost use Rattle.std.specs.Prelude.{IfOk};
ghost use Rattle.protocol_names.specs.Names.{word_of};
ghost use Rattle.refusal_laws.specs.Steps.{HasDenominators};
ghost use Rattle.refusal_laws.specs.Seen.{steps_seen};
ghost use Rattle.refusal_json.specs.Text.{refusal_text};
ghost use Rattle.named_laws.specs.Named.{HasHomes};
ghost use Rattle.reply_texts.specs.Refuted.{schedulable_text};
ghost use Rattle.run_plans.specs.Refuting.{IsRefutation, IsConfirmation, confirmed_answer, unconfirmed_answer};
ghost use Rattle.run_plans.specs.Commands.{IsTiedConfirmation};
ghost use Rattle.command_inputs.specs.Halts.{reply_seen, Answered};
ghost use Rattle.command_inputs.specs.RefusalSeen.{refusal_seen};
ghost use Rattle.run_plans.specs.RefusalReplies.{NamesWide, RepliesToRefutation};
ghost use Rattle.block_top.specs.Replying.{RepliesWith, Says};

use crate::tying::{are_same, other_set_reply};
use crate::work::{allowance_reply, wide_reply};
use command_inputs::{Halt, Reply, Status};
use named_protocols::{confirm, refute};
use protocol_names::ProtocolName;
use refusal_cert::{Answer, RefuteStop};
use refusal_confirm::Fault;
use refusal_json::write_refusal;
use refusal_laws::Refusal;
use reply_texts::{confirmed_line, schedulable_line, unconfirmed_line};
use sporadic_model::TaskSet;
use std::alloc::{AllocError, Global};
use std::thread::Threads;

/// The reply with a refusal for the set of this digest.
fn refused_reply(
    alloc: Global,
    protocol: ProtocolName,
    digest: &[u8; 32],
    refusal: &Refusal,
) -> Result<Reply, AllocError>
    ensures { Says result 0 (refusal_text (word_of protocol) digest.now (steps_seen refusal.now)) }
{
    Ok(Reply {
        status: Status::Done,
        text: write_refusal(alloc, protocol.word(), digest, refusal)?,
    })
}

/// The reply if a set is schedulable, so that there is no refusal.
fn schedulable_reply(alloc: Global) -> Result<Reply, AllocError>
    ensures { Says result 1 schedulable_text }
{
    Ok(Reply {
        status: Status::No,
        text: schedulable_line(alloc)?,
    })
}

/// The reply to a refutation of the set of this digest.
fn refuting_reply(
    alloc: Global,
    protocol: ProtocolName,
    digest: &[u8; 32],
    set: &TaskSet,
    answer: Result<Answer, RefuteStop>,
) -> Result<Reply, AllocError>
    requires { NamesWide set.now answer }
    ensures { IfOk result (λ r. RepliesToRefutation protocol digest.now set.now answer (reply_seen r)) }
{
    match answer {
        Ok(Answer::Refused(refusal)) => refused_reply(alloc, protocol, digest, &refusal),
        Ok(Answer::Schedulable) => schedulable_reply(alloc),
        Err(RefuteStop::Wide(task)) => wide_reply(alloc, set, task),
        Err(RefuteStop::Allowance) => allowance_reply(alloc),
        Err(RefuteStop::Memory) => Err(AllocError),
    }
}

/// The work of `refute`, on the set of this digest.
pub fn refutation(
    alloc: Global,
    digest: &[u8; 32],
    set: &TaskSet,
    protocol: ProtocolName,
    allowance: u64,
) -> Result<Reply, Halt>
    requires { HasHomes protocol set.now }
    ensures { Answered result (IsRefutation protocol digest.now set.now allowance) }
{
    let answer = refute(alloc, set, protocol, allowance);
    Ok(refuting_reply(alloc, protocol, digest, set, answer)?)
}

/// The reply if a refusal holds.
fn confirmed_reply(alloc: Global) -> Result<Reply, AllocError>
    ensures { RepliesWith result confirmed_answer }
{
    Ok(Reply {
        status: Status::Done,
        text: confirmed_line(alloc)?,
    })
}

/// The reply if a refusal doesn't hold.
fn unconfirmed_reply(alloc: Global, fault: Fault) -> Result<Reply, AllocError>
    ensures { RepliesWith result (unconfirmed_answer fault) }
{
    Ok(Reply {
        status: Status::No,
        text: unconfirmed_line(alloc, fault)?,
    })
}

/// Judges the refusal.
fn refusal_judgement<R: Threads + Sync>(
    rt: &R,
    alloc: Global,
    protocol: ProtocolName,
    set: &TaskSet,
    refusal: &Refusal,
) -> Result<Reply, Halt>
    requires suits { HasHomes protocol set.now }
    requires denominators { HasDenominators (steps_seen refusal.now) }
    ensures { Answered result (IsConfirmation protocol set.now (steps_seen refusal.now)) }
{
    match confirm(rt, alloc, set, protocol, refusal) {
        Ok(()) => Ok(confirmed_reply(alloc)?),
        Err(Fault::Memory) => Err(Halt::Memory),
        Err(fault) => Ok(unconfirmed_reply(alloc, fault)?),
    }
}

/// The work of `confirm`, on the set of this digest. `own` is the digest that the refusal's file names.
pub fn confirmation<R: Threads + Sync>(
    rt: &R,
    alloc: Global,
    protocol: ProtocolName,
    digest: &[u8; 32],
    set: &TaskSet,
    refusal: &Refusal,
    own: &[u8; 32],
) -> Result<Reply, Halt>
    requires suits { HasHomes protocol set.now }
    requires denominators { HasDenominators (steps_seen refusal.now) }
    ensures { Answered result (IsTiedConfirmation protocol digest.now set.now (refusal_seen refusal.now own.now)) }
{
    if !are_same(own, digest) {
        return Ok(other_set_reply(alloc)?);
    }
    refusal_judgement(rt, alloc, protocol, set, refusal)
}
