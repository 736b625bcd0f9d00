//! The work of `settle`.

ghost use Rattle.std.specs.Prelude.{◌≡◌, IfOk};
ghost use Rattle.refusal_laws.specs.Seen.{steps_seen};
ghost use Rattle.settling.specs.Answers.{NamesTask};
ghost use Rattle.named_laws.specs.Named.{HasHomes};
ghost use Rattle.run_plans.specs.Settling.{IsSettlement, refused_answer};
ghost use Rattle.run_plans.specs.SettlementReplies.{RepliesToSettling};
ghost use Rattle.command_inputs.specs.Halts.{reply_seen, Answered};

use crate::work::{allowance_reply, certificate_reply, wide_reply};
use command_inputs::{Halt, Reply, Status};
use named_protocols::settle;
use protocol_names::ProtocolName;
use refusal_json::write_refusal;
use refusal_laws::Refusal;
use settling::{SettleStop, Settled};
use sporadic_model::TaskSet;
use std::alloc::{AllocError, Global};
use std::thread::Threads;

/// The reply if no bounds fit: a refusal for the set of this digest.
fn none_fits_reply(
    alloc: Global,
    protocol: ProtocolName,
    digest: &[u8; 32],
    refusal: &Refusal,
) -> Result<Reply, AllocError>
    ensures { IfOk result (λ r. reply_seen r ≡ refused_answer protocol digest.now (steps_seen refusal.now)) }
{
    Ok(Reply {
        status: Status::No,
        text: write_refusal(alloc, protocol.word(), digest, refusal)?,
    })
}

/// The reply to the result of settling the set of this digest.
fn settling_reply(
    alloc: Global,
    protocol: ProtocolName,
    digest: &[u8; 32],
    set: &TaskSet,
    answer: Result<Settled, SettleStop>,
) -> Result<Reply, AllocError>
    requires { NamesTask set.now answer }
    ensures { IfOk result (λ r. RepliesToSettling protocol digest.now set.now answer (reply_seen r)) }
{
    match answer {
        Ok(Settled::Schedulable(certificate)) => {
            certificate_reply(alloc, protocol, digest, &certificate)
        }
        Ok(Settled::Refused(refusal)) => none_fits_reply(alloc, protocol, digest, &refusal),
        Err(SettleStop::Wide(task)) => wide_reply(alloc, set, task),
        Err(SettleStop::Allowance) => allowance_reply(alloc),
        Err(SettleStop::Memory) => Err(AllocError),
    }
}

/// The work of `settle`, on the set of this digest.
pub fn settlement<R: Threads + Sync>(
    rt: &R,
    alloc: Global,
    digest: &[u8; 32],
    set: &TaskSet,
    protocol: ProtocolName,
    allowance: u64,
) -> Result<Reply, Halt>
    requires { HasHomes protocol set.now }
    ensures { Answered result (IsSettlement protocol digest.now set.now allowance) }
{
    let answer = settle(rt, alloc, set, protocol, allowance);
    Ok(settling_reply(alloc, protocol, digest, set, answer)?)
}
