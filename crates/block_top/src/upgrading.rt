//! The work on a certificate of the version before.

ghost use Rattle.program_form.specs.Certificate.{certificate_seen};
ghost use Rattle.command_inputs.specs.Halts.{Answered};
ghost use Rattle.run_plans.specs.Commands.{IsJudgement, upgraded_answer};
ghost use Rattle.block_top.specs.Replying.{CanJudge};

use crate::judging::validity;
use crate::work::certificate_reply;
use command_inputs::{Halt, Reply};
use program_form::Certificate;
use protocol_names::ProtocolName;
use sporadic_model::TaskSet;
use std::alloc::Global;

/// The work of `upgrade`, on the set of this digest.
pub fn upgrade(
    alloc: Global,
    protocol: ProtocolName,
    digest: &[u8; 32],
    set: &TaskSet,
    certificate: &Certificate,
) -> Result<Reply, Halt>
    requires { CanJudge protocol set.now (certificate_seen certificate.now) }
    ensures { Answered result (IsJudgement protocol set.now (certificate_seen certificate.now)
        (upgraded_answer protocol digest.now (certificate_seen certificate.now))) }
{
    validity(alloc, protocol, set, certificate)?;
    Ok(certificate_reply(alloc, protocol, digest, certificate)?)
}
