//! The works on a certificate.

ghost use Rattle.std.specs.Prelude.{Ok, IfOk, IfErr};
ghost use Rattle.program_form.specs.Certificate.{certificate_seen};
ghost use Rattle.named_laws.specs.Named.{source_of};
ghost use Rattle.dual_check.specs.Answers.{Judges};
ghost use Rattle.cert_json.specs.File.{file_seen};
ghost use Rattle.reply_texts.specs.Failing.{FailsTask};
ghost use Rattle.command_inputs.specs.Known.{Answer};
ghost use Rattle.command_inputs.specs.Halts.{HaltsWith, Answered};
ghost use Rattle.run_plans.specs.Commands.{IfTied, IsJudgement, IsCheck, IsFullTable, checked_answer, invalid_answer};
ghost use Rattle.block_top.specs.Replying.{CanJudge, RepliesWith};

use crate::tying::untied_reply;
use cert_json::CertFile;
use command_inputs::{Halt, Reply, Status};
use dual_check::{Invalid, Valid};
use named_protocols::check;
use program_form::Certificate;
use protocol_names::ProtocolName;
use reply_texts::{invalid_line, valid_line};
use report::full_table;
use sporadic_model::TaskSet;
use std::alloc::{AllocError, Global};

/// The reply if a certificate isn't valid.
pub(crate) fn invalid_reply(
    alloc: Global,
    set: &TaskSet,
    failure: Invalid,
) -> Result<Reply, AllocError>
    requires { FailsTask set.now failure }
    ensures { RepliesWith result (invalid_answer set.now failure) }
{
    Ok(Reply {
        status: Status::No,
        text: invalid_line(alloc, set, failure)?,
    })
}

/// The reply if a certificate is valid.
fn valid_reply(alloc: Global) -> Result<Reply, AllocError>
    ensures { RepliesWith result checked_answer }
{
    Ok(Reply {
        status: Status::Done,
        text: valid_line(alloc)?,
    })
}

/// What the certificate proves, if it is valid. If not, halts with the reply that names its first failure. This reply is the judgement,
/// whatever the answer on a valid certificate is.
pub(crate) fn validity(
    alloc: Global,
    protocol: ProtocolName,
    set: &TaskSet,
    certificate: &Certificate,
) -> Result<Valid, Halt>
    requires { CanJudge protocol set.now (certificate_seen certificate.now) }
    ensures valid { IfOk result (λ v. Judges (Ok v) (source_of protocol set.now) (certificate_seen certificate.now)) }
    ensures invalid { (told : Answer) → IfErr result (λ h. HaltsWith h (IsJudgement protocol set.now (certificate_seen certificate.now) told)) }
{
    match check(alloc, protocol, set, certificate) {
        Ok(valid) => Ok(valid),
        Err(Invalid::Memory) => Err(Halt::Memory),
        Err(failure) => Err(Halt::Reply(invalid_reply(alloc, set, failure)?)),
    }
}

/// Judges the certificate.
fn certificate_judgement(
    alloc: Global,
    protocol: ProtocolName,
    set: &TaskSet,
    certificate: &Certificate,
) -> Result<Reply, Halt>
    requires { CanJudge protocol set.now (certificate_seen certificate.now) }
    ensures { Answered result (IsCheck protocol set.now (certificate_seen certificate.now)) }
{
    validity(alloc, protocol, set, certificate)?;
    Ok(valid_reply(alloc)?)
}

/// The work of `check`, on the set of this digest.
pub fn judgement(
    alloc: Global,
    protocol: ProtocolName,
    digest: &[u8; 32],
    set: &TaskSet,
    file: &CertFile,
) -> Result<Reply, Halt>
    requires { CanJudge protocol set.now (certificate_seen file.now.certificate) }
    ensures { Answered result (IfTied digest.now (file_seen file.now) (IsCheck protocol set.now)) }
{
    match untied_reply(alloc, file, digest)? {
        Some(reply) => Ok(reply),
        None => certificate_judgement(alloc, protocol, set, &file.certificate),
    }
}

/// Judges the certificate, and tells what it proves.
fn full_table_reply(
    alloc: Global,
    protocol: ProtocolName,
    set: &TaskSet,
    certificate: &Certificate,
) -> Result<Reply, Halt>
    requires { CanJudge protocol set.now (certificate_seen certificate.now) }
    ensures { Answered result (IsFullTable protocol set.now (certificate_seen certificate.now)) }
{
    let valid = validity(alloc, protocol, set, certificate)?;
    Ok(Reply {
        status: Status::Done,
        text: full_table(alloc, set, certificate, &valid.values)?,
    })
}

/// The work of `report` with a certificate, on the set of this digest.
pub fn proved_table(
    alloc: Global,
    protocol: ProtocolName,
    digest: &[u8; 32],
    set: &TaskSet,
    file: &CertFile,
) -> Result<Reply, Halt>
    requires { CanJudge protocol set.now (certificate_seen file.now.certificate) }
    ensures { Answered result (IfTied digest.now (file_seen file.now) (IsFullTable protocol set.now)) }
{
    match untied_reply(alloc, file, digest)? {
        Some(reply) => Ok(reply),
        None => full_table_reply(alloc, protocol, set, &file.certificate),
    }
}
