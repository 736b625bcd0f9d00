//! The work on a certificate and a schedule.

ghost use Rattle.std.specs.Prelude.{◌≡◌, true, length, slice_index_or};
ghost use Rattle.program_form.specs.Certificate.{certificate_seen};
ghost use Rattle.schedule_model.specs.RowDef.{trace_in, ticks_of};
ghost use Rattle.schedule_model.specs.Fitting.{is_fitting, IsMadeFor};
ghost use Rattle.schedule_answers.specs.TaskAnswers.{no_figures};
ghost use Rattle.figure_laws.specs.Audited.{Audits};
ghost use Rattle.named_laws.specs.Named.{rules_of, interference_of, charges_of, source_of};
ghost use Rattle.reply_texts.specs.Texts.{kept_text};
ghost use Rattle.cert_json.specs.File.{file_seen};
ghost use Rattle.command_inputs.specs.Halts.{Answered};
ghost use Rattle.run_plans.specs.Commands.{IfTied, IsAuditOf};
ghost use Rattle.block_top.specs.Replying.{CanJudge, Says};

use crate::judging::invalid_reply;
use crate::tying::untied_reply;
use crate::work::broken_reply;
use audit_figures::{AuditStop, TaskFigures};
use cert_json::CertFile;
use command_inputs::{Halt, Reply, Status};
use named_protocols::audit_rows;
use program_form::Certificate;
use protocol_names::ProtocolName;
use reply_texts::kept_lines;
use schedule_model::JobList;
use sporadic_model::TaskSet;
use std::alloc::{AllocError, Global};
use trace_csv::RowText;

/// The reply if each row keeps the rules, and so the bounds.
fn kept_reply(
    alloc: Global,
    set: &TaskSet,
    ticks: u64,
    figures: &[TaskFigures],
) -> Result<Reply, AllocError>
    requires { length figures.now ≡ length set.now.tasks }
    ensures { Says result 0 (kept_text set.now ticks (λ x. slice_index_or figures.now x no_figures)) }
{
    Ok(Reply {
        status: Status::Done,
        text: kept_lines(alloc, set, ticks, figures)?,
    })
}

/// The figures of the rows of a text.
fn figures_of_text(
    alloc: Global,
    protocol: ProtocolName,
    certificate: &Certificate,
    jobs: &JobList<'_>,
    rows: &RowText<'_>,
) -> Result<Vec<TaskFigures>, AuditStop>
    requires judges { CanJudge protocol jobs.now.set (certificate_seen certificate.now) }
    requires fits { is_fitting rows.now jobs.now ≡ true }
    ensures { Audits (rules_of protocol) (interference_of protocol) (charges_of protocol) (source_of protocol jobs.now.set)
        (certificate_seen certificate.now) (trace_in jobs.now rows.now.runs) (ticks_of rows.now.runs) result }
{
    let mut reader = rows.rows(alloc)?;
    audit_rows(alloc, protocol, certificate, jobs, &mut reader)
}

/// Audits the rows against the certificate.
fn audit_reply(
    alloc: Global,
    protocol: ProtocolName,
    certificate: &Certificate,
    jobs: &JobList<'_>,
    rows: &RowText<'_>,
) -> Result<Reply, Halt>
    requires judges { CanJudge protocol jobs.now.set (certificate_seen certificate.now) }
    requires made { IsMadeFor rows.now jobs.now }
    ensures { Answered result (IsAuditOf protocol jobs.now rows.now (certificate_seen certificate.now)) }
{
    let ticks = rows.ticks();
    match figures_of_text(alloc, protocol, certificate, jobs, rows) {
        Ok(figures) => Ok(kept_reply(alloc, jobs.set(), ticks, &figures)?),
        Err(AuditStop::Invalid(failure)) => Ok(invalid_reply(alloc, jobs.set(), failure)?),
        Err(AuditStop::Broken(breach)) => Ok(broken_reply(alloc, breach)?),
        Err(AuditStop::Memory) => Err(Halt::Memory),
    }
}

/// The work of `audit`, on the set of this digest.
pub fn audit(
    alloc: Global,
    protocol: ProtocolName,
    digest: &[u8; 32],
    file: &CertFile,
    jobs: &JobList<'_>,
    rows: &RowText<'_>,
) -> Result<Reply, Halt>
    requires judges { CanJudge protocol jobs.now.set (certificate_seen file.now.certificate) }
    requires made { IsMadeFor rows.now jobs.now }
    ensures { Answered result (IfTied digest.now (file_seen file.now) (IsAuditOf protocol jobs.now rows.now)) }
{
    match untied_reply(alloc, file, digest)? {
        Some(reply) => Ok(reply),
        None => audit_reply(alloc, protocol, &file.certificate, jobs, rows),
    }
}
