ghost use Rattle.std.specs.Prelude.{◌≡◌, ◌<◌, ◌≤◌, true, length, IfOk, slice_index_or};
ghost use Rattle.program_form.specs.Certificate.{certificate_seen};
ghost use Rattle.sporadic_model.specs.declared.limits.TheConstants.{MOST_TICKS};
ghost use Rattle.schedule_model.specs.RowDef.{trace_in, ticks_of};
ghost use Rattle.schedule_model.specs.Fitting.{is_fitting, IsMadeFor};
ghost use Rattle.protocol_names.specs.Names.{word_of};
ghost use Rattle.cert_json.specs.Text.{certificate_text};
ghost use Rattle.trace_csv.specs.Written.{rows_text};
ghost use Rattle.schedule_answers.specs.TaskAnswers.{measure_seen, no_measure};
ghost use Rattle.named_laws.specs.Named.{HasHomes, rules_of, interference_of};
ghost use Rattle.named_protocols.specs.Analysed.{ConformsUnder};
ghost use Rattle.sporadic_model.specs.SetDef.{task_at, latest_bound};
ghost use Rattle.reply_texts.specs.Texts.{not_shown_text, wide_text, allowance_text, lawful_text, broken_text};
ghost use Rattle.run_plans.specs.Commands.{IsAnalysis, IsTable, IsConformance, IsSimulation};
ghost use Rattle.run_plans.specs.Outcome.{refused_words};
ghost use Rattle.command_inputs.specs.Halts.{reply_seen, Answered};
ghost use Rattle.run_plans.specs.Replies.{RepliesTo};
ghost use Rattle.run_plans.specs.Reached.{NamesTask};
ghost use Rattle.block_top.specs.Replying.{Says};

use command_inputs::{Halt, Reply, Status};
use named_protocols::{analyse, conform_rows, simulate};
use program_form::Certificate;
use protocol_names::ProtocolName;
use reply_texts::{
    allowance_line, broken_line, lawful_lines, no_form_line, not_shown_line, wide_line,
};
use report::set_table;
use response_fixpoint::{Stop, Verdict};
use schedule_model::{JobList, RowList};
use sporadic_model::{TaskId, TaskSet};
use std::alloc::{AllocError, Global};
use std::thread::Threads;
use trace_conform::{Breach, Measured, TaskMeasure, Unlawful};
use trace_csv::{RowText, write_rows};

/// The reply with a certificate for the set of this digest.
pub(crate) fn certificate_reply(
    alloc: Global,
    protocol: ProtocolName,
    digest: &[u8; 32],
    certificate: &Certificate,
) -> Result<Reply, AllocError>
    ensures { Says result 0 (certificate_text (word_of protocol) digest.now (certificate_seen certificate.now)) }
{
    Ok(Reply {
        status: Status::Done,
        text: cert_json::write(alloc, protocol.word(), digest, certificate)?,
    })
}

/// The reply if a task's value passes its latest bound.
fn not_shown_reply(
    alloc: Global,
    set: &TaskSet,
    task: TaskId,
    bound: u64,
) -> Result<Reply, AllocError>
    requires { task.0 < length set.now.tasks }
    ensures { Says result 1 (not_shown_text (task_at set.now task.0).name bound (latest_bound (task_at set.now task.0))) }
{
    Ok(Reply {
        status: Status::No,
        text: not_shown_line(alloc, set.task_name(task), bound, set.latest_bound(task))?,
    })
}

/// The reply if a task's program is too wide.
pub(crate) fn wide_reply(alloc: Global, set: &TaskSet, task: TaskId) -> Result<Reply, AllocError>
    requires { task.0 < length set.now.tasks }
    ensures { Says result 5 (wide_text (task_at set.now task.0).name) }
{
    Ok(Reply {
        status: Status::Wide,
        text: wide_line(alloc, set.task_name(task))?,
    })
}

/// The reply if the programs want more units than the allowance.
pub(crate) fn allowance_reply(alloc: Global) -> Result<Reply, AllocError>
    ensures { Says result 6 allowance_text }
{
    Ok(Reply {
        status: Status::Allowance,
        text: allowance_line(alloc)?,
    })
}

/// The reply to an analysis of the set of this digest.
fn verdict_reply(
    alloc: Global,
    protocol: ProtocolName,
    digest: &[u8; 32],
    set: &TaskSet,
    verdict: Result<Verdict, Stop>,
) -> Result<Reply, AllocError>
    requires { NamesTask set.now verdict }
    ensures { IfOk result (λ r. RepliesTo protocol digest.now set.now verdict (reply_seen r)) }
{
    match verdict {
        Ok(Verdict::Schedulable(certificate)) => {
            certificate_reply(alloc, protocol, digest, &certificate)
        }
        Ok(Verdict::NotShown { task, bound }) => { not_shown_reply(alloc, set, task, bound) }
        Err(Stop::Wide(task)) => wide_reply(alloc, set, task),
        Err(Stop::Allowance) => allowance_reply(alloc),
        Err(Stop::Memory) => Err(AllocError),
    }
}

/// The work of `analyse`, on the set of this digest.
pub fn analysis<R: Threads + Sync>(
    rt: &R,
    alloc: Global,
    digest: &[u8; 32],
    set: &TaskSet,
    protocol: ProtocolName,
    allowance: u64,
) -> Result<Reply, Halt>
    requires { HasHomes protocol set.now }
    ensures { Answered result (IsAnalysis protocol digest.now set.now allowance) }
{
    let verdict = analyse(rt, alloc, set, protocol, allowance);
    Ok(verdict_reply(alloc, protocol, digest, set, verdict)?)
}

/// The work of `report`.
pub fn table(alloc: Global, set: &TaskSet) -> Result<Reply, Halt>
    ensures { Answered result (IsTable set.now) }
{
    Ok(Reply {
        status: Status::Done,
        text: set_table(alloc, set)?,
    })
}

/// The reply if each row keeps the rules.
fn lawful_reply(
    alloc: Global,
    set: &TaskSet,
    ticks: u64,
    measures: &[TaskMeasure],
) -> Result<Reply, AllocError>
    requires { length measures.now ≡ length set.now.tasks }
    ensures { Says result 0 (lawful_text set.now ticks (λ x. measure_seen (slice_index_or measures.now x no_measure))) }
{
    Ok(Reply {
        status: Status::Done,
        text: lawful_lines(alloc, set, ticks, measures)?,
    })
}

/// The reply if a row breaks a rule.
pub(crate) fn broken_reply(alloc: Global, breach: Breach) -> Result<Reply, AllocError>
    ensures { Says result 1 (broken_text breach.tick breach.rule) }
{
    Ok(Reply {
        status: Status::No,
        text: broken_line(alloc, breach)?,
    })
}

/// Judges the rows of a text.
fn measures_of_text(
    alloc: Global,
    protocol: ProtocolName,
    jobs: &JobList<'_>,
    rows: &RowText<'_>,
) -> Result<Measured, Unlawful>
    requires suits { HasHomes protocol jobs.now.set }
    requires fits { is_fitting rows.now jobs.now ≡ true }
    ensures { ConformsUnder protocol jobs.now rows.now result }
{
    let mut reader = rows.rows(alloc)?;
    conform_rows(alloc, protocol, jobs, &mut reader)
}

/// The work of `conform`.
pub fn conformance(
    alloc: Global,
    protocol: ProtocolName,
    jobs: &JobList<'_>,
    rows: &RowText<'_>,
) -> Result<Reply, Halt>
    requires suits { HasHomes protocol jobs.now.set }
    requires made { IsMadeFor rows.now jobs.now }
    ensures { Answered result (IsConformance (rules_of protocol) (interference_of protocol)
        (trace_in jobs.now rows.now.runs) (ticks_of rows.now.runs)) }
{
    let ticks = rows.ticks();
    match measures_of_text(alloc, protocol, jobs, rows) {
        Ok(measured) => Ok(lawful_reply(alloc, jobs.set(), ticks, &measured.tasks)?),
        Err(Unlawful::Broken(breach)) => Ok(broken_reply(alloc, breach)?),
        Err(Unlawful::Memory) => Err(Halt::Memory),
    }
}

/// The text of rows that fit the jobs.
fn rows_of_jobs(alloc: Global, jobs: &JobList<'_>, rows: &RowList) -> Result<Vec<u8>, AllocError>
    requires { is_fitting rows.now jobs.now ≡ true }
    ensures { IfOk result (λ text. text.items ≡ rows_text jobs.now.set rows.now.runs) }
{
    write_rows(alloc, jobs.set(), rows)
}

/// The work of `simulate`.
pub fn simulation(
    alloc: Global,
    protocol: ProtocolName,
    jobs: &JobList<'_>,
    ticks: u64,
) -> Result<Reply, Halt>
    requires suits { HasHomes protocol jobs.now.set }
    requires some { 1 ≤ ticks }
    requires most { ticks ≤ MOST_TICKS }
    ensures { Answered result (IsSimulation protocol jobs.now ticks) }
{
    let rows = simulate(alloc, protocol, jobs, ticks)?;
    Ok(Reply {
        status: Status::Done,
        text: rows_of_jobs(alloc, jobs, &rows)?,
    })
}

/// The reply to words that have no form.
pub fn no_form_reply(alloc: Global) -> Result<Reply, Halt>
    ensures { Answered result (λ answer. answer ≡ refused_words) }
{
    Ok(Reply {
        status: Status::RefusedWords,
        text: no_form_line(alloc)?,
    })
}
