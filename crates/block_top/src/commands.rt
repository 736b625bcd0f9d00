ghost use Rattle.std.specs.Prelude.{◌≤◌, IfOk};
ghost use Rattle.sporadic_model.specs.declared.limits.TheConstants.{MOST_TICKS};
ghost use Rattle.named_laws.specs.Named.{HasHomes};
ghost use Rattle.command_words.specs.Words.{words_seen};
ghost use Rattle.command_words.specs.FormSeen.{plain_form, tied_form, form_seen, HasFittingNumbers};
ghost use Rattle.run_plans.specs.Commands.{check_of, full_table_of, upgrading, with_certificate, judging_rows, judging_jobs};
ghost use Rattle.run_plans.specs.Commands.{simulating_jobs, plan_of, auditing_rows, auditing_jobs, auditing, confirming};
ghost use Rattle.program_form.specs.Certificate.{certificate_seen};
ghost use Rattle.cert_json.specs.File.{file_seen};
ghost use Rattle.command_inputs.specs.Known.{shown};
ghost use Rattle.run_plans.specs.Outcome.{IsReply};
ghost use Rattle.command_inputs.specs.Got.{Keeps};
ghost use Rattle.command_inputs.specs.Halts.{reply_seen};
ghost use Rattle.run_plans.specs.Replies.{AnswersPlan};
ghost use Rattle.block_top.specs.Replying.{CanJudge};

use crate::auditing::audit;
use crate::deciding::settlement;
use crate::judging::{judgement, proved_table};
use crate::refusing::{confirmation, refutation};
use crate::study::study_counts;
use crate::upgrading::upgrade;
use crate::work::{analysis, conformance, no_form_reply, simulation, table};
use cert_json::CertFile;
use command_inputs::{
    CertFor, Halt, JobsOf, OldCertFor, RefusalFor, Reply, SetFor, get, get_rows, get_tied_set,
    reply_of,
};
use command_words::{AuditInputs, Command, PlainWork, TiedWork, Work, command_of};
use outside_ports::Shelf;
use protocol_names::ProtocolName;
use schedule_model::JobList;
use sporadic_model::TaskSet;
use std::alloc::{AllocError, Global};
use std::thread::Threads;

/// Reads the refusal of `confirm`, once its set is read, and does its work.
fn confirmation_reply<R: Threads + Sync, S: Shelf>(
    rt: &R,
    alloc: Global,
    shelf: &mut S,
    protocol: ProtocolName,
    digest: &[u8; 32],
    set: &TaskSet,
    cert: &str,
) -> Result<Reply, Halt>
    requires { HasHomes protocol set.now }
    ensures reply { AnswersPlan result (S.seen shelf.old) (S.seen shelf.new) (confirming protocol cert.now digest.now set.now) }
    ensures keeps { Keeps (S.seen shelf.old) (S.seen shelf.new) }
{
    let (refusal, own) = get(alloc, shelf, &RefusalFor { protocol }, cert)?;
    confirmation(rt, alloc, protocol, digest, set, &refusal, &own)
}

/// Reads the certificate of `check`, once its set is read, and does its work.
fn judgement_reply<S: Shelf>(
    alloc: Global,
    shelf: &mut S,
    protocol: ProtocolName,
    digest: &[u8; 32],
    set: &TaskSet,
    certificate: &str,
) -> Result<Reply, Halt>
    requires { HasHomes protocol set.now }
    ensures reply { AnswersPlan result (S.seen shelf.old) (S.seen shelf.new)
        (with_certificate protocol certificate.now (check_of protocol digest.now set.now)) }
    ensures keeps { Keeps (S.seen shelf.old) (S.seen shelf.new) }
{
    let file = get(alloc, shelf, &CertFor { protocol }, certificate)?;
    judgement(alloc, protocol, digest, set, &file)
}

/// Reads the certificate of `upgrade`, once its set is read, and does its work.
fn upgraded_reply<S: Shelf>(
    alloc: Global,
    shelf: &mut S,
    protocol: ProtocolName,
    digest: &[u8; 32],
    set: &TaskSet,
    certificate: &str,
) -> Result<Reply, Halt>
    requires { HasHomes protocol set.now }
    ensures reply { AnswersPlan result (S.seen shelf.old) (S.seen shelf.new) (upgrading protocol certificate.now digest.now set.now) }
    ensures keeps { Keeps (S.seen shelf.old) (S.seen shelf.new) }
{
    let certificate = get(alloc, shelf, &OldCertFor { protocol }, certificate)?;
    upgrade(alloc, protocol, digest, set, &certificate)
}

/// Reads the certificate of `report`, once its set is read, and does its work.
fn proved_table_reply<S: Shelf>(
    alloc: Global,
    shelf: &mut S,
    protocol: ProtocolName,
    digest: &[u8; 32],
    set: &TaskSet,
    certificate: &str,
) -> Result<Reply, Halt>
    requires { HasHomes protocol set.now }
    ensures reply { AnswersPlan result (S.seen shelf.old) (S.seen shelf.new)
        (with_certificate protocol certificate.now (full_table_of protocol digest.now set.now)) }
    ensures keeps { Keeps (S.seen shelf.old) (S.seen shelf.new) }
{
    let file = get(alloc, shelf, &CertFor { protocol }, certificate)?;
    proved_table(alloc, protocol, digest, set, &file)
}

/// Reads the rows of `conform`, once its jobs are read, and does its work.
fn rows_reply<S: Shelf>(
    alloc: Global,
    shelf: &mut S,
    protocol: ProtocolName,
    jobs: &JobList<'_>,
    rows: &str,
) -> Result<Reply, Halt>
    requires { HasHomes protocol jobs.now.set }
    ensures reply { AnswersPlan result (S.seen shelf.old) (S.seen shelf.new) (judging_rows protocol rows.now jobs.now) }
    ensures keeps { Keeps (S.seen shelf.old) (S.seen shelf.new) }
{
    let rows = get_rows(alloc, shelf, jobs, rows)?;
    conformance(alloc, protocol, jobs, &rows)
}

/// Reads the jobs and the rows of `conform`, once its set is read, and does its work.
fn jobs_reply<S: Shelf>(
    alloc: Global,
    shelf: &mut S,
    protocol: ProtocolName,
    set: &TaskSet,
    jobs: &str,
    rows: &str,
) -> Result<Reply, Halt>
    requires { HasHomes protocol set.now }
    ensures reply { AnswersPlan result (S.seen shelf.old) (S.seen shelf.new) (judging_jobs protocol jobs.now rows.now set.now) }
    ensures keeps { Keeps (S.seen shelf.old) (S.seen shelf.new) }
{
    let jobs = get(alloc, shelf, &JobsOf { set }, jobs)?;
    rows_reply(alloc, shelf, protocol, &jobs, rows)
}

/// Reads the jobs of `simulate`, once its set is read, and does its work.
fn simulated_reply<S: Shelf>(
    alloc: Global,
    shelf: &mut S,
    protocol: ProtocolName,
    set: &TaskSet,
    jobs: &str,
    ticks: u64,
) -> Result<Reply, Halt>
    requires suits { HasHomes protocol set.now }
    requires some { 1 ≤ ticks }
    requires most { ticks ≤ MOST_TICKS }
    ensures reply { AnswersPlan result (S.seen shelf.old) (S.seen shelf.new) (simulating_jobs protocol jobs.now ticks set.now) }
    ensures keeps { Keeps (S.seen shelf.old) (S.seen shelf.new) }
{
    let jobs = get(alloc, shelf, &JobsOf { set }, jobs)?;
    simulation(alloc, protocol, &jobs, ticks)
}

/// Reads the rows of `audit`, once all other inputs are read, and does its work.
fn audited_rows_reply<S: Shelf>(
    alloc: Global,
    shelf: &mut S,
    protocol: ProtocolName,
    digest: &[u8; 32],
    file: &CertFile,
    jobs: &JobList<'_>,
    rows: &str,
) -> Result<Reply, Halt>
    requires { CanJudge protocol jobs.now.set (certificate_seen file.now.certificate) }
    ensures reply { AnswersPlan result (S.seen shelf.old) (S.seen shelf.new)
        (auditing_rows protocol digest.now (file_seen file.now) rows.now jobs.now) }
    ensures keeps { Keeps (S.seen shelf.old) (S.seen shelf.new) }
{
    let rows = get_rows(alloc, shelf, jobs, rows)?;
    audit(alloc, protocol, digest, file, jobs, &rows)
}

/// Reads the jobs and the rows of `audit`, once its set and its certificate are read, and does its work.
fn audited_jobs_reply<S: Shelf>(
    alloc: Global,
    shelf: &mut S,
    protocol: ProtocolName,
    digest: &[u8; 32],
    set: &TaskSet,
    file: &CertFile,
    jobs: &str,
    rows: &str,
) -> Result<Reply, Halt>
    requires { CanJudge protocol set.now (certificate_seen file.now.certificate) }
    ensures reply { AnswersPlan result (S.seen shelf.old) (S.seen shelf.new)
        (auditing_jobs protocol digest.now (file_seen file.now) jobs.now rows.now set.now) }
    ensures keeps { Keeps (S.seen shelf.old) (S.seen shelf.new) }
{
    let jobs = get(alloc, shelf, &JobsOf { set }, jobs)?;
    audited_rows_reply(alloc, shelf, protocol, digest, file, &jobs, rows)
}

/// Reads the certificate, the jobs and the rows of `audit`, once its set is read, and does its work.
fn audited_reply<S: Shelf>(
    alloc: Global,
    shelf: &mut S,
    protocol: ProtocolName,
    digest: &[u8; 32],
    set: &TaskSet,
    inputs: AuditInputs<'_>,
) -> Result<Reply, Halt>
    requires { HasHomes protocol set.now }
    ensures reply { AnswersPlan result (S.seen shelf.old) (S.seen shelf.new)
        (auditing protocol inputs.entry.certificate.now inputs.entry.jobs.now inputs.entry.rows.now digest.now set.now) }
    ensures keeps { Keeps (S.seen shelf.old) (S.seen shelf.new) }
{
    let file = get(alloc, shelf, &CertFor { protocol }, inputs.certificate)?;
    audited_jobs_reply(
        alloc,
        shelf,
        protocol,
        digest,
        set,
        &file,
        inputs.jobs,
        inputs.rows,
    )
}

/// Reads the set of this name and then what else the work asks for, and does the work.
#[tactic(auto, using(crate::proofs::SetPlans::ungot_plain))]
fn plain_reply<S: Shelf>(
    alloc: Global,
    shelf: &mut S,
    protocol: ProtocolName,
    name: &str,
    work: PlainWork<'_>,
) -> Result<Reply, Halt>
    requires { HasFittingNumbers (plain_form protocol name.now work) }
    ensures reply { AnswersPlan result (S.seen shelf.old) (S.seen shelf.new) (plan_of (plain_form protocol name.now work.entry)) }
    ensures keeps { Keeps (S.seen shelf.old) (S.seen shelf.new) }
{
    let set = get(alloc, shelf, &SetFor { protocol }, name)?;
    match work {
        PlainWork::Report => table(alloc, &set),
        PlainWork::Conform { jobs, rows } => jobs_reply(alloc, shelf, protocol, &set, jobs, rows),
        PlainWork::Simulate { jobs, ticks } => {
            simulated_reply(alloc, shelf, protocol, &set, jobs, ticks)
        }
    }
}

/// The same for a work with certificates. They carry the digest of the set's bytes.
#[tactic(auto, using(crate::proofs::SetPlans::ungot_tied))]
fn tied_reply<R: Threads + Sync, S: Shelf>(
    rt: &R,
    alloc: Global,
    shelf: &mut S,
    protocol: ProtocolName,
    name: &str,
    work: TiedWork<'_>,
) -> Result<Reply, Halt>
    ensures reply { AnswersPlan result (S.seen shelf.old) (S.seen shelf.new) (plan_of (tied_form protocol name.now work.entry)) }
    ensures keeps { Keeps (S.seen shelf.old) (S.seen shelf.new) }
{
    let (set, digest) = get_tied_set(alloc, shelf, protocol, name)?;
    match work {
        TiedWork::Analyse { allowance } => analysis(rt, alloc, &digest, &set, protocol, allowance),
        TiedWork::Refute { allowance } => refutation(alloc, &digest, &set, protocol, allowance),
        TiedWork::Settle { allowance } => settlement(rt, alloc, &digest, &set, protocol, allowance),
        TiedWork::Check { certificate } => {
            judgement_reply(alloc, shelf, protocol, &digest, &set, certificate)
        }
        TiedWork::Confirm { refusal } => {
            confirmation_reply(rt, alloc, shelf, protocol, &digest, &set, refusal)
        }
        TiedWork::Upgrade { certificate } => {
            upgraded_reply(alloc, shelf, protocol, &digest, &set, certificate)
        }
        TiedWork::FullReport { certificate } => {
            proved_table_reply(alloc, shelf, protocol, &digest, &set, certificate)
        }
        TiedWork::Audit(inputs) => audited_reply(alloc, shelf, protocol, &digest, &set, inputs),
    }
}

/// Does what the words ask for.
fn command_reply<R: Threads + Sync, S: Shelf>(
    rt: &R,
    alloc: Global,
    shelf: &mut S,
    command: Command<'_>,
) -> Result<Reply, Halt>
    requires { HasFittingNumbers (form_seen command) }
    ensures reply { AnswersPlan result (S.seen shelf.old) (S.seen shelf.new) (plan_of (form_seen command.entry)) }
    ensures keeps { Keeps (S.seen shelf.old) (S.seen shelf.new) }
{
    match command {
        Command::OnSet {
            protocol,
            set,
            work,
        } => match work {
            Work::Plain(work) => plain_reply(alloc, shelf, protocol, set, work),
            Work::Tied(work) => tied_reply(rt, alloc, shelf, protocol, set, work),
        },
        Command::Study { seed, sets } => study_counts(rt, alloc, seed, sets),
    }
}

/// The reply to words: all that comes before the first write. An error means that memory ran out.
pub fn reply_to<R: Threads + Sync, S: Shelf>(
    rt: &R,
    alloc: Global,
    words: &[String],
    shelf: &mut S,
) -> Result<Reply, AllocError>
    ensures reply { IfOk result (λ r. IsReply (shown (S.seen shelf.old) (S.seen shelf.new))
        (words_seen words.now) (reply_seen r)) }
    ensures keeps { Keeps (S.seen shelf.old) (S.seen shelf.new) }
{
    match command_of(words) {
        Some(command) => reply_of(command_reply(rt, alloc, shelf, command)),
        None => reply_of(no_form_reply(alloc)),
    }
}
