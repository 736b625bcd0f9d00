ghost use Rattle.std.specs.Prelude.{◌≡◌, ◌≤◌, length, Result, IfOk};
ghost use Rattle.outside_ports.specs.declared.whole.TheConstants.{GREATEST_INPUT_BYTES};
ghost use Rattle.program_form.specs.Certificate.{certificate_seen};
ghost use Rattle.sporadic_model.specs.Homes.{HasHomesFor};
ghost use Rattle.protocol_names.specs.Names.{homes_as};
ghost use Rattle.cert_json.specs.File.{file_seen};
ghost use Rattle.cert_json.specs.Ranges.{HasSmallDuals};
ghost use Rattle.refusal_laws.specs.Steps.{HasDenominators};
ghost use Rattle.refusal_laws.specs.Seen.{steps_seen};
ghost use Rattle.command_inputs.specs.Known.{Input, shown};
ghost use Rattle.command_inputs.specs.Inputs.{set_input, cert_input, old_cert_input, refusal_input, jobs_input, rows_input};
ghost use Rattle.command_inputs.specs.RefusalSeen.{refusal_seen};
ghost use Rattle.command_inputs.specs.Got.{IsLoaded, IsTaken, IsGot, IsGotTied, taken, ReadsSetFor, Keeps};

use crate::halt::{Halt, fault, refusal};
use cert_json::{CertFile, CertRefusal, set_digest};
use outside_ports::{LoadFault, Shelf, load};
use program_form::Certificate;
use protocol_names::ProtocolName;
use refusal_json::{ReadFault, read_refusal};
use refusal_laws::Refusal;
use reply_texts::{cert_reason, jobs_reason, reason, refusal_reason, rows_reason};
use schedule_model::JobList;
use sporadic_model::TaskSet;
use std::alloc::Global;
use taskset_json::{SetRefusal, home_check, read};
use trace_csv::{JobsRefusal, RowText, RowsRefusal, read_jobs};

/// An input that commands read.
pub trait Reader {
    /// What reading it gives.
    type Value: Drop;

    /// The input, as the plans of commands have it.
    ghost input: { Self → Input };

    /// What contracts see of a value.
    ghost value: { (r : Self) → Self.Value → (input r).Value };

    /// What is true of each value that is read.
    ghost holds: { Self → Self.Value → Type 0 };

    /// The word that answers call it by.
    fn word(&self) -> &'static str
        ensures { result.now ≡ (input self.now).word };

    /// The value that the bytes are, or the reply that refuses them.
    fn take(&self, alloc: Global, bytes: &[u8]) -> Result<Self::Value, Halt>
        requires { length bytes.now ≤ GREATEST_INPUT_BYTES }
        ensures taken { IsTaken (input self.now) bytes.now (taken (value self.now) result) }
        ensures holds { IfOk result (holds self.now) };
}

/// Loads the input of this name. Answers call it by this word.
fn load_input<S: Shelf>(
    alloc: Global,
    shelf: &mut S,
    word: &str,
    name: &str,
) -> Result<Vec<u8>, Halt>
    ensures loaded { IsLoaded
        (shown (S.seen shelf.old) (S.seen shelf.new))
        word.now name.now result }
    ensures keeps { Keeps (S.seen shelf.old) (S.seen shelf.new) }
{
    match load(alloc, shelf, name) {
        Ok(bytes) => Ok(bytes),
        Err(LoadFault::Absent) => Err(refusal(alloc, word, "absent")),
        Err(LoadFault::TooLong) => Err(refusal(alloc, word, "toolong")),
        Err(LoadFault::Read) => Err(fault(alloc, word)),
        Err(LoadFault::Memory) => Err(Halt::Memory),
    }
}

/// Loads and reads the input of this name.
pub fn get<S: Shelf, R: Reader>(
    alloc: Global,
    shelf: &mut S,
    reader: &R,
    name: &str,
) -> Result<R::Value, Halt>
    ensures got { IsGot
        (shown (S.seen shelf.old) (S.seen shelf.new))
        (R.input reader.now) name.now (taken (R.value reader.now) result) }
    ensures holds { IfOk result (R.holds reader.now) }
    ensures keeps { Keeps (S.seen shelf.old) (S.seen shelf.new) }
{
    let bytes = load_input(alloc, shelf, reader.word(), name)?;
    reader.take(alloc, &bytes)
}

/// The task set of this name, for use with this protocol, and the digest of its bytes.
pub fn get_tied_set<S: Shelf>(
    alloc: Global,
    shelf: &mut S,
    protocol: ProtocolName,
    name: &str,
) -> Result<(TaskSet, [u8; 32]), Halt>
    ensures got { IsGotTied (shown (S.seen shelf.old) (S.seen shelf.new)) protocol name.now result }
    ensures suits { IfOk result (λ got. HasHomesFor (homes_as protocol) got.0) }
    ensures keeps { Keeps (S.seen shelf.old) (S.seen shelf.new) }
{
    let reader = SetFor { protocol };
    let bytes = load_input(alloc, shelf, reader.word(), name)?;
    let set = reader.take(alloc, &bytes)?;
    let digest = set_digest(&bytes);
    Ok((set, digest))
}

/// The rows that the bytes are, or the reply that refuses them.
fn rows_in<'a>(alloc: Global, jobs: &'a JobList<'a>, bytes: Vec<u8>) -> Result<RowText<'a>, Halt>
    ensures { IsTaken (rows_input jobs.now) bytes.items result }
{
    match RowText::new(alloc, jobs, bytes) {
        Ok(rows) => Ok(rows),
        Err(RowsRefusal::Memory) => Err(Halt::Memory),
        Err(cause) => Err(refusal(alloc, "rows", rows_reason(alloc, cause)?.as_str())),
    }
}

/// The rows of these jobs under this name, as the text that has them.
pub fn get_rows<'a, S: Shelf>(
    alloc: Global,
    shelf: &mut S,
    jobs: &'a JobList<'a>,
    name: &str,
) -> Result<RowText<'a>, Halt>
    ensures got { IsGot (shown (S.seen shelf.old) (S.seen shelf.new)) (rows_input jobs.now) name.now result }
    ensures keeps { Keeps (S.seen shelf.old) (S.seen shelf.new) }
{
    let bytes = load_input(alloc, shelf, "rows", name)?;
    rows_in(alloc, jobs, bytes)
}

/// The set that the bytes are, with the homes that the protocol asks for.
fn set_for(alloc: Global, bytes: &[u8], protocol: ProtocolName) -> Result<TaskSet, SetRefusal>
    requires { length bytes.now ≤ GREATEST_INPUT_BYTES }
    ensures reads { ReadsSetFor protocol bytes.now result }
    ensures suits { IfOk result (λ set. HasHomesFor (homes_as protocol) set) }
{
    let set = read(alloc, bytes)?;
    home_check(&set, protocol.homes_as())?;
    Ok(set)
}

/// A task set, for use with the protocol.
#[derive(Drop)]
pub struct SetFor {
    pub protocol: ProtocolName,
}

impl Reader for SetFor {
    type Value = TaskSet;

    ghost input = { λ r. set_input r.protocol };

    ghost value = { λ r set. set };

    ghost holds = { λ r set. HasHomesFor (homes_as r.protocol) set };

    fn word(&self) -> &'static str {
        "set"
    }

    fn take(&self, alloc: Global, bytes: &[u8]) -> Result<TaskSet, Halt> {
        match set_for(alloc, bytes, self.protocol) {
            Ok(set) => Ok(set),
            Err(SetRefusal::Memory) => Err(Halt::Memory),
            Err(cause) => Err(refusal(alloc, "set", reason(alloc, cause)?.as_str())),
        }
    }
}

/// A certificate for the protocol, with its set's digest.
#[derive(Drop)]
pub struct CertFor {
    pub protocol: ProtocolName,
}

impl Reader for CertFor {
    type Value = CertFile;

    ghost input = { λ r. cert_input r.protocol };

    ghost value = { λ r file. file_seen file };

    ghost holds = { λ r file. HasSmallDuals (certificate_seen file.certificate) };

    fn word(&self) -> &'static str {
        "cert"
    }

    fn take(&self, alloc: Global, bytes: &[u8]) -> Result<CertFile, Halt> {
        match cert_json::read(alloc, bytes, self.protocol.word()) {
            Ok(file) => Ok(file),
            Err(CertRefusal::Memory) => Err(Halt::Memory),
            Err(cause) => Err(refusal(alloc, "cert", cert_reason(alloc, cause)?.as_str())),
        }
    }
}

/// A certificate of the version before, for the protocol.
#[derive(Drop)]
pub struct OldCertFor {
    pub protocol: ProtocolName,
}

impl Reader for OldCertFor {
    type Value = Certificate;

    ghost input = { λ r. old_cert_input r.protocol };

    ghost value = { λ r certificate. certificate_seen certificate };

    ghost holds = { λ r certificate. HasSmallDuals (certificate_seen certificate) };

    fn word(&self) -> &'static str {
        "cert"
    }

    fn take(&self, alloc: Global, bytes: &[u8]) -> Result<Certificate, Halt> {
        match cert_json::read_old(alloc, bytes, self.protocol.word()) {
            Ok(certificate) => Ok(certificate),
            Err(CertRefusal::Memory) => Err(Halt::Memory),
            Err(cause) => Err(refusal(alloc, "cert", cert_reason(alloc, cause)?.as_str())),
        }
    }
}

/// A certificate of refusal for the protocol, with its set's digest.
#[derive(Drop)]
pub struct RefusalFor {
    pub protocol: ProtocolName,
}

impl Reader for RefusalFor {
    type Value = (Refusal, [u8; 32]);

    ghost input = { λ r. refusal_input r.protocol };

    ghost value = { λ r given. refusal_seen given.0 given.1 };

    ghost holds = { λ r given. HasDenominators (steps_seen given.0) };

    fn word(&self) -> &'static str {
        "cert"
    }

    fn take(&self, alloc: Global, bytes: &[u8]) -> Result<(Refusal, [u8; 32]), Halt> {
        match read_refusal(alloc, bytes, self.protocol.word()) {
            Ok(given) => Ok(given),
            Err(ReadFault::Memory) => Err(Halt::Memory),
            Err(cause) => { Err(refusal(alloc, "cert", refusal_reason(alloc, cause)?.as_str())) }
        }
    }
}

/// Jobs of the set.
#[derive(Drop)]
pub struct JobsOf<'a> {
    pub set: &'a TaskSet,
}

impl<'a> Reader for JobsOf<'a> {
    type Value = JobList<'a>;

    ghost input = { λ r. jobs_input r.set.now };

    ghost value = { λ r jobs. jobs };

    ghost holds = { λ r jobs. jobs.set ≡ r.set.now };

    fn word(&self) -> &'static str {
        "jobs"
    }

    fn take(&self, alloc: Global, bytes: &[u8]) -> Result<JobList<'a>, Halt> {
        match read_jobs(alloc, self.set, bytes) {
            Ok(jobs) => Ok(jobs),
            Err(JobsRefusal::Memory) => Err(Halt::Memory),
            Err(cause) => Err(refusal(alloc, "jobs", jobs_reason(alloc, cause)?.as_str())),
        }
    }
}
