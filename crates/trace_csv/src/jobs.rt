ghost use Rattle.std.specs.Prelude.{◌≡◌, ◌<◌, ◌^◌, ◌↔◌, ◌∷◌, [], false, length, map, IsTrue};
ghost use Rattle.trace_csv.specs.Records.{fields_seen};
ghost use Rattle.trace_csv.specs.JobLines.{at_line, completed};
ghost use Rattle.trace_csv.specs.JobsFile.{jobs_header, arrivals_header, IsJobsFile, LinesRead, RecordsRead, JobsRead, IsUnrefused};
ghost use Rattle.trace_csv.specs.JobAnswers.{LineRead, LineTaken};

use crate::header::are_same;
use crate::lines::{LineForm, LineTaker, take_lines};
use crate::records::{Next, Records};
use crate::refusal::JobsRefusal;
use crate::segments::{ScriptFault, script_of};
use crate::slices::slices_of;
use schedule_model::{Job, JobList, JobRefusal};
use sporadic_model::{MOST_TICKS, TaskId, TaskSet};
use std::alloc::Global;
use text_pieces::number_between;

/// The fields of a line with an arrival. No line has more.
const MOST_FIELDS: usize = 4;

/// The job of a line with these four fields and this number. Or why the line is refused, whatever jobs are listed.
fn job_of_fields(
    alloc: Global,
    set: &TaskSet,
    name: &[u8],
    arrival: &[u8],
    release: &[u8],
    script: &[u8],
    line: u64,
) -> Result<Job, JobsRefusal>
    ensures { LineRead result set.now (name.now ∷ arrival.now ∷ release.now ∷ script.now ∷ []) line }
{
    let Some(arrival) = number_between(arrival, 0, MOST_TICKS) else {
        return Err(JobsRefusal::Number(line));
    };
    let Some(release) = number_between(release, 0, MOST_TICKS) else {
        return Err(JobsRefusal::Number(line));
    };
    let Some(task) = set.task_named(name) else {
        return Err(JobsRefusal::UnknownName(line));
    };
    match script_of(alloc, set, script) {
        Ok(script) => Ok(Job {
            task,
            arrival,
            release,
            script,
        }),
        Err(ScriptFault::Form) => Err(JobsRefusal::Script(line)),
        Err(ScriptFault::UnknownName) => Err(JobsRefusal::UnknownName(line)),
        Err(ScriptFault::TooLong) => {
            // no set within its limits allows so many requests, so the list would refuse the job too
            set.keeps_the_model();
            Err(JobsRefusal::OverBudget(line))
        }
        Err(ScriptFault::Memory) => Err(JobsRefusal::Memory),
    }
}

/// The job of a line with an arrival, which has this number. Or why the line is refused, for its form and names.
fn job_with_arrival(
    alloc: Global,
    set: &TaskSet,
    fields: &[&[u8]],
    line: u64,
) -> Result<Job, JobsRefusal>
    ensures { LineRead result set.now (map (λ f. f.now) fields.now) line }
{
    match fields {
        [name, arrival, release, script] => {
            job_of_fields(alloc, set, name, arrival, release, script, line)
        }
        _ => Err(JobsRefusal::Fields(line)),
    }
}

/// The same for a line without an arrival. Its job is released when it arrives.
fn job_without_arrival(
    alloc: Global,
    set: &TaskSet,
    fields: &[&[u8]],
    line: u64,
) -> Result<Job, JobsRefusal>
    ensures { LineRead result set.now (completed false (map (λ f. f.now) fields.now)) line }
{
    match fields {
        [name, release, script] => job_of_fields(alloc, set, name, release, release, script, line),
        _ => Err(JobsRefusal::Fields(line)),
    }
}

/// The job of a line, with an arrival or without one, which has this number. Or why the line is refused, for its form and names.
fn job_of(
    alloc: Global,
    set: &TaskSet,
    has_arrivals: bool,
    fields: &[Vec<u8>],
    line: u64,
) -> Result<Job, JobsRefusal>
    ensures { LineRead result set.now (completed has_arrivals (fields_seen fields.now)) line }
{
    let fields = slices_of(alloc, fields)?;
    if has_arrivals {
        job_with_arrival(alloc, set, &fields, line)
    } else {
        job_without_arrival(alloc, set, &fields, line)
    }
}

/// The refusal of the line of this number, for a refusal by the list of jobs.
fn refused_at(line: u64, refusal: JobRefusal) -> JobsRefusal
    ensures { result ≡ at_line line refusal }
{
    match refusal {
        JobRefusal::Script => JobsRefusal::Script(line),
        JobRefusal::OverBudget => JobsRefusal::OverBudget(line),
        JobRefusal::TooClose => JobsRefusal::TooClose(line),
        JobRefusal::TooMany => JobsRefusal::TooMany(line),
        JobRefusal::Late => JobsRefusal::Late(line),
        JobRefusal::Memory => JobsRefusal::Memory,
    }
}

/// Takes the job of a line into the list, or says why the line, which has this number, is refused.
fn take_line(
    jobs: &mut JobList,
    alloc: Global,
    has_arrivals: bool,
    fields: &[Vec<u8>],
    line: u64,
) -> Result<(), JobsRefusal>
    ensures { LineTaken result jobs.old jobs.new (completed has_arrivals (fields_seen fields.now)) line }
{
    let job = job_of(alloc, jobs.set(), has_arrivals, fields, line)?;
    match jobs.push(job) {
        Ok(()) => Ok(()),
        Err(refusal) => Err(refused_at(line, refusal)),
    }
}

/// The lines of a file of jobs, with arrivals or without.
#[derive(Drop)]
struct JobLines<'a> {
    set: &'a TaskSet,
    has_arrivals: bool,
}

impl<'a> LineForm for JobLines<'a> {
    type Refusal = JobsRefusal;

    ghost use Rattle.std.specs.Prelude.{◌≡◌};
    ghost use Rattle.trace_csv.specs.declared.jobs.TheConstants.{MOST_FIELDS};
    ghost use Rattle.trace_csv.specs.declared.refusal.JobsRefusal.TheVariants.{Memory};
    ghost use Rattle.trace_csv.specs.JobAnswers.{job_reason};

    ghost most = { λ f. MOST_FIELDS };

    ghost reason = { λ f. job_reason f.set.now f.has_arrivals };

    ghost is_memory = { λ f r. r ≡ Memory };

    fn most_fields(&self) -> usize {
        MOST_FIELDS
    }

    fn too_long(&self, line: u64) -> JobsRefusal {
        JobsRefusal::Fields(line)
    }

    fn no_memory(&self) -> JobsRefusal {
        JobsRefusal::Memory
    }
}

impl<'a> LineTaker<JobLines<'a>> for JobList<'a> {
    ghost use Rattle.trace_csv.specs.JobAnswers.{HasJobs};

    ghost has = { λ f lines jobs. HasJobs f.set.now f.has_arrivals lines jobs };

    fn take(
        &mut self,
        form: &JobLines<'a>,
        alloc: Global,
        fields: &[Vec<u8>],
        line: u64,
    ) -> Result<(), JobsRefusal> {
        take_line(self, alloc, form.has_arrivals, fields, line)
    }
}

/// The jobs of the lines, or the first line that is refused. Nothing after that line is read.
fn jobs_of<'a>(
    alloc: Global,
    set: &'a TaskSet,
    has_arrivals: bool,
    lines: Records,
) -> Result<JobList<'a>, JobsRefusal>
    requires { length lines < 2 ^ 64 }
    ensures { LinesRead result set.now (map (completed has_arrivals) lines.entry) }
{
    let form = JobLines { set, has_arrivals };
    let mut jobs = JobList::new(alloc, set);
    match take_lines(alloc, &form, lines, &mut jobs) {
        Ok(()) => Ok(jobs),
        Err(refusal) => Err(refusal),
    }
}

/// Are the fields the header of a file of jobs without arrivals?
fn is_jobs_header(fields: &[&[u8]]) -> bool
    ensures { IsTrue result ↔ (map (λ f. f.now) fields.now ≡ jobs_header) }
{
    let header: [&[u8]; 3] = [b"task", b"release", b"script"];
    are_same(fields, &header)
}

/// Are the fields the header of a file of jobs with arrivals?
fn is_arrivals_header(fields: &[&[u8]]) -> bool
    ensures { IsTrue result ↔ (map (λ f. f.now) fields.now ≡ arrivals_header) }
{
    let header: [&[u8]; 4] = [b"task", b"arrival", b"release", b"script"];
    are_same(fields, &header)
}

/// The jobs of a file's records, or why it is refused.
fn jobs_under_header<'a>(
    alloc: Global,
    set: &'a TaskSet,
    mut records: Records,
) -> Result<JobList<'a>, JobsRefusal>
    requires { length records < 2 ^ 64 }
    ensures { RecordsRead result set.now records.entry }
{
    let Next::Record(header) = records.next(alloc, MOST_FIELDS)? else {
        return Err(JobsRefusal::Fields(0));
    };
    let header = slices_of(alloc, &header)?;
    let has_arrivals = is_arrivals_header(&header);
    if !has_arrivals && !is_jobs_header(&header) {
        return Err(JobsRefusal::Fields(0));
    }
    jobs_of(alloc, set, has_arrivals, records)
}

/// Reads jobs of a task set from CSV. The header is `task,arrival,release,script`, or `task,release,script`. Then there is a line for each
/// job: the name of its task, its arrival, its release and its script. Without an arrival the job arrives when it is released. Both are in
/// ticks, from 0 to 10^9. A line is a record as `csv` gives it, so a blank line doesn't count.
///
/// The answer is the list of the jobs exactly if the text is a file of either form, and [`JobList::push`] takes each job after those before
/// it. Else the answer names the first line that is refused, and the first reason on it, in the order of [`JobsRefusal`].
pub fn read_jobs<'a>(
    alloc: Global,
    set: &'a TaskSet,
    bytes: &[u8],
) -> Result<JobList<'a>, JobsRefusal>
    ensures read { JobsRead result set.now bytes.now }
    ensures accepts { IsJobsFile set.now bytes.now → IsUnrefused result }
{
    jobs_under_header(alloc, set, Records::new(bytes))
}
