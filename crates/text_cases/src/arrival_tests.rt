ghost use Rattle.std.specs.Prelude.{◌<◌, length};

use crate::texts::{jobs_in, set_in};
use schedule_model::{JobId, JobList, ListedScript, Segment};
use sporadic_model::TaskId;
use std::alloc::{AllocError, Global};
use std::fmt::Write;
use std::test::Fail;
use worked_sets::files::PAIR;

/// Two tasks on one processor. The higher is released up to 4 ticks after it arrives.
const JITTER: &str = r#"{"processors":1,"tasks":[
{"name":"t1","processor":1,"period":10,"cost":2,"jitter":4},
{"name":"t2","processor":1,"period":20,"cost":5}]}
"#;

/// The headers of a file of jobs.
const RELEASES: &str = "task,release,script";

const ARRIVALS: &str = "task,arrival,release,script";

/// Adds the local ticks of the segment, and its resource, counted from 0, with the ticks of its request.
fn push_segment(text: &mut String, segment: Segment) -> Result<(), AllocError> {
    write!(text, "{}", segment.local)?;
    match segment.request {
        Some((q, ticks)) => write!(text, " {}:{ticks} ", q.0),
        None => Ok(()),
    }
}

fn push_script(text: &mut String, script: &ListedScript) -> Result<(), AllocError> {
    for n in 0..script.len() {
        push_segment(text, script.at(n))?;
    }
    Ok(())
}

fn push_times(
    text: &mut String,
    task: TaskId,
    arrival: u64,
    release: u64,
) -> Result<(), AllocError> {
    write!(text, "{},{arrival},{release},", task.0)
}

/// Adds a line of the job: its task, counted from 0, its arrival, its release and its script.
fn push_job(text: &mut String, jobs: &JobList, j: u32) -> Result<(), AllocError>
    requires { j < length jobs.now.jobs }
{
    let job = jobs.job(JobId(j));
    push_times(text, job.task, job.arrival, job.release)?;
    push_script(text, &job.script)?;
    text.push_str("\n")
}

/// A line for each job.
fn lines_of_jobs(alloc: Global, jobs: &JobList) -> Result<String, AllocError> {
    let mut text = String::new(alloc);
    for j in 0..jobs.len() {
        push_job(&mut text, jobs, j)?;
    }
    Ok(text)
}

/// A text of a set, the header and the lines of its jobs, and the jobs that are expected.
type Case = (&'static str, &'static str, &'static str, &'static str);

const CASES: &[Case] = &[
    (JITTER, ARRIVALS, "", ""),
    (
        JITTER,
        ARRIVALS,
        "t1,0,4,2\nt1,10,10,2\nt2,4,4,5\n",
        "0,0,4,2\n0,10,10,2\n1,4,4,5\n",
    ),
    (
        JITTER,
        ARRIVALS,
        "t1,1000000000,1000000000,2\n",
        "0,1000000000,1000000000,2\n",
    ),
    (
        JITTER,
        RELEASES,
        "t1,4,2\nt1,14,2\n",
        "0,4,4,2\n0,14,14,2\n",
    ),
    (PAIR, RELEASES, "t1,3,1 q:1 1\nt2,0,1 q:2 1\n", PAIR_READ),
    (
        PAIR,
        ARRIVALS,
        "t1,3,3,1 q:1 1\nt2,0,0,1 q:2 1\n",
        PAIR_READ,
    ),
    (
        PAIR,
        RELEASES,
        "t1,1000000000,1 q:1",
        "0,1000000000,1000000000,1 0:1 \n",
    ),
    (PAIR, RELEASES, "\"t1\",0,\"1 q:1\"\n", "0,0,0,1 0:1 \n"),
];

const PAIR_READ: &str = "0,3,3,1 0:1 1\n1,0,0,1 0:2 1\n";

/// What is read of the case's text.
fn read_of(alloc: Global, set: &str, header: &str, lines: &str) -> Result<String, Fail> {
    let set = set_in(alloc, set)?;
    let text = format!(in alloc; "{header}\n{lines}")?;
    let jobs = jobs_in(alloc, &set, text.as_str())?;
    Ok(lines_of_jobs(alloc, &jobs)?)
}

fn is_read(alloc: Global, case: &Case) -> Result<bool, Fail> {
    let (set, header, lines, wanted) = *case;
    Ok(read_of(alloc, set, header, lines)?.as_str() == wanted)
}

#[test]
fn reads_arrivals_releases_and_scripts_under_both_headers(rt: HostRuntime) -> Result<(), Fail> {
    for case in CASES {
        assert!(rt; is_read(rt.alloc(), case)?, "at {}", case.2);
    }
    Ok(())
}
