use phase_machine::{Machine, Phase, can_take};
use schedule_model::{JobId, JobList, Row, RowList, RowRun};
use sporadic_model::{ResourceId, TaskId, TaskSet};
use std::alloc::{AllocError, Global};
use std::fmt::Write;
use std::test::Fail;

/// What the machine answers of a job: its phase, whether it is active, ready and waiting, and its issue tick.
pub(crate) type Answers = (Phase, bool, bool, bool, Option<u64>);

pub(crate) fn answers(machine: &Machine, j: u32) -> Option<Answers> {
    if j >= machine.jobs().len() {
        return None;
    }
    let j = JobId(j);
    Some((
        machine.phase(j),
        machine.active(j),
        machine.ready(j),
        machine.waiting(j),
        machine.issued(j),
    ))
}

fn push_request(line: &mut String, set: &TaskSet, n: u32, q: ResourceId) -> Result<(), Fail> {
    if q.0 >= set.resources() {
        return Err("no such resource".into());
    }
    write!(line, "{}#{n}", set.resource_name(q))?;
    Ok(())
}

/// Adds `local`, `ended` or the resource that is asked for with the number of the segment.
fn push_phase(line: &mut String, set: &TaskSet, phase: Phase) -> Result<(), Fail> {
    match phase {
        Phase::Local => line.push_str("local")?,
        Phase::Asking(n, q) => push_request(line, set, n, q)?,
        Phase::Finished => line.push_str("ended")?,
    }
    Ok(())
}

/// Adds `a` if the job is active, `r` if it is ready and `w` if it waits.
fn push_marks(line: &mut String, active: bool, ready: bool, waiting: bool) -> Result<(), Fail> {
    line.push_str(if active { "a" } else { "" })?;
    line.push_str(if ready { "r" } else { "" })?;
    line.push_str(if waiting { "w" } else { "" })?;
    Ok(())
}

fn push_issue(line: &mut String, issued: Option<u64>) -> Result<(), Fail> {
    match issued {
        Some(tick) => write!(line, "@{tick} ")?,
        None => line.push_str(" ")?,
    }
    Ok(())
}

/// Adds what is answered of a job: its phase, the marks, and the issue tick of its request.
fn push_answers(line: &mut String, set: &TaskSet, answers: Answers) -> Result<(), Fail> {
    let (phase, active, ready, waiting, issued) = answers;
    push_phase(line, set, phase)?;
    line.push_str("/")?;
    push_marks(line, active, ready, waiting)?;
    push_issue(line, issued)
}

fn push_job(line: &mut String, machine: &Machine, j: u32) -> Result<(), Fail> {
    match answers(machine, j) {
        Some(answers) => push_answers(line, machine.jobs().set(), answers),
        None => Err("no such job".into()),
    }
}

fn push_jobs(line: &mut String, machine: &Machine) -> Result<(), Fail> {
    for j in 0..machine.jobs().len() {
        push_job(line, machine, j)?;
    }
    Ok(())
}

/// Adds a job's number, counted from 1, or `-`.
fn push_number(line: &mut String, job: Option<JobId>) -> Result<(), Fail> {
    match job {
        Some(j) => write!(line, " {}", u64::from(j.0) + 1)?,
        None => line.push_str(" -")?,
    }
    Ok(())
}

fn push_current(line: &mut String, machine: &Machine) -> Result<(), Fail> {
    for x in 0..machine.jobs().set().tasks() {
        push_number(line, machine.current(TaskId(x)))?;
    }
    Ok(())
}

fn push_holders(line: &mut String, machine: &Machine) -> Result<(), Fail> {
    for q in 0..machine.jobs().set().resources() {
        push_number(line, machine.holder(ResourceId(q)))?;
    }
    Ok(())
}

/// Adds a line: what is answered of each job, then the current job of each task, then the holder of each resource.
fn push_line(text: &mut String, machine: &Machine) -> Result<(), Fail> {
    push_jobs(text, machine)?;
    text.push_str("|")?;
    push_current(text, machine)?;
    text.push_str(" |")?;
    push_holders(text, machine)?;
    text.push_str("\n")?;
    Ok(())
}

/// Takes the row, if it can be taken.
pub(crate) fn is_taken(machine: &mut Machine, row: &Row) -> bool {
    if machine.tick() >= 1_000_000_000 || !can_take(machine, row) {
        return false;
    }
    machine.advance(row);
    true
}

/// Takes the row.
pub(crate) fn take(machine: &mut Machine, row: &Row) -> Result<(), Fail> {
    if !is_taken(machine, row) {
        return Err("not a row to take".into());
    }
    Ok(())
}

/// The machine before the first row.
pub(crate) fn machine_at_start<'a>(
    alloc: Global,
    jobs: &'a JobList<'a>,
) -> Result<Machine<'a>, AllocError> {
    Machine::new(alloc, jobs)
}

/// Adds a line at each tick of the run, before its row is taken.
fn push_run(text: &mut String, machine: &mut Machine, run: &RowRun) -> Result<(), Fail> {
    for _ in 0..run.ticks {
        push_line(text, machine)?;
        take(machine, &run.row)?;
    }
    Ok(())
}

/// A line of what is answered at each tick before its row is taken, and one after the last row.
pub(crate) fn told(alloc: Global, jobs: &JobList, rows: &RowList) -> Result<String, Fail> {
    let mut machine = machine_at_start(alloc, jobs)?;
    let mut text = String::new(alloc);
    for run in rows.runs() {
        push_run(&mut text, &mut machine, run)?;
    }
    push_line(&mut text, &machine)?;
    Ok(text)
}
