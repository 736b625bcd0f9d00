//! Whether a machine can take a row, for callers that don't know it otherwise.

ghost use Rattle.std.specs.Prelude.{◌≡◌, ◌↔◌, ◌<◌, true, length, map};
ghost use Rattle.schedule_model.specs.Fitting.{names_below};
ghost use Rattle.schedule_model.specs.Seen.{place_seen, row_seen};
ghost use Rattle.phase_machine.specs.Taking.{IsRowFor, CanTake, RunsAlone, AreAlone};
ghost use Rattle.phase_machine.specs.Given.{RunsBefore, IsColumnOf, RunListed, Tells, is_row_for};

use crate::machine::Machine;
use schedule_model::{JobId, Row};

/// Do the places name only jobs below this number?
fn name_below(places: &[Option<JobId>], jobs: u32) -> bool
    ensures { result ≡ names_below jobs (map place_seen places.now) }
{
    places.iter().all(|place| match place {
        Some(job) => job.0 < jobs,
        None => true,
    })
}

/// Does one of the first columns run the job?
fn runs_before(running: &[Option<JobId>], c: usize, j: JobId) -> bool
    requires { c < length running.now }
    ensures { Tells result (RunsBefore running.now c j) }
{
    for b in 0..c {
        if running[b] == Some(j) {
            return true;
        }
    }
    false
}

/// If there is a job in this column: is it active, and in no column before?
fn runs_alone(machine: &Machine, running: &[Option<JobId>], c: usize) -> bool
    requires { IsColumnOf machine.now.list running.now c }
    ensures { Tells result (RunsAlone machine.now running.now c) }
{
    match running[c] {
        Some(j) => machine.active(j) && !runs_before(running, c, j),
        None => true,
    }
}

/// Is each of these running jobs active, and in one column only?
fn run_well(machine: &Machine, running: &[Option<JobId>]) -> bool
    requires { RunListed machine.now.list running.now }
    ensures { Tells result (AreAlone machine.now running.now) }
{
    for c in 0..running.len() {
        if !runs_alone(machine, running, c) {
            return false;
        }
    }
    true
}

/// Has the row the sizes of the machine's set, and does it name only listed jobs?
fn is_fitting(machine: &Machine, row: &Row) -> bool
    ensures { result ≡ is_row_for machine.now.list (row_seen row.now) }
{
    let jobs = machine.jobs();
    let set = jobs.set();
    let is_sized = row.running.len() == set.processors() as usize
        && row.holders.len() == set.resources() as usize;
    is_sized && (name_below(&row.running, jobs.len()) && name_below(&row.holders, jobs.len()))
}

/// Is the row one for the machine's jobs: has it the set's sizes, and does it name only listed jobs?
pub fn is_row_for(machine: &Machine, row: &Row) -> bool
    ensures { (result ≡ true) ↔ IsRowFor machine.now.list (row_seen row.now) }
{
    is_fitting(machine, row)
}

/// Can the machine take the row?
pub fn can_take(machine: &Machine, row: &Row) -> bool
    ensures { (result ≡ true) ↔ CanTake machine.now (row_seen row.now) }
{
    is_row_for(machine, row) && run_well(machine, &row.running)
}
