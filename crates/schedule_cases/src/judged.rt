ghost use Rattle.std.specs.Prelude.{◌≡◌, true};
ghost use Rattle.sporadic_model.specs.Homes.{EachHasHome};

use crate::texts::rule_word;
use crate::told::{machine_at_start, take};
use dpcp_rules::Dpcp;
use fmlp_rules::FmlpPlus;
use mpcp_rules::Mpcp;
use phase_machine::{Judge, Machine, is_row_for};
use schedule_model::{JobId, JobList, Row, RowList, RowRun, Rule};
use sporadic_model::Protocol;
use std::alloc::{AllocError, Global};
use std::test::Fail;
use taskset_json::home_check;

/// Has each resource of the machine's set a home?
fn are_at_home(machine: &Machine) -> bool
    ensures { result ≡ true → EachHasHome machine.now.list.set }
{
    home_check(machine.jobs().set(), Protocol::Dpcp).is_ok()
}

fn judge(protocol: Protocol, machine: &Machine, row: &Row) -> Result<Result<(), Rule>, Fail> {
    if !is_row_for(machine, row) {
        return Err("not a row for the jobs".into());
    }
    match protocol {
        Protocol::Mpcp => Ok(Mpcp.judge(machine, row)),
        Protocol::FmlpPlus => Ok(FmlpPlus.judge(machine, row)),
        Protocol::Dpcp => {
            if !are_at_home(machine) {
                return Err("no home".into());
            }
            Ok(Dpcp.judge(machine, row))
        }
    }
}

fn is_blocked(protocol: Protocol, machine: &Machine, row: &Row, j: JobId) -> Result<bool, Fail> {
    if !is_row_for(machine, row) || j.0 >= machine.jobs().len() {
        return Err("not a row for the jobs".into());
    }
    match protocol {
        Protocol::Mpcp => Ok(Mpcp.blocked(machine, row, j)),
        Protocol::FmlpPlus => Ok(FmlpPlus.blocked(machine, row, j)),
        Protocol::Dpcp => {
            if !are_at_home(machine) {
                return Err("no home".into());
            }
            Ok(Dpcp.blocked(machine, row, j))
        }
    }
}

/// A row of the machine's sizes that names the first job everywhere.
fn full_row(alloc: Global, machine: &Machine) -> Result<Row, AllocError> {
    let mut row = Row {
        running: Vec::new(alloc),
        holders: Vec::new(alloc),
    };
    for _ in 0..machine.jobs().set().processors() {
        row.running.push(Some(JobId(0)))?;
    }
    for _ in 0..machine.jobs().set().resources() {
        row.holders.push(Some(JobId(0)))?;
    }
    Ok(row)
}

/// The row that is chosen next.
fn chosen_row(alloc: Global, protocol: Protocol, machine: &Machine) -> Result<Row, Fail> {
    let mut row = full_row(alloc, machine)?;
    if !is_row_for(machine, &row) {
        return Err("no jobs".into());
    }
    match protocol {
        Protocol::Mpcp => Mpcp.choose(machine, &mut row),
        Protocol::FmlpPlus => FmlpPlus.choose(machine, &mut row),
        Protocol::Dpcp => {
            if !are_at_home(machine) {
                return Err("no home".into());
            }
            Dpcp.choose(machine, &mut row);
        }
    }
    Ok(row)
}

/// The numbers of the blocked jobs, counted from 1, with `+` between them; `-` if none is blocked.
fn blocked_word(
    alloc: Global,
    protocol: Protocol,
    machine: &Machine,
    row: &Row,
) -> Result<String, Fail> {
    let mut word = String::new(alloc);
    for j in 0..machine.jobs().len() {
        if is_blocked(protocol, machine, row, JobId(j))? {
            let between = if word.is_empty() { "" } else { "+" };
            let number = u64::from(j) + 1;
            word.push_str(format!(in alloc; "{between}{number}")?.as_str())?;
        }
    }
    if word.is_empty() {
        word.push_str("-")?;
    }
    Ok(word)
}

/// The word of the blocked jobs if the row keeps the rules, and else the first rule that it breaks.
fn row_word(
    alloc: Global,
    protocol: Protocol,
    machine: &Machine,
    row: &Row,
) -> Result<Result<String, Rule>, Fail> {
    match judge(protocol, machine, row)? {
        Ok(()) => Ok(Ok(blocked_word(alloc, protocol, machine, row)?)),
        Err(rule) => Ok(Err(rule)),
    }
}

/// What is said of the rows so far, and whether each was the chosen one.
#[derive(Drop)]
struct Said {
    text: String,
    are_chosen: bool,
}

/// Adds what is said of the row, and takes it if it breaks no rule. Is there nothing more to say, since it breaks one?
fn say(
    alloc: Global,
    protocol: Protocol,
    machine: &mut Machine,
    row: &Row,
    said: &mut Said,
) -> Result<bool, Fail> {
    match row_word(alloc, protocol, machine, row)? {
        Ok(word) => said.text.push_str(word.as_str())?,
        Err(rule) => {
            said.text.push_str(rule_word(rule))?;
            return Ok(true);
        }
    }
    said.text.push_str(" ")?;
    said.are_chosen = said.are_chosen && chosen_row(alloc, protocol, machine)? == *row;
    take(machine, row)?;
    Ok(false)
}

/// The same for each row of the run.
fn say_run(
    alloc: Global,
    protocol: Protocol,
    machine: &mut Machine,
    run: &RowRun,
    said: &mut Said,
) -> Result<bool, Fail> {
    for _ in 0..run.ticks {
        if say(alloc, protocol, machine, &run.row, said)? {
            return Ok(true);
        }
    }
    Ok(false)
}

/// A word for each lawful row, of the jobs that are blocked in it. Then the first rule that is broken. If none is, `chosen` if each row is
/// the chosen one, and else `lawful`.
pub(crate) fn judgement_of(
    alloc: Global,
    protocol: Protocol,
    jobs: &JobList,
    rows: &RowList,
) -> Result<String, Fail> {
    let mut machine = machine_at_start(alloc, jobs)?;
    let mut said = Said {
        text: String::new(alloc),
        are_chosen: true,
    };
    for run in rows.runs() {
        if say_run(alloc, protocol, &mut machine, run, &mut said)? {
            return Ok(said.text);
        }
    }
    said.text
        .push_str(if said.are_chosen { "chosen" } else { "lawful" })?;
    Ok(said.text)
}
