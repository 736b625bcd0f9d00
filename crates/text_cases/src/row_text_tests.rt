use crate::texts::{jobs_in, set_in};
use schedule_model::{JobId, JobList, RowReader};
use std::alloc::{AllocError, Global};
use std::test::Fail;
use trace_csv::{RowText, RowsRefusal};
use worked_sets::files::{PAIR, PAIR_JOBS, PAIR_LOWER_FIRST};

/// The ticks of each run that a text gives, one after another.
fn run_ticks(alloc: Global, rows: &RowText) -> Result<Vec<u64>, AllocError> {
    let mut ticks = Vec::new(alloc);
    let mut reader = rows.rows(alloc)?;
    while reader.is_at_run() {
        ticks.push(reader.run().ticks)?;
        reader.step()?;
    }
    Ok(ticks)
}

/// The reader of a text.
fn text_of<'a>(
    alloc: Global,
    jobs: &'a JobList<'a>,
    text: &str,
) -> Result<Result<RowText<'a>, RowsRefusal>, AllocError> {
    let bytes = Vec::from_slice(alloc, text.as_bytes())?;
    Ok(RowText::new(alloc, jobs, bytes))
}

/// Has the second run of the text these places?
fn is_second_row(
    alloc: Global,
    rows: &RowText,
    running: &[Option<JobId>],
    holders: &[Option<JobId>],
) -> Result<bool, AllocError> {
    let mut reader = rows.rows(alloc)?;
    if !reader.is_at_run() {
        return Ok(false);
    }
    reader.step()?;
    if !reader.is_at_run() {
        return Ok(false);
    }
    let row = &reader.run().row;
    Ok(row.running.as_slice() == running && row.holders.as_slice() == holders)
}

#[test]
fn reads_the_runs_of_a_text_one_after_another(rt: HostRuntime) -> Result<(), Fail> {
    let set = set_in(rt.alloc(), PAIR)?;
    let jobs = jobs_in(rt.alloc(), &set, PAIR_JOBS)?;
    let rows = text_of(rt.alloc(), &jobs, PAIR_LOWER_FIRST)??;
    assert!(rt; rows.ticks() == 5);
    assert!(rt; run_ticks(rt.alloc(), &rows)?.as_slice() == [1, 2, 1, 1].as_slice());
    let two = Some(JobId(1));
    assert!(rt; is_second_row(rt.alloc(), &rows, &[None, two], &[two])?);
    Ok(())
}

/// Why the text is refused, or none if it isn't.
fn refusal_of(
    alloc: Global,
    jobs: &JobList,
    text: &str,
) -> Result<Option<RowsRefusal>, AllocError> {
    Ok(text_of(alloc, jobs, text)?.err())
}

#[test]
fn names_the_line_at_which_a_text_is_refused(rt: HostRuntime) -> Result<(), Fail> {
    let set = set_in(rt.alloc(), PAIR)?;
    let jobs = jobs_in(rt.alloc(), &set, PAIR_JOBS)?;
    let text = "ticks,P1,P2,q\n1000000000,1,2,\n\n1,1,2,\n";
    assert!(rt; refusal_of(rt.alloc(), &jobs, text)? == Some(RowsRefusal::TooLong(2)));
    Ok(())
}
