ghost use Rattle.std.specs.Prelude.{◌≡◌, ◌+◌, IfOk};
ghost use Rattle.trace_csv.specs.RowLines.{processor_count, resource_count};
ghost use Rattle.trace_csv.specs.RowTexts.{IsNextShort, IsNextLine, IsNextRun, AreRowsIn, rows_in};

use crate::records::{Next, Records};
use crate::rows::{fields_per_line, written_run};
use schedule_model::{JobList, RowReader, RowRun};
use std::alloc::{AllocError, Global};
use std::marker::Model;

/// The fields of the next line, if there is one. It has no more than the most.
fn next_line(
    alloc: Global,
    lines: &mut Records,
    most: usize,
) -> Result<Option<Vec<Vec<u8>>>, AllocError>
    requires { IsNextShort lines.old most }
    ensures { IfOk result (λ fields. IsNextLine fields lines.old lines.new) }
{
    match lines.next(alloc, most)? {
        Next::Record(fields) => Ok(Some(fields)),
        Next::Long => unreachable!(),
        Next::End => Ok(None),
    }
}

/// The run of the next line, if there is one.
fn next_run(
    alloc: Global,
    jobs: &JobList,
    lines: &mut Records,
) -> Result<Option<RowRun>, AllocError>
    requires { IsNextShort lines.old (1 + (processor_count jobs.now + resource_count jobs.now)) }
    ensures { IfOk result (λ run. IsNextRun run jobs.now lines.old lines.new) }
{
    match next_line(alloc, lines, fields_per_line(jobs))? {
        Some(fields) => Ok(Some(written_run(alloc, jobs, &fields)?)),
        None => Ok(None),
    }
}

/// Rows that are read from a judged text, one run after another. It takes only memory for two lines of the text.
#[derive(Drop)]
pub struct TextRows<'a> {
    alloc: Global,
    jobs: &'a JobList<'a>,
    bytes: &'a [u8],
    lines: Records<'a>,
    run: Option<RowRun>,
    at: usize,
}

impl<'a> Model for TextRows<'a> {
    ghost use Rattle.trace_csv.specs.RowTexts.{ReaderDef};

    ghost Value = { ReaderDef };

    ghost use Rattle.trace_csv.specs.TextRowsView.{text_rows_view, IsKept};

    ghost view = { text_rows_view };

    ghost invariant = { IsKept };
}

impl<'a> TextRows<'a> {
    /// The rows of a text, from the first run on.
    pub(crate) fn new(
        alloc: Global,
        jobs: &'a JobList<'a>,
        bytes: &'a [u8],
    ) -> Result<TextRows<'a>, AllocError>
        requires { AreRowsIn jobs.now bytes.now }
        ensures { IfOk result (λ reader. reader ≡ record { rows = rows_in jobs.now bytes.now; at = 0 }) }
    {
        let mut lines = Records::new(bytes);
        let _header = next_line(alloc, &mut lines, fields_per_line(jobs))?;
        let run = next_run(alloc, jobs, &mut lines)?;
        Ok(TextRows {
            alloc,
            jobs,
            bytes,
            lines,
            run,
            at: 0,
        })
    }
}

impl<'a> RowReader for TextRows<'a> {
    ghost rows = { λ r. r.rows };

    ghost at = { λ r. r.at };

    fn is_at_run(&self) -> bool {
        self.run.is_some()
    }

    fn run(&self) -> &RowRun {
        match &self.run {
            Some(run) => run,
            None => unreachable!(),
        }
    }

    fn step(&mut self) -> Result<(), AllocError> {
        let mut lines = self.lines.again();
        let run = next_run(self.alloc, self.jobs, &mut lines)?;
        self.lines = lines;
        self.run = run;
        self.at += 1;
        Ok(())
    }

    fn keeps_its_rules(&self) {
        // a proof knows what every reader keeps once a field is read
        let _run = &self.run;
    }
}
