ghost use Rattle.std.specs.Prelude.{◌≡◌, ◌≤◌, IfOk};
ghost use Rattle.sporadic_model.specs.declared.limits.TheConstants.{MOST_TICKS};
ghost use Rattle.schedule_model.specs.RowDef.{ticks_of};
ghost use Rattle.schedule_model.specs.Fitting.{IsRowList};
ghost use Rattle.trace_csv.specs.Records.{fields_seen};
ghost use Rattle.trace_csv.specs.RowsFile.{IsRowsFile, RowsRead, IsUnrefused};
ghost use Rattle.trace_csv.specs.RowAnswers.{TicksCounted};
ghost use Rattle.trace_csv.specs.RowTexts.{TextJudged};

use crate::lines::{LineTaker, take_lines};
use crate::records::Records;
use crate::refusal::RowsRefusal;
use crate::rows::{RowLines, run_of, take_header};
use crate::text_rows::TextRows;
use schedule_model::JobList;
use sporadic_model::MOST_TICKS;
use std::alloc::{AllocError, Global};
use std::marker::Model;

/// Counts the ticks of a line's run, or says why the line, which has this number, is refused.
fn count_line(
    ticks: &mut u64,
    alloc: Global,
    jobs: &JobList,
    fields: &[Vec<u8>],
    line: u64,
) -> Result<(), RowsRefusal>
    requires { ticks.old ≤ MOST_TICKS }
    ensures { TicksCounted result jobs.now ticks.old ticks.new (fields_seen fields.now) line }
{
    let run = run_of(alloc, jobs, fields, line)?;
    if run.ticks > MOST_TICKS - *ticks {
        return Err(RowsRefusal::TooLong(line));
    }
    *ticks += run.ticks;
    Ok(())
}

/// How many ticks the runs of the lines last.
#[derive(Drop)]
struct TickCount {
    ticks: u64,
}

impl<'a> LineTaker<RowLines<'a>> for TickCount {
    ghost use Rattle.trace_csv.specs.RowAnswers.{HasTicks};

    ghost has = { λ f lines count. HasTicks f.jobs.now lines count.ticks };

    fn take(
        &mut self,
        form: &RowLines<'a>,
        alloc: Global,
        fields: &[Vec<u8>],
        line: u64,
    ) -> Result<(), RowsRefusal> {
        count_line(&mut self.ticks, alloc, form.jobs, fields, line)
    }
}

/// How many ticks the rows of a text last, or why it is refused.
fn judged_ticks(alloc: Global, jobs: &JobList, bytes: &[u8]) -> Result<u64, RowsRefusal>
    ensures { TextJudged result jobs.now bytes.now }
{
    let mut records = Records::new(bytes);
    match take_header(alloc, jobs, &mut records) {
        Ok(()) => {}
        Err(refusal) => return Err(refusal),
    }
    let mut count = TickCount { ticks: 0 };
    match take_lines(alloc, &RowLines { jobs }, records, &mut count) {
        Ok(()) => Ok(count.ticks),
        Err(refusal) => Err(refusal),
    }
}

/// Rows of jobs in CSV. They were judged, and are kept as their text.
#[derive(Drop)]
pub struct RowText<'a> {
    jobs: &'a JobList<'a>,
    bytes: Vec<u8>,
    ticks: u64,
}

impl<'a> Model for RowText<'a> {
    ghost use Rattle.schedule_model.specs.Fitting.{RowsDef};

    ghost Value = { RowsDef };

    ghost use Rattle.trace_csv.specs.RowTextView.{row_text_view, IsJudged};

    ghost view = { row_text_view };

    ghost invariant = { IsJudged };
}

impl<'a> RowText<'a> {
    /// Judges a text as [`read_rows`](crate::read_rows) does, and keeps it as it is. So besides the text it takes only memory for one line
    /// of it.
    pub fn new(
        alloc: Global,
        jobs: &'a JobList<'a>,
        bytes: Vec<u8>,
    ) -> Result<RowText<'a>, RowsRefusal>
        ensures read { RowsRead result jobs.now bytes.items }
        ensures accepts { IsRowsFile jobs.now bytes.items → IsUnrefused result }
    {
        match judged_ticks(alloc, jobs, &bytes) {
            Ok(ticks) => Ok(RowText { jobs, bytes, ticks }),
            Err(refusal) => Err(refusal),
        }
    }

    /// How many ticks the rows last, at most 10^9.
    pub fn ticks(&self) -> u64
        ensures value { result ≡ ticks_of self.now.runs }
        ensures listed { IsRowList self.now }
        ensures most { result ≤ MOST_TICKS }
    {
        self.ticks
    }

    /// A reader of the rows, run by run from the first one on. It fails only for want of memory.
    pub fn rows(&self, alloc: Global) -> Result<TextRows<'_>, AllocError>
        ensures rows { IfOk result (λ reader. reader.rows ≡ self.now) }
        ensures at { IfOk result (λ reader. reader.at ≡ 0) }
    {
        TextRows::new(alloc, self.jobs, &self.bytes)
    }
}
