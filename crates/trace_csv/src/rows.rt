ghost use Rattle.std.specs.Prelude.{◌≡◌, ◌<◌, ◌≤◌, ◌+◌, ◌^◌, map, length, IfOk};
ghost use Rattle.std.specs.List.{list_all};
ghost use Rattle.std.specs.Option.{unwrap_or};
ghost use Rattle.schedule_model.specs.Seen.{place_seen, row_seen, run_seen};
ghost use Rattle.trace_csv.specs.Records.{fields_seen};
ghost use Rattle.trace_csv.specs.RowLines.{is_cell, is_listed, job_in, row_of_cells, processor_count, resource_count};
ghost use Rattle.trace_csv.specs.RowLines.{row_written, run_written, ticks_in};
ghost use Rattle.trace_csv.specs.RowsFile.{IsRowsFile, LinesRead, RecordsRead, RowsRead, IsUnrefused};
ghost use Rattle.trace_csv.specs.RowAnswers.{CellsRead, LineRead, LineTaken, HeaderTaken, at_line, IsMade};

use crate::header::is_rows_header;
use crate::lines::{LineForm, LineTaker, take_lines};
use crate::records::{Next, Records};
use crate::refusal::RowsRefusal;
use crate::slices::slices_of;
use schedule_model::{JobId, JobList, Row, RowList, RowRefusal, RowRun};
use sporadic_model::MOST_TICKS;
use std::alloc::{AllocError, Global};
use text_pieces::{is_number, number_between};

/// Is the cell empty, or a number?
fn is_cell(cell: &[u8]) -> bool
    ensures { result ≡ is_cell cell.now }
{
    cell.is_empty() || is_number(cell)
}

/// Is each cell empty, or a number?
fn are_cells(cells: &[&[u8]]) -> bool
    ensures { result ≡ list_all is_cell (map (λ c. c.now) cells.now) }
{
    for cell in cells {
        if !is_cell(cell) {
            return false;
        }
    }
    true
}

/// The job that a cell names among the first ones; none if it is empty.
fn job_in(cell: &[u8], jobs: u32) -> Option<JobId>
    ensures { place_seen result ≡ job_in jobs cell.now }
{
    match number_between(cell, 1, jobs as u64) {
        Some(number) => Some(JobId((number - 1) as u32)),
        None => None,
    }
}

/// Is the cell empty, or does it name one of the first jobs?
fn is_listed(cell: &[u8], jobs: u32) -> bool
    ensures { result ≡ is_listed jobs cell.now }
{
    cell.is_empty() || job_in(cell, jobs).is_some()
}

/// Is each cell empty, or does it name one of the first jobs?
fn are_listed(cells: &[&[u8]], jobs: u32) -> bool
    ensures { result ≡ list_all (is_listed jobs) (map (λ c. c.now) cells.now) }
{
    for cell in cells {
        if !is_listed(cell, jobs) {
            return false;
        }
    }
    true
}

/// The jobs that cells name among the first ones.
fn places_of(alloc: Global, cells: &[&[u8]], jobs: u32) -> Result<Vec<Option<JobId>>, AllocError>
    ensures { IfOk result (λ places. map place_seen places.items ≡ map (job_in jobs) (map (λ c. c.now) cells.now)) }
{
    let mut places = Vec::with_capacity(alloc, cells.len())?;
    for cell in cells {
        places.push(job_in(cell, jobs))?;
    }
    Ok(places)
}

/// The row of these cells: for each processor the job that runs, and then for each resource the job that holds it.
fn row_of(alloc: Global, cells: &[&[u8]], processors: usize, jobs: u32) -> Result<Row, AllocError>
    requires { processors ≤ length cells.now }
    ensures { IfOk result (λ row. row_seen row ≡ row_of_cells processors jobs (map (λ c. c.now) cells.now)) }
{
    let running = places_of(alloc, &cells[..processors], jobs)?;
    let holders = places_of(alloc, &cells[processors..], jobs)?;
    Ok(Row { running, holders })
}

/// The row of these cells, whatever they are.
fn written_row(alloc: Global, jobs: &JobList, cells: &[&[u8]]) -> Result<Row, AllocError>
    ensures { IfOk result (λ row. row_seen row ≡ row_written jobs.now (map (λ c. c.now) cells.now)) }
{
    let processors = (jobs.set().processors() as usize).min(cells.len());
    row_of(alloc, cells, processors, jobs.len())
}

/// The run of a field of ticks and of cells, or why their line, which has this number, is refused.
fn run_of_cells(
    alloc: Global,
    jobs: &JobList,
    ticks: &[u8],
    cells: &[&[u8]],
    line: u64,
) -> Result<RowRun, RowsRefusal>
    ensures { CellsRead result jobs.now ticks.now (map (λ c. c.now) cells.now) line }
{
    let processors = jobs.set().processors() as usize;
    if cells.len() != processors + jobs.set().resources() as usize {
        return Err(RowsRefusal::Fields(line));
    }
    let Some(ticks) = number_between(ticks, 1, MOST_TICKS) else {
        return Err(RowsRefusal::Number(line));
    };
    if !are_cells(cells) {
        return Err(RowsRefusal::Number(line));
    }
    if !are_listed(cells, jobs.len()) {
        return Err(RowsRefusal::UnknownJob(line));
    }
    let row = written_row(alloc, jobs, cells)?;
    Ok(RowRun { ticks, row })
}

/// The run of a line, or why the line, which has this number, is refused for what is on it.
pub(crate) fn run_of(
    alloc: Global,
    jobs: &JobList,
    fields: &[Vec<u8>],
    line: u64,
) -> Result<RowRun, RowsRefusal>
    ensures { LineRead result jobs.now (fields_seen fields.now) line }
{
    let fields = slices_of(alloc, fields)?;
    match fields.as_slice() {
        [ticks, cells @ ..] => run_of_cells(alloc, jobs, ticks, cells, line),
        [] => Err(RowsRefusal::Fields(line)),
    }
}

/// The ticks of a field; 0 if it has none.
fn written_ticks(field: &[u8]) -> u64
    ensures { result ≡ unwrap_or (ticks_in field.now) 0 }
{
    match number_between(field, 1, MOST_TICKS) {
        Some(ticks) => ticks,
        None => 0,
    }
}

/// The run of a line, whatever is on it.
pub(crate) fn written_run(
    alloc: Global,
    jobs: &JobList,
    fields: &[Vec<u8>],
) -> Result<RowRun, AllocError>
    ensures { IfOk result (λ run. run_seen run ≡ run_written jobs.now (fields_seen fields.now)) }
{
    let fields = slices_of(alloc, fields)?;
    match fields.as_slice() {
        [ticks, cells @ ..] => {
            let ticks = written_ticks(ticks);
            let row = written_row(alloc, jobs, cells)?;
            Ok(RowRun { ticks, row })
        }
        [] => {
            let running = Vec::new(alloc);
            let holders = Vec::new(alloc);
            let row = Row { running, holders };
            Ok(RowRun { ticks: 0, row })
        }
    }
}

/// The refusal of the line of this number, for a refusal by the list of rows.
fn refused_at(line: u64, refusal: RowRefusal) -> RowsRefusal
    ensures { result ≡ at_line line refusal }
{
    match refusal {
        RowRefusal::Number => RowsRefusal::Number(line),
        RowRefusal::UnknownJob => RowsRefusal::UnknownJob(line),
        RowRefusal::TooLong => RowsRefusal::TooLong(line),
        RowRefusal::Memory => RowsRefusal::Memory,
    }
}

/// Takes the run of a line into the list, or says why the line, which has this number, is refused.
fn take_line(
    rows: &mut RowList,
    alloc: Global,
    jobs: &JobList,
    fields: &[Vec<u8>],
    line: u64,
) -> Result<(), RowsRefusal>
    requires { IsMade rows.old jobs.now }
    ensures { LineTaken result jobs.now rows.old rows.new (fields_seen fields.now) line }
{
    let run = run_of(alloc, jobs, fields, line)?;
    match rows.push(run) {
        Ok(()) => Ok(()),
        Err(refusal) => Err(refused_at(line, refusal)),
    }
}

/// How many fields a line has: the ticks, one for each processor and one for each resource.
pub(crate) fn fields_per_line(jobs: &JobList) -> usize
    ensures { result ≡ 1 + (processor_count jobs.now + resource_count jobs.now) }
{
    1 + (jobs.set().processors() as usize + jobs.set().resources() as usize)
}

/// The lines of a file of rows.
#[derive(Drop)]
pub(crate) struct RowLines<'a> {
    pub(crate) jobs: &'a JobList<'a>,
}

impl<'a> LineForm for RowLines<'a> {
    type Refusal = RowsRefusal;

    ghost use Rattle.std.specs.Prelude.{◌≡◌, ◌+◌};
    ghost use Rattle.trace_csv.specs.declared.refusal.RowsRefusal.TheVariants.{Memory};
    ghost use Rattle.trace_csv.specs.RowLines.{processor_count, resource_count};
    ghost use Rattle.trace_csv.specs.RowAnswers.{row_reason};

    ghost most = { λ f. 1 + (processor_count f.jobs.now + resource_count f.jobs.now) };

    ghost reason = { λ f. row_reason f.jobs.now };

    ghost is_memory = { λ f r. r ≡ Memory };

    fn most_fields(&self) -> usize {
        fields_per_line(self.jobs)
    }

    fn too_long(&self, line: u64) -> RowsRefusal {
        RowsRefusal::Fields(line)
    }

    fn no_memory(&self) -> RowsRefusal {
        RowsRefusal::Memory
    }
}

impl<'a> LineTaker<RowLines<'a>> for RowList {
    ghost use Rattle.trace_csv.specs.RowAnswers.{HasRows};

    ghost has = { λ f lines rows. HasRows f.jobs.now lines rows };

    fn take(
        &mut self,
        form: &RowLines<'a>,
        alloc: Global,
        fields: &[Vec<u8>],
        line: u64,
    ) -> Result<(), RowsRefusal> {
        take_line(self, alloc, form.jobs, fields, line)
    }
}

/// Takes the header of a file of rows, or says why it is refused.
pub(crate) fn take_header(
    alloc: Global,
    jobs: &JobList,
    records: &mut Records,
) -> Result<(), RowsRefusal>
    ensures { HeaderTaken result jobs.now records.old records.new }
{
    let header = match records.next(alloc, fields_per_line(jobs))? {
        Next::Record(header) => header,
        Next::Long => return Err(RowsRefusal::Fields(0)),
        Next::End => return Err(RowsRefusal::Fields(0)),
    };
    let header = slices_of(alloc, &header)?;
    if !is_rows_header(alloc, jobs.set(), &header)? {
        return Err(RowsRefusal::Fields(0));
    }
    Ok(())
}

/// The runs of the lines, or the first line that is refused. Nothing after that line is read.
fn rows_of(alloc: Global, jobs: &JobList, lines: Records) -> Result<RowList, RowsRefusal>
    requires { length lines < 2 ^ 64 }
    ensures { LinesRead result jobs.now lines.entry }
{
    let mut rows = RowList::new(alloc, jobs);
    match take_lines(alloc, &RowLines { jobs }, lines, &mut rows) {
        Ok(()) => Ok(rows),
        Err(refusal) => Err(refusal),
    }
}

/// The rows of a file's records, or why it is refused.
fn rows_under_header(
    alloc: Global,
    jobs: &JobList,
    mut records: Records,
) -> Result<RowList, RowsRefusal>
    requires { length records < 2 ^ 64 }
    ensures { RecordsRead result jobs.now records.entry }
{
    match take_header(alloc, jobs, &mut records) {
        Ok(()) => rows_of(alloc, jobs, records),
        Err(refusal) => Err(refusal),
    }
}

/// Reads rows of jobs from CSV. First comes the header, and then a line for each run of equal rows: its number of ticks, for each processor
/// the job that runs, and for each resource the job that holds it. A job is named by its number in the list, counted from 1. An empty cell
/// names none. A line is a record as `csv` gives it, so a blank line doesn't count.
///
/// The answer is the list of the runs exactly if the text is such a file. Else it names the first line that is refused, and the first
/// reason on it, in the order of [`RowsRefusal`].
pub fn read_rows(alloc: Global, jobs: &JobList, bytes: &[u8]) -> Result<RowList, RowsRefusal>
    ensures read { RowsRead result jobs.now bytes.now }
    ensures accepts { IsRowsFile jobs.now bytes.now → IsUnrefused result }
{
    rows_under_header(alloc, jobs, Records::new(bytes))
}
