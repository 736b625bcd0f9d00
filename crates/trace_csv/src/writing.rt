ghost use Rattle.std.specs.Prelude.{◌≡◌, ◌≤◌, ◌++◌, ◌∷◌, [], map, length, IfOk, OnOk, IsTrue};
ghost use Rattle.csv.specs.Records.{fields_of, partial_of};
ghost use Rattle.csv.specs.Writing.{default_writer, needs_byte, needs_quotes, quoted, field_text, fields_text, row_text};
ghost use Rattle.schedule_model.specs.Fitting.{IsRowList};
ghost use Rattle.schedule_model.specs.Seen.{place_seen, run_seen};
ghost use Rattle.trace_csv.specs.Records.{HasFields};
ghost use Rattle.trace_csv.specs.Written.{cell_of, line_of, body_text, rows_text, are_sized, ReadsBackIfFitting};

use crate::header::rows_header;
use crate::slices::fields_in;
use csv::ByteRecord;
use itoa::Buffer;
use schedule_model::{JobId, RowList, RowRun};
use sporadic_model::TaskSet;
use std::alloc::{AllocError, Global};

/// Adds the cell that names a job, or an empty one.
fn push_cell(row: &mut ByteRecord, place: Option<JobId>) -> Result<(), AllocError>
    requires { partial_of row.old ≡ [] }
    ensures { OnOk result (HasFields row.new (fields_of row.old ++ (cell_of (place_seen place) ∷ []))) }
{
    match place {
        Some(job) => {
            let mut buffer = Buffer::new();
            row.push_field(buffer.format(job.0 as u64 + 1).as_bytes())
        }
        None => row.push_field(b""),
    }
}

/// Adds a cell for each place.
fn push_cells(row: &mut ByteRecord, places: &[Option<JobId>]) -> Result<(), AllocError>
    requires { partial_of row.old ≡ [] }
    ensures { OnOk result (HasFields row.new (fields_of row.old ++ map cell_of (map place_seen places.now))) }
{
    for place in places {
        push_cell(row, *place)?;
    }
    Ok(())
}

/// The line of a run.
fn line_of(alloc: Global, run: &RowRun) -> Result<ByteRecord, AllocError>
    ensures { IfOk result (λ row. fields_of row ≡ line_of (run_seen run.now)) }
{
    let mut buffer = Buffer::new();
    let mut row = ByteRecord::new(alloc);
    row.push_field(buffer.format(run.ticks).as_bytes())?;
    push_cells(&mut row, &run.row.running)?;
    push_cells(&mut row, &run.row.holders)?;
    Ok(row)
}

/// Does a field with this byte need quotes?
fn is_special(byte: u8) -> bool
    ensures { result ≡ needs_byte default_writer byte }
{
    byte == b',' || byte == b'"' || byte == b'\r' || byte == b'\n'
}

/// Does the field need quotes?
fn needs_quotes(field: &[u8]) -> bool
    ensures { result ≡ needs_quotes default_writer field.now }
{
    field.iter().any(|byte| is_special(*byte))
}

/// Adds a field between quotes, and doubles each quote in it.
fn push_quoted(text: &mut Vec<u8>, field: &[u8]) -> Result<(), AllocError>
    ensures { OnOk result (text.new.items ≡ text.old.items ++ quoted default_writer field.now) }
{
    text.push(b'"')?;
    for byte in field {
        if *byte == b'"' {
            text.push(b'"')?;
        }
        text.push(*byte)?;
    }
    text.push(b'"')?;
    Ok(())
}

/// Adds a field, between quotes if it needs them.
fn push_field(text: &mut Vec<u8>, field: &[u8]) -> Result<(), AllocError>
    ensures { OnOk result (text.new.items ≡ text.old.items ++ field_text default_writer field.now) }
{
    if needs_quotes(field) {
        push_quoted(text, field)
    } else {
        text.extend_from_slice(field)
    }
}

/// Adds fields, each after a comma.
fn push_fields(text: &mut Vec<u8>, fields: &[&[u8]]) -> Result<(), AllocError>
    ensures { OnOk result (text.new.items ≡ text.old.items ++ fields_text default_writer (map (λ f. f.now) fields.now)) }
{
    for field in fields {
        text.push(b',')?;
        push_field(text, field)?;
    }
    Ok(())
}

/// Adds the fields of a record, with a comma between any two. A record of one empty field is two quotes, and so is one without a field.
fn push_body(text: &mut Vec<u8>, fields: &[&[u8]]) -> Result<(), AllocError>
    ensures { OnOk result (text.new.items ≡ text.old.items ++ body_text (map (λ f. f.now) fields.now)) }
{
    let [first, rest @ ..] = fields else {
        return push_quoted(text, b"");
    };
    if first.is_empty() && rest.is_empty() {
        return push_quoted(text, b"");
    }
    push_field(text, first)?;
    push_fields(text, rest)
}

/// Adds a record and the end of its line.
fn push_record(alloc: Global, text: &mut Vec<u8>, row: &ByteRecord) -> Result<(), AllocError>
    ensures { OnOk result (text.new.items ≡ text.old.items ++ row_text default_writer (fields_of row.now)) }
{
    let fields = fields_in(alloc, row)?;
    push_body(text, &fields)?;
    text.push(b'\n')?;
    Ok(())
}

/// The text of rows of a task set.
fn text_of_rows(alloc: Global, set: &TaskSet, rows: &RowList) -> Result<Vec<u8>, AllocError>
    requires { IsTrue (are_sized set.now rows.now.runs) }
    ensures text { IfOk result (λ text. text.items ≡ rows_text set.now rows.now.runs) }
    ensures listed { OnOk result (IsRowList rows.now) }
{
    let mut text = Vec::new(alloc);
    push_record(alloc, &mut text, &rows_header(alloc, set)?)?;
    for run in rows.runs() {
        push_record(alloc, &mut text, &line_of(alloc, run)?)?;
    }
    Ok(text)
}

/// Writes rows of a task set as CSV: the header, and a line for each run. Each line ends with one line feed. If you read the text with jobs
/// of the set that the rows fit, you get the same runs.
pub fn write_rows(alloc: Global, set: &TaskSet, rows: &RowList) -> Result<Vec<u8>, AllocError>
    requires { IsTrue (are_sized set.now rows.now.runs) }
    ensures text { IfOk result (λ text. text.items ≡ rows_text set.now rows.now.runs) }
    ensures reads_back { IfOk result (λ text. ReadsBackIfFitting set.now rows.now text.items) }
{
    text_of_rows(alloc, set, rows)
}
