ghost use Rattle.std.specs.Prelude.{◌≡◌, ◌<◌, ◌^◌, length, IfOk, OnOk};
ghost use Rattle.csv.specs.Reading.{is_bom, strip_bom};
ghost use Rattle.trace_csv.specs.Places.{IsByteTaken};
ghost use Rattle.trace_csv.specs.Records.{records_in};
ghost use Rattle.trace_csv.specs.RecordAnswers.{PieceRead, IsNext};

use crate::bytes::{Effect, ReaderPlace, is_end, is_inside, step};
use std::alloc::{AllocError, Global};
use std::marker::Model;
use std::mem;

/// What a reader finds next, from its place on.
#[derive(Debug, Drop)]
enum Piece {
    /// A record with these fields. It leads to this place, this many bytes further.
    Record(Vec<Vec<u8>>, ReaderPlace, usize),
    /// A record of more fields than you asked for.
    Long,
    /// No further record.
    End,
}

/// What a text gives next.
#[derive(Debug, Drop)]
pub(crate) enum Next {
    /// A record with these fields.
    Record(Vec<Vec<u8>>),
    /// A record of more fields than you asked for.
    Long,
    /// No further record.
    End,
}

/// Applies a byte to the fields so far and to the current field.
fn take_byte(
    alloc: Global,
    fields: &mut Vec<Vec<u8>>,
    field: &mut Vec<u8>,
    effect: Effect,
    byte: u8,
) -> Result<(), AllocError>
    ensures { OnOk result (IsByteTaken effect byte fields.old field.old fields.new field.new) }
{
    match effect {
        Effect::Skip => {}
        Effect::Copy => field.push(byte)?,
        Effect::EndField | Effect::EndRecord => {
            fields.push(mem::replace(field, Vec::new(alloc)))?;
        }
    }
    Ok(())
}

/// Reads a record from this place on, at most up to the field that is one more than the most.
fn read_record(
    alloc: Global,
    text: &[u8],
    from: ReaderPlace,
    most: usize,
) -> Result<Piece, AllocError>
    ensures { PieceRead result from text.now most }
{
    let mut fields = Vec::new(alloc);
    let mut field = Vec::new(alloc);
    let mut place = from;
    for (i, byte) in text.iter().enumerate() {
        let (next, effect) = step(place, *byte);
        take_byte(alloc, &mut fields, &mut field, effect, *byte)?;
        place = next;
        if is_end(effect) {
            return Ok(Piece::Record(fields, place, i + 1));
        }
        if fields.len() > most && is_inside(place) {
            return Ok(Piece::Long);
        }
    }
    if !is_inside(place) {
        return Ok(Piece::End);
    }
    fields.push(field)?;
    Ok(Piece::Record(fields, ReaderPlace::Between, text.len()))
}

/// Are the bytes a byte order mark?
fn is_mark(a: u8, b: u8, c: u8) -> bool
    ensures { result ≡ is_bom a b c }
{
    a == 0xEF && b == 0xBB && c == 0xBF
}

/// The text without a byte order mark at its beginning.
fn without_mark(text: &[u8]) -> &[u8]
    ensures { result.now ≡ strip_bom text.now }
{
    if text.len() < 3 {
        return text;
    }
    if is_mark(text[0], text[1], text[2]) {
        &text[3..]
    } else {
        text
    }
}

/// The records that are left in a text. Each is read when it is asked for.
#[derive(Drop)]
pub(crate) struct Records<'t> {
    rest: &'t [u8],
    place: ReaderPlace,
}

impl<'t> Model for Records<'t> {
    ghost use Rattle.std.specs.Prelude.{List};
    ghost use Rattle.trace_csv.specs.Records.{Fields};

    ghost Value = { List Fields };

    ghost use Rattle.trace_csv.specs.RecordsView.{records_view, IsKept};

    ghost view = { records_view };

    ghost invariant = { IsKept };
}

impl<'t> Records<'t> {
    /// The records of a text.
    pub(crate) fn new(text: &'t [u8]) -> Records<'t>
        ensures records { result ≡ records_in text.now }
        ensures few { length result < 2 ^ 64 }
    {
        Records {
            rest: without_mark(text),
            place: ReaderPlace::Between,
        }
    }

    /// A reader of the same records, from here on.
    pub(crate) fn again(&self) -> Records<'t>
        ensures { result ≡ self.now }
    {
        Records {
            rest: self.rest,
            place: self.place,
        }
    }

    /// The next record, if there is one and it has at most this many fields.
    pub(crate) fn next(&mut self, alloc: Global, most: usize) -> Result<Next, AllocError>
        ensures { IsNext result self.old self.new most }
    {
        match read_record(alloc, self.rest, self.place, most)? {
            Piece::Record(fields, place, taken) => {
                self.rest = &self.rest[taken..];
                self.place = place;
                Ok(Next::Record(fields))
            }
            Piece::Long => Ok(Next::Long),
            Piece::End => Ok(Next::End),
        }
    }
}
