ghost use Rattle.std.specs.Prelude.{◌≡◌};
ghost use Rattle.csv.specs.Machine as machine;
ghost use Rattle.csv.specs.Reading.{default_config};
ghost use Rattle.trace_csv.specs.Places.{place_seen, effect_seen, DoesAs};

/// Where a reader is in a text.
#[derive(Clone, Copy, Debug, PartialEq, Eq)]
pub(crate) enum ReaderPlace {
    /// Between records.
    Between,
    /// Between records, after a carriage return.
    AfterReturn,
    /// Before a field.
    FieldStart,
    /// In a field, outside of quotes.
    Plain,
    /// In a field, between quotes.
    Quoted,
    /// After a quote in a field between quotes. It is the last quote, or the first of two that mean one.
    AfterQuote,
}

/// What a byte does to the record that is being read.
#[derive(Clone, Copy, Debug, PartialEq, Eq)]
pub(crate) enum Effect {
    Skip,
    Copy,
    EndField,
    EndRecord,
}

/// What a byte does in a field, outside of quotes.
fn in_field(byte: u8) -> (ReaderPlace, Effect)
    ensures { DoesAs result (machine.in_field default_config byte) }
{
    if byte == b',' {
        (ReaderPlace::FieldStart, Effect::EndField)
    } else if byte == b'\r' {
        (ReaderPlace::AfterReturn, Effect::EndRecord)
    } else if byte == b'\n' {
        (ReaderPlace::Between, Effect::EndRecord)
    } else {
        (ReaderPlace::Plain, Effect::Copy)
    }
}

/// What a byte does before a field.
fn before_field(byte: u8) -> (ReaderPlace, Effect)
    ensures { DoesAs result (machine.start_field default_config byte) }
{
    if byte == b'"' {
        (ReaderPlace::Quoted, Effect::Skip)
    } else {
        in_field(byte)
    }
}

/// What a byte does between records.
fn between_records(byte: u8) -> (ReaderPlace, Effect)
    ensures { DoesAs result (machine.start_record default_config byte) }
{
    if byte == b'\r' || byte == b'\n' {
        (ReaderPlace::Between, Effect::Skip)
    } else {
        before_field(byte)
    }
}

/// What a byte does between quotes.
fn in_quotes(byte: u8) -> (ReaderPlace, Effect)
    ensures { DoesAs result (machine.step default_config (place_seen ReaderPlace.Quoted) byte) }
{
    if byte == b'"' {
        (ReaderPlace::AfterQuote, Effect::Skip)
    } else {
        (ReaderPlace::Quoted, Effect::Copy)
    }
}

/// Where a byte leads from a place, and what it does, as `csv` reads with its defaults.
pub(crate) fn step(place: ReaderPlace, byte: u8) -> (ReaderPlace, Effect)
    ensures { DoesAs result (machine.step default_config (place_seen place) byte) }
{
    match place {
        ReaderPlace::Between => between_records(byte),
        ReaderPlace::AfterReturn => {
            if byte == b'\n' {
                (ReaderPlace::Between, Effect::Skip)
            } else {
                between_records(byte)
            }
        }
        ReaderPlace::FieldStart => before_field(byte),
        ReaderPlace::Plain => in_field(byte),
        ReaderPlace::Quoted => in_quotes(byte),
        ReaderPlace::AfterQuote => {
            if byte == b'"' {
                (ReaderPlace::Quoted, Effect::Copy)
            } else {
                in_field(byte)
            }
        }
    }
}

/// Has a record begun, so that the end of the text ends it?
pub(crate) fn is_inside(place: ReaderPlace) -> bool
    ensures { result ≡ machine.ends_at_end (place_seen place) }
{
    match place {
        ReaderPlace::Between | ReaderPlace::AfterReturn => false,
        ReaderPlace::FieldStart
        | ReaderPlace::Plain
        | ReaderPlace::Quoted
        | ReaderPlace::AfterQuote => true,
    }
}

/// Does the record end here?
pub(crate) fn is_end(effect: Effect) -> bool
    ensures { result ≡ machine.is_end (effect_seen effect) }
{
    match effect {
        Effect::EndRecord => true,
        Effect::Skip | Effect::Copy | Effect::EndField => false,
    }
}
