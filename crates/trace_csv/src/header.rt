ghost use Rattle.std.specs.Prelude.{◌≡◌, ◌↔◌, ◌++◌, ◌∷◌, [], codes, map, IfOk, OnOk, IsTrue};
ghost use Rattle.std.specs.List.{range_with_len};
ghost use Rattle.csv.specs.Records.{fields_of, partial_of};
ghost use Rattle.trace_csv.specs.Records.{HasFields};
ghost use Rattle.trace_csv.specs.RowsFile.{processor_field, processor_fields, rows_header};

use crate::slices::fields_in;
use csv::ByteRecord;
use itoa::Buffer;
use sporadic_model::{ResourceId, TaskSet};
use std::alloc::{AllocError, Global};

/// Are the fields these ones?
pub(crate) fn are_same(fields: &[&[u8]], others: &[&[u8]]) -> bool
    ensures { IsTrue result ↔ (map (λ f. f.now) fields.now ≡ map (λ f. f.now) others.now) }
{
    fields == others
}

/// Adds the field of a processor to a header.
fn push_processor(alloc: Global, header: &mut ByteRecord, processor: u32) -> Result<(), AllocError>
    requires { partial_of header.old ≡ [] }
    ensures { OnOk result (HasFields header.new (fields_of header.old ++ (processor_field processor ∷ []))) }
{
    let mut buffer = Buffer::new();
    let mut name = Vec::from_slice(alloc, b"P")?;
    name.extend_from_slice(buffer.format(processor).as_bytes())?;
    header.push_field(&name)
}

/// The header of a file of rows, up to the processors.
fn processors_header(alloc: Global, set: &TaskSet) -> Result<ByteRecord, AllocError>
    ensures { IfOk result (λ header. HasFields header (codes "ticks" ∷ processor_fields set.now.processors)) }
{
    let mut header = ByteRecord::new(alloc);
    header.push_field(b"ticks")?;
    for k in 0..set.processors() {
        push_processor(alloc, &mut header, k + 1)?;
    }
    Ok(header)
}

/// The header of a file of rows.
pub(crate) fn rows_header(alloc: Global, set: &TaskSet) -> Result<ByteRecord, AllocError>
    ensures { IfOk result (λ header. fields_of header ≡ rows_header set.now) }
{
    let mut header = processors_header(alloc, set)?;
    for q in 0..set.resources() {
        header.push_field(set.resource_name(ResourceId(q)).as_bytes())?;
    }
    Ok(header)
}

/// Are the fields the header of a file of rows?
pub(crate) fn is_rows_header(
    alloc: Global,
    set: &TaskSet,
    fields: &[&[u8]],
) -> Result<bool, AllocError>
    ensures { IfOk result (λ same. IsTrue same ↔ (map (λ f. f.now) fields.now ≡ rows_header set.now)) }
{
    let header = rows_header(alloc, set)?;
    let others = fields_in(alloc, &header)?;
    Ok(are_same(fields, &others))
}
