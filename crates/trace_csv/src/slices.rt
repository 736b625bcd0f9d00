ghost use Rattle.std.specs.Prelude.{◌≡◌, map, IfOk};
ghost use Rattle.csv.specs.Records.{fields_of};
ghost use Rattle.trace_csv.specs.Records.{fields_seen};

use csv::ByteRecord;
use std::alloc::{AllocError, Global};

/// The fields of a record that is written.
pub(crate) fn fields_in(alloc: Global, row: &ByteRecord) -> Result<Vec<&[u8]>, AllocError>
    ensures { IfOk result (λ fields. map (λ f. f.now) fields.items ≡ fields_of row.now) }
{
    let mut fields = Vec::new(alloc);
    for i in 0..row.len() {
        match row.get(i) {
            Some(field) => fields.push(field)?,
            None => {}
        }
    }
    Ok(fields)
}

/// The fields of a record that was read.
pub(crate) fn slices_of(alloc: Global, fields: &[Vec<u8>]) -> Result<Vec<&[u8]>, AllocError>
    ensures { IfOk result (λ slices. map (λ f. f.now) slices.items ≡ fields_seen fields.now) }
{
    let mut slices = Vec::with_capacity(alloc, fields.len())?;
    for field in fields {
        slices.push(field.as_slice())?;
    }
    Ok(slices)
}
